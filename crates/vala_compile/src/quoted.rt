// What a text literal denotes that is carried to C.

ghost use Rattle.std.specs.Prelude.{◌≡◌, IfOk, OnOk};
ghost use Rattle.vg_base.specs.Small.{is_plain, escape_of};
ghost use Rattle.vala_compile.specs.Quoted as spec;

use std::alloc::Global;
use vg_base::{Bytes, Memory};

/// Where a byte of a literal stands.
#[derive(Clone, Copy)]
enum Place {
    /// In front of the first quote.
    Front,
    /// Between the quotes.
    Inside,
    /// Behind a `\` between the quotes.
    Escape,
    /// Behind the last quote.
    Behind,
}

fn is_plain(byte: u8) -> bool
    ensures { result ≡ is_plain byte }
{
    b' ' <= byte && byte <= b'~' && byte != b'"' && byte != b'%' && byte != b'\\'
}

fn escape_of(byte: u8) -> Option<u8>
    ensures { result ≡ escape_of byte }
{
    match byte {
        b'n' => Some(b'\n'),
        b'"' | b'\\' => Some(byte),
        _ => None,
    }
}

fn in_text(byte: u8) -> Option<(Option<u8>, Place)>
    ensures { result ≡ spec.in_text byte }
{
    if is_plain(byte) {
        Some((Some(byte), Place::Inside))
    } else if byte == b'\\' {
        Some((None, Place::Escape))
    } else if byte == b'"' {
        Some((None, Place::Behind))
    } else {
        None
    }
}

// The byte that is denoted, if one is, and where the next one stands.
fn read_byte(place: Place, byte: u8) -> Option<(Option<u8>, Place)>
    ensures { result ≡ spec.read_byte place byte }
{
    match place {
        Place::Front if byte == b'"' => Some((None, Place::Inside)),
        Place::Inside => in_text(byte),
        Place::Escape => match escape_of(byte) {
            Some(denoted) => Some((Some(denoted), Place::Inside)),
            None => None,
        },
        _ => None,
    }
}

fn push_denoted(text: &mut Vec<u8>, denoted: Option<u8>) -> Result<(), Memory>
    ensures { OnOk result (text.new.items ≡ spec.with_byte text.old.items denoted) }
{
    match denoted {
        Some(byte) if text.push(byte).is_err() => Err(Memory),
        _ => Ok(()),
    }
}

fn ended(place: Place, list: Vec<u8>) -> Option<Bytes>
    ensures { result ≡ spec.ended place list.items }
{
    match place {
        Place::Behind => Some(Bytes { list }),
        _ => None,
    }
}

/// The bytes that a literal denotes; None where it is none that is carried.
pub fn text_of(alloc: Global, literal: &[u8]) -> Result<Option<Bytes>, Memory>
    ensures { IfOk result (λ found. found ≡ spec.quoted literal.now) }
{
    let mut text = Vec::new(alloc);
    let mut place = Place::Front;
    for byte in literal {
        let Some((denoted, next)) = read_byte(place, *byte) else {
            return Ok(None);
        };
        push_denoted(&mut text, denoted)?;
        place = next;
    }
    Ok(ended(place, text))
}
