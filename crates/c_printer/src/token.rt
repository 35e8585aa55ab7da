// Puts a token so that it reads back as itself.

ghost use Rattle.std.specs.Prelude.{◌≡◌, ◌++◌, OnOk};
ghost use Rattle.c_printer.specs.Put as spec;

use crate::piece::Piece;
use crate::spelling::{constant_text, keyword_text, sign_text};
use c_lexer::NumberType;
use std::alloc::Global;
use vg_base::Memory;

/// Puts bytes.
pub fn append(out: &mut Vec<u8>, bytes: &[u8]) -> Result<(), Memory>
    ensures { OnOk result (out.new.items ≡ out.old.items ++ bytes.now) }
{
    if out.extend_from_slice(bytes).is_err() {
        Err(Memory)
    } else {
        Ok(())
    }
}

fn letter_of(byte: u8) -> Option<u8>
    ensures { result ≡ spec.letter_of byte }
{
    match byte {
        7 => Some(b'a'),
        8 => Some(b'b'),
        9 => Some(b't'),
        10 => Some(b'n'),
        11 => Some(b'v'),
        12 => Some(b'f'),
        13 => Some(b'r'),
        _ => None,
    }
}

fn is_plain(previous: u8, byte: u8) -> bool
    ensures { result ≡ spec.is_plain previous byte }
{
    b' ' <= byte && byte <= b'~' && !(byte == b'?' && previous == b'?')
}

// A byte between quotes, behind another byte.
fn put_byte(out: &mut Vec<u8>, quote: u8, previous: u8, byte: u8) -> Result<(), Memory>
    ensures { OnOk result (out.new.items ≡ out.old.items ++ spec.spelled_byte quote previous byte) }
{
    if byte == quote || byte == b'\\' {
        return append(out, &[b'\\', byte]);
    }
    if let Some(letter) = letter_of(byte) {
        return append(out, &[b'\\', letter]);
    }
    if is_plain(previous, byte) {
        return append(out, &[byte]);
    }
    let (first, second, third) = (byte / 64, byte / 8 % 8, byte % 8);
    append(out, &[b'\\', b'0' + first, b'0' + second, b'0' + third])
}

fn put_bytes(out: &mut Vec<u8>, quote: u8, bytes: &[u8]) -> Result<(), Memory>
    ensures { OnOk result (out.new.items ≡ out.old.items ++ spec.spelled_bytes quote 0 bytes.now) }
{
    let mut previous = 0;
    for byte in bytes {
        put_byte(out, quote, previous, *byte)?;
        previous = *byte;
    }
    Ok(())
}

fn put_text(out: &mut Vec<u8>, bytes: &[u8]) -> Result<(), Memory>
    ensures { OnOk result (out.new.items ≡ out.old.items ++ spec.spelled_text bytes.now) }
{
    append(out, b"\"".as_slice())?;
    put_bytes(out, b'"', bytes)?;
    append(out, b"\"".as_slice())
}

fn put_character(out: &mut Vec<u8>, byte: u8) -> Result<(), Memory>
    ensures { OnOk result (out.new.items ≡ out.old.items ++ spec.spelled_character byte) }
{
    append(out, b"'".as_slice())?;
    put_byte(out, b'\'', 0, byte)?;
    append(out, b"'".as_slice())
}

fn suffix_text(number_type: NumberType) -> &'static [u8]
    ensures { result.now ≡ spec.suffix_spelling number_type }
{
    match number_type {
        NumberType::Gint => b"".as_slice(),
        NumberType::Guint => b"U".as_slice(),
        NumberType::Glong => b"L".as_slice(),
        NumberType::Gulong => b"UL".as_slice(),
    }
}

fn put_number(
    alloc: Global,
    out: &mut Vec<u8>,
    value: u64,
    number_type: NumberType,
) -> Result<(), Memory>
    ensures { OnOk result (out.new.items ≡ out.old.items ++ spec.spelled_number value number_type) }
{
    let Ok(digits) = format!(in alloc; "{value}") else {
        return Err(Memory);
    };
    append(out, digits.as_bytes())?;
    append(out, suffix_text(number_type))
}

/// Puts a token.
pub fn put_token(alloc: Global, out: &mut Vec<u8>, piece: Piece<'_>) -> Result<(), Memory>
    ensures { OnOk result (out.new.items ≡ out.old.items ++ spec.spelled piece.entry) }
{
    match piece {
        Piece::Name(name) => append(out, name),
        Piece::Keyword(word) => append(out, keyword_text(word)),
        Piece::Constant(name) => append(out, constant_text(name)),
        Piece::Number(value, number_type) => put_number(alloc, out, value, number_type),
        Piece::Text(bytes) => put_text(out, bytes),
        Piece::Character(byte) => put_character(out, byte),
        Piece::Sign(sign) => append(out, sign_text(sign)),
    }
}
