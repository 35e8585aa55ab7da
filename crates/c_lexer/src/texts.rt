// Texts and characters.

ghost use Rattle.std.specs.Prelude.{◌≡◌, ◌≤◌, ◌<◌, ◌+◌, ◌++◌, ◌∷◌, ◌^◌, [], length, IfSome, IfOk, OnOk};
ghost use Rattle.c_lexer.specs.Texts as spec;

use crate::bytes::{after, byte_at, front, is_octal_digit};
use crate::pieces::Found;
use crate::token::TokenKind;
use std::alloc::Global;
use vg_base::Memory;

/// What a backslash and the bytes behind it denote.
#[derive(Clone, Copy)]
pub struct Escape {
    /// The byte.
    pub byte: u8,
    /// How many bytes stand behind the backslash.
    pub len: usize,
}

fn simple_escape(byte: u8) -> Option<u8>
    ensures { result ≡ spec.simple_escape byte }
{
    match byte {
        b'"' => Some(34),
        b'\'' => Some(39),
        b'\\' => Some(92),
        b'a' => Some(7),
        b'b' => Some(8),
        b'f' => Some(12),
        b'n' => Some(10),
        b'r' => Some(13),
        b't' => Some(9),
        b'v' => Some(11),
        _ => None,
    }
}

fn octal_of(value: u32) -> Option<Escape>
    ensures { result ≡ spec.octal_of value }
{
    if value < 256 {
        Some(Escape {
            byte: value as u8,
            len: 3,
        })
    } else {
        None
    }
}

fn octal_escape(first: u8, second: u8, third: u8) -> Option<Escape>
    ensures { result ≡ spec.octal_escape first second third }
{
    if is_octal_digit(first) && is_octal_digit(second) && is_octal_digit(third) {
        octal_of(
            u32::from(first - b'0') * 64 + u32::from(second - b'0') * 8 + u32::from(third - b'0'),
        )
    } else {
        None
    }
}

// The escape whose backslash stands before the bytes.
fn read_escape(bytes: &[u8]) -> Option<Escape>
    ensures { result ≡ spec.escape bytes.now }
{
    let first = byte_at(bytes, 0);
    if is_octal_digit(first) {
        return octal_escape(first, byte_at(bytes, 1), byte_at(bytes, 2));
    }
    match simple_escape(first) {
        Some(byte) => Some(Escape { byte, len: 1 }),
        None => None,
    }
}

// How many bytes stand before the quote that ends a text or character.
fn quoted(quote: u8, bytes: &[u8]) -> Option<usize>
    ensures count { result ≡ spec.quoted quote bytes.now }
    ensures within { IfSome result (λ n. n < length bytes.now) }
{
    let mut escaped = 0;
    for (i, byte) in bytes.iter().enumerate() {
        if escaped > 0 {
            escaped -= 1;
        } else if *byte == quote {
            return Some(i);
        } else if *byte == b'\n' {
            return None;
        } else if *byte == b'\\' {
            let Some(escape) = read_escape(after(bytes, i + 1)) else {
                return None;
            };
            escaped = escape.len;
        }
    }
    None
}

/// The text in front, which begins with a `"`.
pub fn text(bytes: &[u8]) -> Option<Found>
    requires { length bytes.now < 2 ^ 32 }
    ensures { result ≡ spec.text bytes.now }
{
    match quoted(b'"', after(bytes, 1)) {
        Some(len) => Some(Found {
            kind: TokenKind::Text,
            len: len + 2,
        }),
        None => None,
    }
}

// The byte of a character by what stands between its quotes.
fn character_byte(inside: &[u8]) -> Option<u8>
    ensures { result ≡ spec.character_byte inside.now }
{
    match byte_at(inside, 0) {
        0 => None,
        b'\\' => {
            let escape = read_escape(after(inside, 1))?;
            if inside.len() == escape.len + 1 {
                Some(escape.byte)
            } else {
                None
            }
        }
        byte => { if inside.len() == 1 { Some(byte) } else { None } }
    }
}

/// The character in front, which begins with a `'`.
pub fn character(bytes: &[u8]) -> Option<Found>
    requires { length bytes.now < 2 ^ 32 }
    ensures { result ≡ spec.character bytes.now }
{
    let behind = after(bytes, 1);
    let len = quoted(b'\'', behind)?;
    let byte = character_byte(front(behind, len))?;
    Some(Found {
        kind: TokenKind::Character(byte),
        len: len + 2,
    })
}

fn push(out: &mut Vec<u8>, byte: u8) -> Result<(), Memory>
    ensures { OnOk result (out.new.items ≡ out.old.items ++ byte ∷ []) }
{
    if out.push(byte).is_err() {
        Err(Memory)
    } else {
        Ok(())
    }
}

// What stands between the quotes of a text, with each escape its byte.
fn denoted(alloc: Global, inside: &[u8]) -> Result<Vec<u8>, Memory>
    ensures { IfOk result (λ bytes. bytes.items ≡ spec.denoted inside.now) }
{
    let mut out = Vec::new(alloc);
    let mut escaped = 0;
    for (i, byte) in inside.iter().enumerate() {
        if escaped > 0 {
            escaped -= 1;
        } else if *byte != b'\\' {
            push(&mut out, *byte)?;
        } else if let Some(escape) = read_escape(after(inside, i + 1)) {
            push(&mut out, escape.byte)?;
            escaped = escape.len;
        }
    }
    Ok(out)
}

/// The bytes that a text denotes, by how it is written.
pub fn text_value(alloc: Global, text: &[u8]) -> Result<Vec<u8>, Memory>
    ensures { IfOk result (λ bytes. bytes.items ≡ spec.text_value text.now) }
{
    let len = text.len();
    let inside = if len < 2 { 0 } else { len - 2 };
    denoted(alloc, front(after(text, 1), inside))
}
