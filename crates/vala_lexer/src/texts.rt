// Texts and characters.

ghost use Rattle.std.specs.Prelude.{◌≡◌, ◌≤◌, ◌<◌, ◌+◌, ◌^◌, length, IfSome};
ghost use Rattle.std.specs.Str.Lossy.{utf8_valid_len};
ghost use Rattle.vala_lexer.specs.Texts as spec;
ghost use Rattle.vala_lexer.specs.Pieces as piece;

use crate::bytes::{
    Class, Ending, after, byte_at, front, place_of, run, starts_with_quotes, value_of,
};
use crate::pieces::{Fault, Found};
use crate::token::TokenKind;
use static_rules::Rule;
use std::str::from_utf8;

/// What an escape stands in.
#[derive(Clone, Copy)]
pub enum Literal {
    Text,
    Character,
}

/// What a backslash and the bytes behind it denote.
#[derive(Clone, Copy)]
pub struct Escape {
    /// The code of the character.
    pub code: u64,
    /// How many bytes stand behind the backslash.
    pub len: usize,
}

pub fn bad_byte(at: usize) -> Fault
    ensures { result ≡ piece.bad_byte at }
{
    Fault {
        rule: Rule::L1,
        start: at,
        len: 1,
    }
}

pub fn no_end() -> Fault
    ensures { result ≡ piece.no_end }
{
    Fault {
        rule: Rule::L2,
        start: 0,
        len: 1,
    }
}

fn bad_escape(at: usize) -> Fault
    ensures { result ≡ piece.bad_escape at }
{
    Fault {
        rule: Rule::L3,
        start: at,
        len: 1,
    }
}

// How many bytes stand before the quote that no backslash escapes, on one line.
fn inside(quote: u8, bytes: &[u8]) -> Option<usize>
    ensures count { result ≡ spec.inside quote bytes.now }
    ensures within { IfSome result (λ n. n < length bytes.now) }
{
    let mut escaped = false;
    for (i, byte) in bytes.iter().enumerate() {
        if *byte == b'\n' {
            return None;
        }
        if *byte == quote && !escaped {
            return Some(i);
        }
        escaped = *byte == b'\\' && !escaped;
    }
    None
}

fn simple_escape(byte: u8) -> Option<u64>
    ensures { result ≡ spec.simple_escape byte }
{
    match byte {
        b'"' => Some(34),
        b'\'' => Some(39),
        b'\\' => Some(92),
        b'b' => Some(8),
        b'f' => Some(12),
        b'n' => Some(10),
        b'r' => Some(13),
        b't' => Some(9),
        b'v' => Some(11),
        _ => None,
    }
}

fn hex_number(count: usize, bytes: &[u8]) -> Option<u64>
    ensures { result ≡ spec.hex_number count bytes.now }
{
    if count <= run(Class::HexDigit, bytes) {
        value_of(16, front(bytes, count))
    } else {
        None
    }
}

fn byte_escape(bytes: &[u8]) -> Option<Escape>
    ensures { result ≡ spec.byte_escape bytes.now }
{
    match hex_number(2, bytes) {
        Some(code) if 1 <= code && code <= 0x7f => Some(Escape { code, len: 3 }),
        _ => None,
    }
}

fn unicode_escape(bytes: &[u8]) -> Option<Escape>
    ensures { result ≡ spec.unicode_escape bytes.now }
{
    match hex_number(4, bytes) {
        Some(code) if 1 <= code && (code < 0xd800 || 0xe000 <= code) => Some(Escape {
            code,
            len: 5,
        }),
        _ => None,
    }
}

// The escape whose backslash stands before the bytes.
fn read_escape(literal: Literal, bytes: &[u8]) -> Option<Escape>
    ensures { result ≡ spec.escape literal bytes.now }
{
    match (literal, byte_at(bytes, 0)) {
        (_, b'x') => byte_escape(after(bytes, 1)),
        (Literal::Text, b'u') => unicode_escape(after(bytes, 1)),
        (Literal::Character, b'0') => Some(Escape { code: 0, len: 1 }),
        (_, byte) => match simple_escape(byte) {
            Some(code) => Some(Escape { code, len: 1 }),
            None => None,
        },
    }
}

fn is_escape(bytes: &[u8]) -> bool
    ensures { result ≡ spec.is_escape bytes.now }
{
    read_escape(Literal::Text, bytes).is_some()
}

// How many bytes stand before the first backslash that begins no escape.
fn sound_escapes(bytes: &[u8]) -> usize
    ensures { result ≡ spec.sound_escapes bytes.now }
{
    let mut escaped = false;
    for (i, byte) in bytes.iter().enumerate() {
        let begins = *byte == b'\\' && !escaped;
        if begins && !is_escape(after(bytes, i + 1)) {
            return i;
        }
        escaped = begins;
    }
    bytes.len()
}

fn valid_len(bytes: &[u8]) -> usize
    ensures { result ≡ utf8_valid_len bytes.now }
{
    match from_utf8(bytes) {
        Ok(_) => bytes.len(),
        Err(fault) => fault.valid_up_to(),
    }
}

// How many bytes stand before the first that is zero or ends what is UTF-8.
fn sound_bytes(bytes: &[u8]) -> usize
    ensures { result ≡ spec.sound_bytes bytes.now }
{
    let before_zero = run(Class::NotZero, bytes);
    let valid = valid_len(bytes);
    if before_zero < valid {
        before_zero
    } else {
        valid
    }
}

// A text of quotes of a length around its inside, by how far its bytes and its escapes are sound.
fn checked(quotes: usize, len: usize, bytes: usize, escapes: usize) -> Result<Found, Fault>
    requires small { len < 2 ^ 32 }
    requires short { quotes ≤ 3 }
    ensures { result ≡ spec.checked quotes len bytes escapes }
{
    if bytes < len && bytes <= escapes {
        Err(bad_byte(quotes + bytes))
    } else if escapes < len {
        Err(bad_escape(quotes + escapes))
    } else {
        Ok(Found {
            kind: TokenKind::Text,
            len: quotes + len + quotes,
        })
    }
}

fn plain_text(bytes: &[u8]) -> Result<Found, Fault>
    requires { length bytes.now < 2 ^ 32 }
    ensures { result ≡ spec.plain_text bytes.now }
{
    match inside(b'"', bytes) {
        Some(len) => {
            let inside = front(bytes, len);
            checked(1, len, sound_bytes(inside), sound_escapes(inside))
        }
        None => Err(no_end()),
    }
}

fn verbatim_text(bytes: &[u8]) -> Result<Found, Fault>
    requires { length bytes.now < 2 ^ 32 }
    ensures { result ≡ spec.verbatim_text bytes.now }
{
    match place_of(Ending::Quotes, bytes) {
        Some(len) => checked(3, len, sound_bytes(front(bytes, len)), len),
        None => Err(no_end()),
    }
}

/// The text in front, which begins with a `"`.
pub fn text(bytes: &[u8]) -> Result<Found, Fault>
    requires { length bytes.now < 2 ^ 32 }
    ensures { result ≡ spec.text bytes.now }
{
    if starts_with_quotes(bytes) {
        verbatim_text(after(bytes, 3))
    } else {
        plain_text(after(bytes, 1))
    }
}

fn character_of(code: u64, len: usize) -> Result<Found, Fault>
    requires small { code < 256 }
    requires short { len < 2 ^ 32 }
    ensures { result ≡ spec.character_of code len }
{
    Ok(Found {
        kind: TokenKind::Character(code as u8),
        len: len + 2,
    })
}

// A character by what stands between its quotes.
fn character_inside(inside: &[u8]) -> Result<Found, Fault>
    requires { length inside.now < 2 ^ 32 }
    ensures { result ≡ spec.character_inside inside.now }
{
    let byte = byte_at(inside, 0);
    if inside.is_empty() {
        return Err(no_end());
    }
    if byte == 0 || byte >= 0x80 {
        return Err(bad_byte(1));
    }
    if byte != b'\\' {
        return if inside.len() == 1 {
            character_of(u64::from(byte), 1)
        } else {
            Err(no_end())
        };
    }
    match read_escape(Literal::Character, after(inside, 1)) {
        Some(found) if inside.len() == found.len + 1 => character_of(found.code, found.len + 1),
        Some(_) => Err(no_end()),
        None => Err(bad_escape(1)),
    }
}

/// The character in front, which begins with a `'`.
pub fn character(bytes: &[u8]) -> Result<Found, Fault>
    requires { length bytes.now < 2 ^ 32 }
    ensures { result ≡ spec.character bytes.now }
{
    let bytes = after(bytes, 1);
    match inside(b'\'', bytes) {
        Some(len) => character_inside(front(bytes, len)),
        None => Err(no_end()),
    }
}
