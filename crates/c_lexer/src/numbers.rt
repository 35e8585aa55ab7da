// Numbers.

ghost use Rattle.std.specs.Prelude.{◌≡◌, ◌≤◌, ◌<◌, ◌+◌, ◌^◌, length};
ghost use Rattle.c_lexer.specs.Numbers as spec;

use crate::bytes::{Class, after, byte_at, front, is_in, run, value_of};
use crate::pieces::Found;
use crate::token::{NumberType, TokenKind};

/// What stands behind the digits of a number.
#[derive(Clone, Copy)]
pub enum Suffix {
    Plain,
    U,
    L,
    Ul,
}

fn suffix_of(bytes: &[u8]) -> Option<Suffix>
    ensures { result ≡ spec.suffix_of bytes.now }
{
    if bytes == b"".as_slice() {
        Some(Suffix::Plain)
    } else if bytes == b"U".as_slice() {
        Some(Suffix::U)
    } else if bytes == b"L".as_slice() {
        Some(Suffix::L)
    } else if bytes == b"UL".as_slice() {
        Some(Suffix::Ul)
    } else {
        None
    }
}

/// The first type with the suffix that holds the value.
fn number_type(suffix: Suffix, value: u64) -> Option<NumberType>
    ensures { result ≡ spec.number_type suffix value }
{
    let is_signed = value <= 0x7fff_ffff_ffff_ffff;
    match suffix {
        Suffix::Plain if value <= 0x7fff_ffff => Some(NumberType::Gint),
        Suffix::Plain | Suffix::L if is_signed => Some(NumberType::Glong),
        Suffix::U if value <= 0xffff_ffff => Some(NumberType::Guint),
        Suffix::U | Suffix::Ul => Some(NumberType::Gulong),
        _ => None,
    }
}

fn of_parts(value: Option<u64>, suffix: Option<Suffix>) -> Option<TokenKind>
    ensures { result ≡ spec.of_parts value suffix }
{
    let value = value?;
    let number_type = number_type(suffix?, value)?;
    Some(TokenKind::Number(value, number_type))
}

// The number of some digits in front of its suffix.
fn of_digits(base: u64, count: usize, bytes: &[u8]) -> Option<TokenKind>
    requires { 1 ≤ base }
    ensures { result ≡ spec.of_digits base count bytes.now }
{
    if count == 0 {
        return None;
    }
    of_parts(
        value_of(base, front(bytes, count)),
        suffix_of(after(bytes, count)),
    )
}

// The number that the bytes are.
fn number_of(word: &[u8]) -> Option<TokenKind>
    ensures { result ≡ spec.number_of word.now }
{
    let begins_with_zero = byte_at(word, 0) == b'0';
    if begins_with_zero && byte_at(word, 1) == b'x' {
        let digits = after(word, 2);
        return of_digits(16, run(Class::HexDigit, digits), digits);
    }
    if begins_with_zero && is_in(Class::Digit, byte_at(word, 1)) {
        return None;
    }
    of_digits(10, run(Class::Digit, word), word)
}

/// The number in front, which begins with a digit, or with `.` and a digit.
pub fn number(bytes: &[u8]) -> Option<Found>
    ensures { result ≡ spec.number bytes.now }
{
    let len = run(Class::Number, bytes);
    let kind = number_of(front(bytes, len))?;
    Some(Found { kind, len })
}
