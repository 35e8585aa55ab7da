// Numbers.

ghost use Rattle.std.specs.Prelude.{◌≡◌, ◌≤◌, ◌<◌, ◌+◌, ◌^◌, length};
ghost use Rattle.vala_lexer.specs.Numbers as spec;

use crate::bytes::{Class, after, byte_at, front, is_in, run, value_of};
use crate::pieces::{Fault, Found};
use crate::token::{IntegerType, TokenKind};
use static_rules::Rule;

/// What stands behind the digits of a number.
#[derive(Clone, Copy)]
pub enum Suffix {
    Plain,
    U,
    L,
    Ul,
    Ll,
    Ull,
}

fn is_u(byte: u8) -> bool
    ensures { result ≡ spec.is_u byte }
{
    byte == b'U' || byte == b'u'
}

fn is_l(byte: u8) -> bool
    ensures { result ≡ spec.is_l byte }
{
    byte == b'L' || byte == b'l'
}

/// The longest suffix in front.
fn suffix_of(bytes: &[u8]) -> Suffix
    ensures { result ≡ spec.suffix_of bytes.now }
{
    let second_is_l = is_l(byte_at(bytes, 1));
    if is_u(byte_at(bytes, 0)) {
        if second_is_l {
            if is_l(byte_at(bytes, 2)) {
                Suffix::Ull
            } else {
                Suffix::Ul
            }
        } else {
            Suffix::U
        }
    } else if is_l(byte_at(bytes, 0)) {
        if second_is_l { Suffix::Ll } else { Suffix::L }
    } else {
        Suffix::Plain
    }
}

fn suffix_len(suffix: Suffix) -> usize
    ensures value { result ≡ spec.suffix_len suffix }
    ensures within { result ≤ 3 }
{
    match suffix {
        Suffix::Plain => 0,
        Suffix::U | Suffix::L => 1,
        Suffix::Ul | Suffix::Ll => 2,
        Suffix::Ull => 3,
    }
}

fn type_below(suffix: Suffix, value: u64) -> Option<IntegerType>
    ensures { result ≡ spec.integer_type suffix value }
{
    let is_signed = value <= 0x7fff_ffff_ffff_ffff;
    match suffix {
        Suffix::Plain if value <= 0x7fff_ffff => Some(IntegerType::Int),
        Suffix::Plain if is_signed => Some(IntegerType::Int64),
        Suffix::U if value <= 0xffff_ffff => Some(IntegerType::Uint),
        Suffix::U => Some(IntegerType::Uint64),
        Suffix::L if is_signed => Some(IntegerType::Long),
        Suffix::Ul => Some(IntegerType::Ulong),
        Suffix::Ll if is_signed => Some(IntegerType::Int64),
        Suffix::Ull => Some(IntegerType::Uint64),
        _ => None,
    }
}

// A number by the value of its digits, how many bytes they take, and what stands behind them.
fn integer(value: Option<u64>, len: usize, behind: &[u8]) -> Result<Found, Fault>
    requires { len < 2 ^ 32 }
    ensures { result ≡ spec.integer value len behind.now }
{
    let suffix = suffix_of(behind);
    let len = len + suffix_len(suffix);
    if let Some(value) = value
        && let Some(integer_type) = type_below(suffix, value)
    {
        return Ok(Found {
            kind: TokenKind::Integer(value, integer_type),
            len,
        });
    }
    Err(Fault {
        rule: Rule::L4,
        start: 0,
        len,
    })
}

fn hexadecimal(bytes: &[u8]) -> Result<Found, Fault>
    requires { length bytes.now < 2 ^ 32 }
    ensures { result ≡ spec.hexadecimal bytes.now }
{
    let behind = after(bytes, 2);
    let count = run(Class::HexDigit, behind);
    integer(
        value_of(16, front(behind, count)),
        count + 2,
        after(behind, count),
    )
}

fn decimal(bytes: &[u8]) -> Result<Found, Fault>
    requires { length bytes.now < 2 ^ 32 }
    ensures { result ≡ spec.decimal bytes.now }
{
    let count = run(Class::Digit, bytes);
    let behind = after(bytes, count);
    if byte_at(behind, 0) == b'.' && is_in(Class::Digit, byte_at(behind, 1)) {
        return Err(Fault {
            rule: Rule::U1,
            start: 0,
            len: count,
        });
    }
    if count > 1 && byte_at(bytes, 0) == b'0' {
        return integer(None, count, behind);
    }
    integer(value_of(10, front(bytes, count)), count, behind)
}

/// The number in front, which begins with a digit.
pub fn number(bytes: &[u8]) -> Result<Found, Fault>
    requires { length bytes.now < 2 ^ 32 }
    ensures { result ≡ spec.number bytes.now }
{
    let is_prefixed = byte_at(bytes, 0) == b'0' && byte_at(bytes, 1) == b'x';
    if is_prefixed && is_in(Class::HexDigit, byte_at(bytes, 2)) {
        hexadecimal(bytes)
    } else {
        decimal(bytes)
    }
}
