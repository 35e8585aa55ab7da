// Signs.

ghost use Rattle.std.specs.Prelude.{◌≡◌, Some, None};
ghost use Rattle.c_lexer.specs.Signs as spec;

use crate::bytes::byte_at;
use crate::pieces::Found;
use crate::token::{Sign, TokenKind};

fn sign_of_one(first: u8) -> Option<Sign>
    ensures { result ≡ spec.sign_of_one first }
{
    match first {
        b'{' => Some(Sign::OpenBrace),
        b'}' => Some(Sign::CloseBrace),
        b'(' => Some(Sign::OpenParen),
        b')' => Some(Sign::CloseParen),
        b'[' => Some(Sign::OpenBracket),
        b']' => Some(Sign::CloseBracket),
        b',' => Some(Sign::Comma),
        b';' => Some(Sign::Semicolon),
        b':' => Some(Sign::Colon),
        b'.' => Some(Sign::Dot),
        b'?' => Some(Sign::Question),
        b'=' => Some(Sign::Assign),
        b'<' => Some(Sign::Less),
        b'>' => Some(Sign::Greater),
        b'+' => Some(Sign::Plus),
        b'-' => Some(Sign::Minus),
        b'*' => Some(Sign::Star),
        b'/' => Some(Sign::Slash),
        b'%' => Some(Sign::Percent),
        b'&' => Some(Sign::Ampersand),
        b'|' => Some(Sign::Bar),
        b'^' => Some(Sign::Caret),
        b'!' => Some(Sign::Not),
        b'~' => Some(Sign::Tilde),
        b'#' => Some(Sign::Hash),
        _ => None,
    }
}

fn sign_with_equals(first: u8) -> Option<Sign>
    ensures { result ≡ spec.sign_with_equals first }
{
    match first {
        b'=' => Some(Sign::Equal),
        b'!' => Some(Sign::NotEqual),
        b'<' => Some(Sign::LessEqual),
        b'>' => Some(Sign::GreaterEqual),
        b'+' => Some(Sign::PlusAssign),
        b'-' => Some(Sign::MinusAssign),
        b'*' => Some(Sign::StarAssign),
        b'/' => Some(Sign::SlashAssign),
        b'%' => Some(Sign::PercentAssign),
        b'&' => Some(Sign::AndAssign),
        b'|' => Some(Sign::OrAssign),
        b'^' => Some(Sign::XorAssign),
        _ => None,
    }
}

fn doubled_sign(byte: u8) -> Option<Sign>
    ensures { result ≡ spec.doubled_sign byte }
{
    match byte {
        b'&' => Some(Sign::AndAnd),
        b'|' => Some(Sign::OrOr),
        b'<' => Some(Sign::ShiftLeft),
        b'>' => Some(Sign::ShiftRight),
        b'+' => Some(Sign::Increment),
        b'-' => Some(Sign::Decrement),
        b'#' => Some(Sign::Paste),
        _ => None,
    }
}

/// The sign that two bytes are.
pub fn sign_of_two(first: u8, second: u8) -> Option<Sign>
    ensures { result ≡ spec.sign_of_two first second }
{
    if second == b'=' {
        sign_with_equals(first)
    } else if first == second {
        doubled_sign(first)
    } else if first == b'-' && second == b'>' {
        Some(Sign::Arrow)
    } else {
        None
    }
}

/// The sign that three bytes are.
pub fn sign_of_three(first: u8, second: u8, third: u8) -> Option<Sign>
    ensures { result ≡ spec.sign_of_three first second third }
{
    if first == b'<' && second == b'<' && third == b'=' {
        Some(Sign::ShiftLeftAssign)
    } else if first == b'>' && second == b'>' && third == b'=' {
        Some(Sign::ShiftRightAssign)
    } else if first == b'.' && second == b'.' && third == b'.' {
        Some(Sign::Ellipsis)
    } else {
        None
    }
}

fn found(sign: Sign, len: usize) -> Option<Found>
    ensures { result ≡ spec.or_shorter (Some sign) len None }
{
    Some(Found {
        kind: TokenKind::Sign(sign),
        len,
    })
}

/// The longest sign in front of the bytes.
pub fn sign(bytes: &[u8]) -> Option<Found>
    ensures { result ≡ spec.sign bytes.now }
{
    let first = byte_at(bytes, 0);
    let second = byte_at(bytes, 1);
    if let Some(sign) = sign_of_three(first, second, byte_at(bytes, 2)) {
        found(sign, 3)
    } else if let Some(sign) = sign_of_two(first, second) {
        found(sign, 2)
    } else if let Some(sign) = sign_of_one(first) {
        found(sign, 1)
    } else {
        None
    }
}
