// Signs.

ghost use Rattle.std.specs.Prelude.{◌≡◌};
ghost use Rattle.vala_lexer.specs.Signs as spec;

use crate::bytes::byte_at;
use crate::pieces::Found;
use crate::token::TokenKind;

fn sign_of_one(first: u8) -> Option<TokenKind>
    ensures { result ≡ spec.sign_of_one first }
{
    match first {
        b'{' => Some(TokenKind::OpenBrace),
        b'}' => Some(TokenKind::CloseBrace),
        b'(' => Some(TokenKind::OpenParen),
        b')' => Some(TokenKind::CloseParen),
        b'[' => Some(TokenKind::OpenBracket),
        b']' => Some(TokenKind::CloseBracket),
        b',' => Some(TokenKind::Comma),
        b';' => Some(TokenKind::Semicolon),
        b':' => Some(TokenKind::Colon),
        b'.' => Some(TokenKind::Dot),
        b'?' => Some(TokenKind::Question),
        b'=' => Some(TokenKind::Assign),
        b'<' => Some(TokenKind::Less),
        b'>' => Some(TokenKind::Greater),
        b'+' => Some(TokenKind::Plus),
        b'-' => Some(TokenKind::Minus),
        b'*' => Some(TokenKind::Star),
        b'/' => Some(TokenKind::Slash),
        b'%' => Some(TokenKind::Percent),
        b'&' => Some(TokenKind::Ampersand),
        b'|' => Some(TokenKind::Bar),
        b'^' => Some(TokenKind::Caret),
        b'!' => Some(TokenKind::Not),
        b'~' => Some(TokenKind::Tilde),
        _ => None,
    }
}

fn sign_with_equals(first: u8) -> Option<TokenKind>
    ensures { result ≡ spec.sign_with_equals first }
{
    match first {
        b'=' => Some(TokenKind::Equal),
        b'!' => Some(TokenKind::NotEqual),
        b'<' => Some(TokenKind::LessEqual),
        b'>' => Some(TokenKind::GreaterEqual),
        b'+' => Some(TokenKind::PlusAssign),
        b'-' => Some(TokenKind::MinusAssign),
        b'*' => Some(TokenKind::StarAssign),
        b'/' => Some(TokenKind::SlashAssign),
        b'%' => Some(TokenKind::PercentAssign),
        b'&' => Some(TokenKind::AndAssign),
        b'|' => Some(TokenKind::OrAssign),
        b'^' => Some(TokenKind::XorAssign),
        _ => None,
    }
}

fn doubled_sign(byte: u8) -> Option<TokenKind>
    ensures { result ≡ spec.doubled_sign byte }
{
    match byte {
        b'?' => Some(TokenKind::Coalesce),
        b'&' => Some(TokenKind::AndAnd),
        b'|' => Some(TokenKind::OrOr),
        b'<' => Some(TokenKind::ShiftLeft),
        b'>' => Some(TokenKind::ShiftRight),
        b'+' => Some(TokenKind::Increment),
        b'-' => Some(TokenKind::Decrement),
        _ => None,
    }
}

fn sign_of_two(first: u8, second: u8) -> Option<TokenKind>
    ensures { result ≡ spec.sign_of_two first second }
{
    if second == b'=' {
        sign_with_equals(first)
    } else if first == second {
        doubled_sign(first)
    } else if first == b'=' && second == b'>' {
        Some(TokenKind::Arrow)
    } else {
        None
    }
}

fn sign_of_three(first: u8, second: u8, third: u8) -> Option<TokenKind>
    ensures { result ≡ spec.sign_of_three first second third }
{
    if first == b'<' && second == b'<' && third == b'=' {
        Some(TokenKind::ShiftLeftAssign)
    } else if first == b'>' && second == b'>' && third == b'=' {
        Some(TokenKind::ShiftRightAssign)
    } else if first == b'.' && second == b'.' && third == b'.' {
        Some(TokenKind::Ellipsis)
    } else {
        None
    }
}

/// The longest sign in front of the bytes.
pub fn sign(bytes: &[u8]) -> Option<Found>
    ensures { result ≡ spec.sign bytes.now }
{
    let first = byte_at(bytes, 0);
    let second = byte_at(bytes, 1);
    if let Some(kind) = sign_of_three(first, second, byte_at(bytes, 2)) {
        Some(Found { kind, len: 3 })
    } else if let Some(kind) = sign_of_two(first, second) {
        Some(Found { kind, len: 2 })
    } else if let Some(kind) = sign_of_one(first) {
        Some(Found { kind, len: 1 })
    } else {
        None
    }
}
