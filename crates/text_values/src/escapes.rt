// Escapes: a backslash and what stands behind it.

ghost use Rattle.std.specs.Prelude.{◌≡◌, ◌<◌, IfSome};
ghost use Rattle.std.specs.Option.{option_map};
ghost use Rattle.vala_lexer.specs.Texts as lexer;
ghost use Rattle.vala_lexer.specs.declared.texts.Literal.TheVariants as Literal;
ghost use Rattle.text_values.specs.Escapes as spec;

use crate::bytes::{after, byte_at};

/// What a backslash and the bytes behind it denote.
#[derive(Clone, Copy)]
pub struct Escape {
    pub character: char,
    /// How many bytes stand behind the backslash.
    pub len: usize,
}

fn hex_digit(byte: u8) -> Option<u32>
    ensures value { result ≡ spec.hex_digit byte }
    ensures within { IfSome result (λ n. n < 16) }
{
    match byte {
        b'0'..=b'9' => Some(u32::from(byte - b'0')),
        b'A'..=b'F' => Some(u32::from(byte - b'A' + 10)),
        b'a'..=b'f' => Some(u32::from(byte - b'a' + 10)),
        _ => None,
    }
}

fn two_digits(bytes: &[u8]) -> Option<u32>
    ensures value { result ≡ lexer.hex_number 2 bytes.now }
    ensures within { IfSome result (λ n. n < 256) }
{
    let high = hex_digit(byte_at(bytes, 0))?;
    let low = hex_digit(byte_at(bytes, 1))?;
    Some(16 * high + low)
}

fn four_digits(bytes: &[u8]) -> Option<u32>
    ensures value { result ≡ lexer.hex_number 4 bytes.now }
    ensures within { IfSome result (λ n. n < 65536) }
{
    let high = two_digits(bytes)?;
    let low = two_digits(after(bytes, 2))?;
    Some(256 * high + low)
}

// The escape of a length, where its code is that of a character other than zero.
fn escape_of(code: u32, len: usize) -> Option<Escape>
    requires { code < 65536 }
    ensures { option_map spec.in_lexer result ≡ lexer.escape_if spec.is_character len code }
{
    match char::from_u32(code) {
        Some(character) if code > 0 => Some(Escape { character, len }),
        _ => None,
    }
}

fn byte_escape(bytes: &[u8]) -> Option<Escape>
    ensures { option_map spec.in_lexer result ≡ lexer.byte_escape bytes.now }
{
    match two_digits(bytes) {
        Some(code) if code <= 0x7f => escape_of(code, 3),
        _ => None,
    }
}

fn unicode_escape(bytes: &[u8]) -> Option<Escape>
    ensures { option_map spec.in_lexer result ≡ lexer.unicode_escape bytes.now }
{
    match four_digits(bytes) {
        Some(code) => escape_of(code, 5),
        None => None,
    }
}

fn simple_escape(byte: u8) -> Option<char>
    ensures { result ≡ lexer.simple_escape byte }
{
    match byte {
        b'"' => Some('"'),
        b'\'' => Some('\''),
        b'\\' => Some('\\'),
        b'b' => Some('\u{8}'),
        b'f' => Some('\u{c}'),
        b'n' => Some('\n'),
        b'r' => Some('\r'),
        b't' => Some('\t'),
        b'v' => Some('\u{b}'),
        _ => None,
    }
}

/// The escape whose backslash stands before the bytes.
pub fn read_escape(bytes: &[u8]) -> Option<Escape>
    ensures { option_map spec.in_lexer result ≡ lexer.escape Literal.Text bytes.now }
{
    match byte_at(bytes, 0) {
        b'x' => byte_escape(after(bytes, 1)),
        b'u' => unicode_escape(after(bytes, 1)),
        byte => match simple_escape(byte) {
            Some(character) => Some(Escape { character, len: 1 }),
            None => None,
        },
    }
}
