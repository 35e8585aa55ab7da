// Classes of bytes, and how far they go.

ghost use Rattle.std.specs.Prelude.{◌≡◌, ◌≤◌, ◌<◌, ◌+◌, ◌^◌, length, take, drop, slice_index, IfSome};
ghost use Rattle.c_lexer.specs.Bytes as spec;

/// A class of bytes.
#[derive(Clone, Copy)]
pub enum Class {
    Space,
    Letter,
    Digit,
    Word,
    Number,
    HexDigit,
    NotLineFeed,
}

/// The byte at a place, or 0 past the end.
pub fn byte_at(bytes: &[u8], at: usize) -> u8
    ensures { result ≡ slice_index bytes.now at }
{
    if at < bytes.len() { bytes[at] } else { 0 }
}

/// The bytes in front of a place.
pub fn front(bytes: &[u8], at: usize) -> &[u8]
    ensures { result.now ≡ take at bytes.now }
{
    if at < bytes.len() {
        bytes.split_at(at).0
    } else {
        bytes
    }
}

/// The bytes from a place on.
pub fn after(bytes: &[u8], at: usize) -> &[u8]
    ensures { result.now ≡ drop at bytes.now }
{
    if at < bytes.len() {
        bytes.split_at(at).1
    } else {
        bytes.split_at(bytes.len()).1
    }
}

/// Whether a byte is in a class.
pub fn is_in(class: Class, byte: u8) -> bool
    ensures { result ≡ spec.is_in class byte }
{
    match class {
        Class::Space => matches!(byte, b' ' | b'\t' | b'\n' | 12 | b'\r'),
        Class::Letter => matches!(byte, b'A'..=b'Z' | b'_' | b'a'..=b'z'),
        Class::Digit => matches!(byte, b'0'..=b'9'),
        Class::Word => matches!(byte, b'0'..=b'9' | b'A'..=b'Z' | b'_' | b'a'..=b'z'),
        Class::Number => matches!(byte, b'.' | b'0'..=b'9' | b'A'..=b'Z' | b'_' | b'a'..=b'z'),
        Class::HexDigit => matches!(byte, b'0'..=b'9' | b'A'..=b'F' | b'a'..=b'f'),
        Class::NotLineFeed => byte != b'\n',
    }
}

/// Whether a byte is one of `0` to `7`.
pub fn is_octal_digit(byte: u8) -> bool
    ensures { result ≡ spec.is_octal_digit byte }
{
    matches!(byte, b'0'..=b'7')
}

/// How many bytes in front are in a class.
pub fn run(class: Class, bytes: &[u8]) -> usize
    ensures count { result ≡ spec.run class bytes.now }
    ensures within { result ≤ length bytes.now }
{
    for (i, byte) in bytes.iter().enumerate() {
        if !is_in(class, *byte) {
            return i;
        }
    }
    bytes.len()
}

/// Whether a digit, or `.` and a digit, stands in front.
pub fn begins_number(bytes: &[u8]) -> bool
    ensures { result ≡ spec.begins_number bytes.now }
{
    let first = byte_at(bytes, 0);
    is_in(Class::Digit, first) || (first == b'.' && is_in(Class::Digit, byte_at(bytes, 1)))
}

fn ends_comment(bytes: &[u8]) -> bool
    ensures { result ≡ spec.ends_comment bytes.now }
{
    byte_at(bytes, 0) == b'*' && byte_at(bytes, 1) == b'/'
}

/// How many bytes stand before the first `*/`.
pub fn comment_end(bytes: &[u8]) -> Option<usize>
    ensures place { result ≡ spec.comment_end bytes.now }
    ensures within { IfSome result (λ at. at < length bytes.now) }
{
    for (i, _) in bytes.iter().enumerate() {
        if ends_comment(after(bytes, i)) {
            return Some(i);
        }
    }
    None
}

fn digit_value(byte: u8) -> u8
    ensures value { result ≡ spec.digit_value byte }
    ensures within { result < 16 }
{
    match byte {
        b'0'..=b'9' => byte - b'0',
        b'A'..=b'F' => byte - b'A' + 10,
        b'a'..=b'f' => byte - b'a' + 10,
        _ => 0,
    }
}

/// The value of digits, where 64 bits hold it.
pub fn value_of(base: u64, digits: &[u8]) -> Option<u64>
    requires { 1 ≤ base }
    ensures { result ≡ spec.in_64_bits (spec.value base digits.now) }
{
    let mut value = 0;
    for digit in digits {
        let Some(longer) = with_digit(base, value, *digit) else {
            return None;
        };
        value = longer;
    }
    Some(value)
}

fn with_digit(base: u64, value: u64, digit: u8) -> Option<u64>
    ensures { result ≡ spec.in_64_bits (spec.with_digit base value digit) }
{
    let shifted = value.checked_mul(base)?;
    shifted.checked_add(u64::from(digit_value(digit)))
}
