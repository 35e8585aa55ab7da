// Where white space is needed between two tokens.

ghost use Rattle.std.specs.Prelude.{◌≡◌};
ghost use Rattle.c_lexer.specs.Apart as spec;

use crate::bytes::{Class, begins_number, byte_at, is_in};
use crate::signs::{sign_of_three, sign_of_two};

// Whether a longer sign, a number or a comment begins with a sign of one byte and the byte behind it.
fn joins(sign: u8, next: u8) -> bool
    ensures { result ≡ spec.joins sign next }
{
    sign_of_two(sign, next).is_some()
        || (sign == b'.' && (next == b'.' || is_in(Class::Digit, next)))
        || (sign == b'/' && (next == b'/' || next == b'*'))
}

fn sign_goes_on(sign: &[u8], next: u8) -> bool
    ensures { result ≡ spec.sign_goes_on sign.now next }
{
    let first = byte_at(sign, 0);
    match sign.len() {
        1 => joins(first, next),
        2 => sign_of_three(first, byte_at(sign, 1), next).is_some(),
        _ => false,
    }
}

/// Whether white space is needed between a token and the byte behind it.
pub fn needs_space(token: &[u8], next: u8) -> bool
    ensures { result ≡ spec.needs_space token.now next }
{
    let first = byte_at(token, 0);
    if is_in(Class::Letter, first) {
        return is_in(Class::Word, next) || next == b'"' || next == b'\'';
    }
    if begins_number(token) {
        return is_in(Class::Number, next);
    }
    if first == b'"' || first == b'\'' {
        return false;
    }
    sign_goes_on(token, next)
}
