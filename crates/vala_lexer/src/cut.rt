// The longest token in front of bytes.

ghost use Rattle.std.specs.Prelude.{◌≡◌, ◌≤◌, ◌<◌, ◌+◌, ◌^◌, length};
ghost use Rattle.vala_lexer.specs.Cut as spec;

use crate::bytes::{Class, after, byte_at, front, is_in, run};
use crate::numbers::number;
use crate::pieces::{Fault, Found};
use crate::signs::sign;
use crate::texts::{bad_byte, character, text};
use crate::token::TokenKind;
use crate::words::word_kind;
use static_rules::Rule;

/// The greatest length of an identifier.
const LONGEST: usize = 200;

fn word(bytes: &[u8]) -> Result<Found, Fault>
    ensures { result ≡ spec.word bytes.now }
{
    let len = run(Class::Word, bytes);
    if len > LONGEST {
        return Err(Fault {
            rule: Rule::M4,
            start: 0,
            len,
        });
    }
    Ok(Found {
        kind: word_kind(front(bytes, len)),
        len,
    })
}

fn left_out() -> Fault
    ensures { result ≡ spec.left_out }
{
    Fault {
        rule: Rule::U1,
        start: 0,
        len: 1,
    }
}

fn is_identifier(kind: TokenKind) -> bool
    ensures { result ≡ spec.is_identifier kind }
{
    matches!(kind, TokenKind::Identifier)
}

// What begins with an `@`: a keyword behind it is an identifier.
fn marked_word(bytes: &[u8]) -> Result<Found, Fault>
    requires { length bytes.now < 2 ^ 32 }
    ensures { result ≡ spec.marked_word bytes.now }
{
    let behind = after(bytes, 1);
    if byte_at(behind, 0) == b'"' {
        return Err(left_out());
    }
    let len = run(Class::Word, behind);
    if is_identifier(word_kind(front(behind, len))) {
        Err(bad_byte(0))
    } else {
        Ok(Found {
            kind: TokenKind::Identifier,
            len: len + 1,
        })
    }
}

// Whether nothing but white space stands behind the last line feed.
fn begins_line(front: &[u8]) -> bool
    ensures { result ≡ spec.begins_line front.now }
{
    let mut clear = true;
    for byte in front {
        clear = *byte == b'\n' || (clear && is_in(Class::Space, *byte));
    }
    clear
}

fn hash(front: &[u8]) -> Fault
    ensures { result ≡ spec.hash front.now }
{
    if begins_line(front) {
        left_out()
    } else {
        bad_byte(0)
    }
}

fn sign_or_bad(bytes: &[u8]) -> Result<Found, Fault>
    ensures { result ≡ spec.sign_or_bad bytes.now }
{
    match sign(bytes) {
        Some(found) => Ok(found),
        None => Err(bad_byte(0)),
    }
}

/// The token in front of the second bytes, behind the first.
#[tactic(auto, unfolding(crate::specs::Cut::cut))]
pub fn cut(front: &[u8], bytes: &[u8]) -> Result<Found, Fault>
    requires { length bytes.now < 2 ^ 32 }
    ensures { result ≡ spec.cut front.now bytes.now }
{
    let first = byte_at(bytes, 0);
    if is_in(Class::Letter, first) {
        return word(bytes);
    }
    if is_in(Class::Digit, first) {
        return number(bytes);
    }
    match first {
        b'"' => text(bytes),
        b'\'' => character(bytes),
        b'@' => marked_word(bytes),
        b'#' => Err(hash(front)),
        _ => sign_or_bad(bytes),
    }
}
