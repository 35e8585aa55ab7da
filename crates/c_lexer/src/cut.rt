// The token in front of bytes.

ghost use Rattle.std.specs.Prelude.{◌≡◌, ◌≤◌, ◌<◌, ◌+◌, ◌^◌, length};
ghost use Rattle.c_lexer.specs.Cut as spec;

use crate::bytes::{Class, begins_number, byte_at, front, is_in, run};
use crate::numbers::number;
use crate::pieces::Found;
use crate::signs::sign;
use crate::texts::{character, text};
use crate::words::word_kind;

fn word(bytes: &[u8]) -> Found
    ensures { result ≡ spec.word bytes.now }
{
    let len = run(Class::Word, bytes);
    Found {
        kind: word_kind(front(bytes, len)),
        len,
    }
}

/// The token in front; None where the bytes begin with none.
#[tactic(auto, unfolding(crate::specs::Cut::cut))]
pub fn cut(bytes: &[u8]) -> Option<Found>
    requires { length bytes.now < 2 ^ 32 }
    ensures { result ≡ spec.cut bytes.now }
{
    let first = byte_at(bytes, 0);
    if is_in(Class::Letter, first) {
        return Some(word(bytes));
    }
    if begins_number(bytes) {
        return number(bytes);
    }
    match first {
        b'"' => text(bytes),
        b'\'' => character(bytes),
        _ => sign(bytes),
    }
}
