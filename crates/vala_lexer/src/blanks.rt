// White space and comments.

ghost use Rattle.std.specs.Prelude.{◌≡◌, ◌≤◌, ◌<◌, ◌+◌, ◌^◌, length, IfOk};
ghost use Rattle.vala_lexer.specs.Blanks as spec;

use crate::bytes::{Class, Ending, after, byte_at, front, is_in, place_of, run};
use crate::pieces::Fault;
use crate::texts::{bad_byte, no_end};

// A comment of a length: no byte of it may be zero.
fn comment(len: usize, bytes: &[u8]) -> Result<usize, Fault>
    ensures { result ≡ spec.comment len bytes.now }
{
    let before_zero = run(Class::NotZero, front(bytes, len));
    if before_zero < len {
        Err(bad_byte(before_zero))
    } else {
        Ok(len)
    }
}

fn block_comment(bytes: &[u8]) -> Result<usize, Fault>
    requires { length bytes.now < 2 ^ 32 }
    ensures { result ≡ spec.block_comment bytes.now }
{
    match place_of(Ending::Comment, after(bytes, 2)) {
        Some(len) => comment(len + 4, bytes),
        None => Err(no_end()),
    }
}

// How many bytes the white space, or the comment, in front takes; 0 where there is none.
fn blank(bytes: &[u8]) -> Result<usize, Fault>
    requires { length bytes.now < 2 ^ 32 }
    ensures { result ≡ spec.blank bytes.now }
{
    let first = byte_at(bytes, 0);
    if is_in(Class::Space, first) {
        return Ok(run(Class::Space, bytes));
    }
    match (first, byte_at(bytes, 1)) {
        (b'/', b'/') => comment(run(Class::NotLineFeed, bytes), bytes),
        (b'/', b'*') => block_comment(bytes),
        _ => Ok(0),
    }
}

/// How many bytes of white space and comments stand in front.
pub fn blanks(bytes: &[u8]) -> Result<usize, Fault>
    requires { length bytes.now < 2 ^ 32 }
    ensures { result ≡ spec.blanks bytes.now }
{
    let mut at = 0;
    loop {
        match blank(after(bytes, at)) {
            Ok(0) => return Ok(at),
            Ok(len) => at += len,
            Err(fault) => {
                return Err(Fault {
                    start: at + fault.start,
                    ..fault
                });
            }
        }
    }
}
