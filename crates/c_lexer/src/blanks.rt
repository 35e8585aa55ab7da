// White space and comments.

ghost use Rattle.std.specs.Prelude.{◌≡◌, ◌≤◌, ◌<◌, ◌+◌, ◌^◌, length};
ghost use Rattle.c_lexer.specs.Blanks as spec;

use crate::bytes::{Class, after, byte_at, comment_end, front, is_in, run};
use crate::pieces::Gap;

fn white_space(bytes: &[u8]) -> Gap
    ensures { result ≡ spec.white_space bytes.now }
{
    let len = run(Class::Space, bytes);
    Gap {
        len,
        breaks_line: run(Class::NotLineFeed, front(bytes, len)) < len,
    }
}

fn line_comment(bytes: &[u8]) -> Gap
    ensures { result ≡ spec.line_comment bytes.now }
{
    Gap {
        len: run(Class::NotLineFeed, bytes),
        breaks_line: false,
    }
}

fn block_comment(bytes: &[u8]) -> Option<Gap>
    requires { length bytes.now < 2 ^ 32 }
    ensures { result ≡ spec.block_comment bytes.now }
{
    match comment_end(after(bytes, 2)) {
        Some(len) => Some(Gap {
            len: len + 4,
            breaks_line: false,
        }),
        None => None,
    }
}

// The white space, or the comment, in front, of length 0 where there is none; None where a comment has no end.
fn blank(bytes: &[u8]) -> Option<Gap>
    requires { length bytes.now < 2 ^ 32 }
    ensures { result ≡ spec.blank bytes.now }
{
    let first = byte_at(bytes, 0);
    if is_in(Class::Space, first) {
        return Some(white_space(bytes));
    }
    match (first, byte_at(bytes, 1)) {
        (b'/', b'/') => Some(line_comment(bytes)),
        (b'/', b'*') => block_comment(bytes),
        _ => Some(Gap {
            len: 0,
            breaks_line: false,
        }),
    }
}

/// The white space and comments in front, or the place of a comment that has no end.
pub fn blanks(bytes: &[u8]) -> Result<Gap, usize>
    requires { length bytes.now < 2 ^ 32 }
    ensures { result ≡ spec.blanks bytes.now }
{
    let mut at = 0;
    let mut breaks_line = false;
    loop {
        let Some(gap) = blank(after(bytes, at)) else {
            return Err(at);
        };
        if gap.len == 0 {
            return Ok(Gap {
                len: at,
                breaks_line,
            });
        }
        at += gap.len;
        breaks_line = breaks_line || gap.breaks_line;
    }
}
