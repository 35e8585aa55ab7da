// The tokens of a text, from left to right.

ghost use Rattle.std.specs.Prelude.{◌≡◌, ◌≤◌, ◌<◌, ◌+◌, ◌^◌, length};
ghost use Rattle.c_lexer.specs.Tokens as spec;

use crate::blanks::blanks;
use crate::bytes::{after, front};
use crate::cursor::Lexer;
use crate::cut::cut;
use crate::pieces::Gap;
use crate::token::{BadToken, Token};

fn bad(at: usize) -> BadToken
    requires { at < 2 ^ 32 }
    ensures { result ≡ spec.bad_token at }
{
    BadToken { at: at as u32 }
}

impl<'t> Lexer<'t> {
    /// The tokens of a text.
    pub fn new(bytes: &'t [u8]) -> Lexer<'t>
        requires { length bytes.now < 2 ^ 32 }
        ensures { spec.left result ≡ spec.all_of bytes.now }
    {
        Lexer { bytes, at: 0 }
    }

    /// The next token, None at the end, or the place of a bad token.
    pub fn peek(&self) -> Result<Option<Token<'t>>, BadToken>
        ensures { spec.shown result ≡ spec.next_of (spec.left self.now) }
    {
        match blanks(after(self.bytes, self.at)) {
            Ok(gap) => self.token_at(self.at + gap.len, self.begins_line(gap)),
            Err(len) => Err(bad(self.at + len)),
        }
    }

    /// Takes the next token. At a bad token, and at the end, the same is answered again.
    pub fn next(&mut self) -> Result<Option<Token<'t>>, BadToken>
        ensures answer { spec.shown result ≡ spec.next_of (spec.left self.old) }
        ensures after { spec.left self.new ≡ spec.behind_next (spec.left self.old) }
    {
        let answer = self.peek()?;
        if let Some(token) = answer {
            self.at = token.end as usize;
        }
        Ok(answer)
    }

    // Whether the token behind a gap begins a line.
    fn begins_line(&self, gap: Gap) -> bool
        ensures { result ≡ spec.begins_line self.now.at gap }
    {
        self.at == 0 || gap.breaks_line
    }

    // The answer at a place where neither white space nor a comment begins.
    fn token_at(&self, start: usize, begins_line: bool) -> Result<Option<Token<'t>>, BadToken>
        ensures { spec.shown result ≡ spec.token_at self.now.bytes.now start begins_line }
    {
        if start >= self.bytes.len() {
            return Ok(None);
        }
        let rest = after(self.bytes, start);
        match cut(rest) {
            Some(found) => Ok(Some(Token {
                kind: found.kind,
                text: front(rest, found.len),
                start: start as u32,
                end: (start + found.len) as u32,
                begins_line,
            })),
            None => Err(bad(start)),
        }
    }
}
