// The tokens of a file, from left to right.

ghost use Rattle.std.specs.Prelude.{◌≡◌, ◌≤◌, ◌<◌, ◌+◌, ◌^◌, length};
ghost use Rattle.vala_lexer.specs.Tokens as spec;

use crate::blanks::blanks;
use crate::bytes::{after, front};
use crate::cursor::Lexer;
use crate::cut::cut;
use crate::pieces::Fault;
use crate::token::Token;
use static_rules::{Refusal, Rule};
use vg_base::Span;

impl<'t> Lexer<'t> {
    /// The tokens of the file with the number `file`.
    pub fn new(bytes: &'t [u8], file: u32) -> Lexer<'t>
        requires { length bytes.now < 2 ^ 32 }
        ensures { spec.left result ≡ spec.all_of bytes.now file }
    {
        Lexer { bytes, file, at: 0 }
    }

    /// The next token, None at the end, or the rule that is broken there.
    pub fn peek(&self) -> Result<Option<Token<'t>>, Refusal>
        ensures { spec.shown result ≡ spec.next_of (spec.left self.now) }
    {
        let start = match blanks(after(self.bytes, self.at)) {
            Ok(count) => self.at + count,
            Err(fault) => return Err(self.refusal(self.at, fault)),
        };
        if start >= self.bytes.len() {
            return Ok(None);
        }
        let rest = after(self.bytes, start);
        match cut(front(self.bytes, start), rest) {
            Ok(found) => Ok(Some(Token {
                kind: found.kind,
                text: front(rest, found.len),
                span: self.span(start, found.len),
            })),
            Err(fault) => Err(self.refusal(start, fault)),
        }
    }

    /// Takes the next token. After a refusal, and at the end, the same is answered again.
    pub fn next(&mut self) -> Result<Option<Token<'t>>, Refusal>
        ensures answer { spec.shown result ≡ spec.next_of (spec.left self.old) }
        ensures after { spec.left self.new ≡ spec.behind_next (spec.left self.old) }
    {
        let answer = self.peek()?;
        if let Some(token) = answer {
            self.at = token.span.end as usize;
        }
        Ok(answer)
    }

    /// Where the file ends.
    pub fn end(&self) -> Span
        ensures { result ≡ spec.span (spec.left self.now).file (length (spec.left self.now).bytes) 0 }
    {
        self.span(self.bytes.len(), 0)
    }

    fn span(&self, start: usize, len: usize) -> Span
        requires { start + len < 2 ^ 32 }
        ensures { result ≡ spec.span self.now.file start len }
    {
        Span {
            file: self.file,
            start: start as u32,
            end: (start + len) as u32,
        }
    }

    fn refusal(&self, at: usize, fault: Fault) -> Refusal
        requires { at + fault.start + fault.len < 2 ^ 32 }
        ensures { result ≡ spec.refusal self.now.file at fault }
    {
        Refusal {
            rule: fault.rule,
            phase: 1,
            span: self.span(at + fault.start, fault.len),
        }
    }
}
