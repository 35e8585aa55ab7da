// Reads tokens as a program, one after another.

ghost use Rattle.std.specs.Prelude.{◌≡◌, ◌<◌, ◌^◌, length, List, None};
ghost use Rattle.vala_lexer.specs.Tokens.{Lexeme, Tokens, all_of};
ghost use Rattle.vala_compile.specs.Steps as spec;
ghost use Rattle.vala_compile.specs.Steps.{Gives, seen, step, steps};
ghost use Rattle.vala_compile.specs.Quoted.{quoted};
ghost use Rattle.vala_compile.specs.Carried.{lexeme};
ghost use Rattle.vala_compile.specs.Program.{left_out};

use crate::quoted::text_of;
use crate::role::{Role, role_of};
use static_rules::{Refusal, Rule};
use std::alloc::Global;
use vala_lexer::{Lexer, Token};
use vg_base::{Bytes, Fault, Span};

/// What may come next in a program.
#[derive(Clone, Copy)]
pub enum Expected {
    Void,
    Main,
    OpenParameters,
    CloseParameters,
    OpenBody,
    /// `print` or `}`.
    Statement,
    OpenArguments,
    Text,
    CloseArguments,
    Semicolon,
    Nothing,
}

// What may come behind a token; None where it may not come.
fn behind(expected: Expected, role: Role) -> Option<Expected>
    ensures { result ≡ spec.behind expected role }
{
    match (expected, role) {
        (Expected::Void, Role::Void) => Some(Expected::Main),
        (Expected::Main, Role::Main) => Some(Expected::OpenParameters),
        (Expected::OpenParameters, Role::OpenParen) => Some(Expected::CloseParameters),
        (Expected::CloseParameters, Role::CloseParen) => Some(Expected::OpenBody),
        (Expected::OpenBody, Role::OpenBrace) => Some(Expected::Statement),
        (Expected::Statement, Role::Print) => Some(Expected::OpenArguments),
        (Expected::Statement, Role::CloseBrace) => Some(Expected::Nothing),
        (Expected::OpenArguments, Role::OpenParen) => Some(Expected::Text),
        (Expected::Text, Role::Text) => Some(Expected::CloseArguments),
        (Expected::CloseArguments, Role::CloseParen) => Some(Expected::Semicolon),
        (Expected::Semicolon, Role::Semicolon) => Some(Expected::Statement),
        _ => None,
    }
}

/// The refusal of what is not carried to C.
pub fn left_out(span: Span) -> Refusal
    ensures { result ≡ left_out span }
{
    Refusal {
        rule: Rule::U1,
        phase: 7,
        span,
    }
}

/// What may come next, and the texts that are printed so far.
#[derive(Drop)]
pub struct Reader {
    pub next: Expected,
    pub texts: Vec<Bytes>,
}

impl Reader {
    pub fn new(alloc: Global) -> Reader
        ensures { seen result ≡ spec.start }
    {
        Reader {
            next: Expected::Void,
            texts: Vec::new(alloc),
        }
    }

    fn take_text(&mut self, alloc: Global, token: &Token<'_>) -> Result<(), Fault<Refusal>>
        ensures { Gives (spec.with_text (seen self.old).texts token.now.span (quoted token.now.text.now)) result (seen self.new) }
    {
        match text_of(alloc, token.text) {
            Err(_) => Err(Fault::Memory),
            Ok(None) => Err(Fault::Refused(left_out(token.span))),
            Ok(Some(text)) => {
                if self.texts.push(text).is_err() {
                    return Err(Fault::Memory);
                }
                self.next = Expected::CloseArguments;
                Ok(())
            }
        }
    }

    fn take(&mut self, alloc: Global, token: &Token<'_>) -> Result<(), Fault<Refusal>>
        ensures { Gives (step (seen self.old) (lexeme token.now)) result (seen self.new) }
    {
        match behind(self.next, role_of(token)) {
            None => Err(Fault::Refused(left_out(token.span))),
            Some(Expected::CloseArguments) => self.take_text(alloc, token),
            Some(next) => {
                self.next = next;
                Ok(())
            }
        }
    }

    /// Takes the tokens of a file, in which no rule is broken.
    pub fn take_file(
        &mut self,
        alloc: Global,
        bytes: &[u8],
        file: u32,
    ) -> Result<(), Fault<Refusal>>
        requires { length bytes.now < 2 ^ 32 }
        ensures { (ts : List Lexeme) → Tokens (all_of bytes.now file) ts None → Gives (steps (seen self.old) ts) result (seen self.new) }
    {
        let mut lexer = Lexer::new(bytes, file);
        while let Ok(Some(token)) = lexer.next() {
            self.take(alloc, &token)?;
        }
        Ok(())
    }
}
