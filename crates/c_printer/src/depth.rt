// Whether the brackets of a text nest too deep.

ghost use Rattle.std.specs.Prelude.{◌≡◌, ◌<◌, ◌^◌, ◌++◌, ◌∷◌, [], true, length, IfOk, OnOk};
ghost use Rattle.c_printer.specs.Depth as spec;

use c_lexer::{Lexer, Sign, TokenKind};
use std::alloc::Global;
use vg_base::Memory;

/// A sign that is open.
#[derive(Clone, Copy)]
pub enum Open {
    Bracket,
    /// The `?` of a choice.
    Choice,
}

// Opens a sign.
fn open_sign(signs: &mut Vec<Open>, sign: Open) -> Result<(), Memory>
    ensures { OnOk result (signs.new.items ≡ signs.old.items ++ sign ∷ []) }
{
    if signs.push(sign).is_err() {
        Err(Memory)
    } else {
        Ok(())
    }
}

// Closes the sign that was opened last.
fn close(signs: &mut Vec<Open>)
    ensures { signs.new.items ≡ spec.closed signs.old.items }
{
    signs.pop();
}

// Whether a choice was opened last.
fn is_in_choice(signs: &[Open]) -> bool
    ensures { result ≡ spec.is_in_choice signs.now }
{
    if signs.is_empty() {
        return false;
    }
    match signs[signs.len() - 1] {
        Open::Choice => true,
        Open::Bracket => false,
    }
}

// Closes the choice of a `:`.
fn close_choice(signs: &mut Vec<Open>)
    ensures { signs.new.items ≡ spec.closed_choice signs.old.items }
{
    if is_in_choice(signs) {
        close(signs);
    }
}

// Passes a sign.
fn pass_sign(signs: &mut Vec<Open>, sign: Sign) -> Result<(), Memory>
    ensures { OnOk result (signs.new.items ≡ spec.with_sign signs.old.items sign) }
{
    match sign {
        Sign::OpenBrace | Sign::OpenParen | Sign::OpenBracket => open_sign(signs, Open::Bracket)?,
        Sign::Question => open_sign(signs, Open::Choice)?,
        Sign::CloseBrace | Sign::CloseParen | Sign::CloseBracket => close(signs),
        Sign::Colon => close_choice(signs),
        _ => {}
    }
    Ok(())
}

// Passes a token.
fn pass_kind(signs: &mut Vec<Open>, kind: TokenKind) -> Result<(), Memory>
    ensures { OnOk result (signs.new.items ≡ spec.with_kind signs.old.items kind) }
{
    match kind {
        TokenKind::Sign(sign) => pass_sign(signs, sign),
        _ => Ok(()),
    }
}

/// Whether no more than 64 brackets are open at any token of a text.
pub fn is_shallow(alloc: Global, bytes: &[u8]) -> Result<bool, Memory>
    requires { length bytes.now < 2 ^ 32 }
    ensures { IfOk result (λ shallow. shallow ≡ true → spec.IsShallowText bytes.now) }
{
    let mut lexer = Lexer::new(bytes);
    let mut signs: Vec<Open> = Vec::new(alloc);
    for _ in 0..bytes.len() {
        match lexer.next() {
            Ok(Some(token)) => pass_kind(&mut signs, token.kind)?,
            Ok(None) => return Ok(true),
            Err(_) => return Ok(false),
        }
        if signs.len() > 64 {
            return Ok(false);
        }
    }
    Ok(matches!(lexer.peek(), Ok(None)))
}
