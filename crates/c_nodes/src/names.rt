// Names and places from their tokens.

ghost use Rattle.std.specs.Prelude.{◌≡◌, IfOk};
ghost use Rattle.c_tree.specs.Make.{name_at};
ghost use Rattle.c_lexer.specs.declared.token.TokenKind.TheVariants as k;
ghost use Rattle.c_tree.specs.Words as words;
ghost use Rattle.c_nodes.specs.Seen.{seen};

use crate::token::{Terminal, Token};
use c_lexer::{TokenKind, text_value};
use c_tree::{Name, Span};
use sqlite_items::Items;
use std::alloc::{AllocError, Global};
use vg_base::Memory;

/// From the first byte of one to the last of another.
pub fn join(first: Span, last: Span) -> Span
    ensures { result ≡ words.join first last }
{
    Span {
        start: first.start,
        end: last.end,
    }
}

/// Where a token stands.
pub fn at(token: Token<'_>) -> Span
    ensures { result ≡ words.at (seen token.entry) }
{
    Span {
        start: token.start,
        end: token.end,
    }
}

fn text(alloc: Global, written: &[u8]) -> Result<Items<u8>, AllocError>
    ensures { IfOk result (λ bytes. bytes ≡ words.meant k.Text written.now) }
{
    match text_value(alloc, written) {
        Ok(bytes) => Ok(Items::from_vec(bytes)),
        Err(Memory) => Err(AllocError),
    }
}

/// The bytes of a word, or those that a text stands for.
pub fn bytes(alloc: Global, token: Token<'_>) -> Result<Items<u8>, AllocError>
    ensures { IfOk result (λ bytes. bytes ≡ (seen token.entry).bytes) }
{
    match token.terminal {
        Terminal::Of(TokenKind::Text) => text(alloc, token.text),
        Terminal::Of(_) => Items::from_slice(alloc, token.text),
        Terminal::File(_) => Ok(Items::new(alloc)),
    }
}

/// The name that a token is.
pub fn name(alloc: Global, token: Token<'_>) -> Result<Name, AllocError>
    ensures { IfOk result (λ n. n ≡ name_at (seen token.entry)) }
{
    Ok(Name {
        text: bytes(alloc, token)?,
        span: at(token),
    })
}
