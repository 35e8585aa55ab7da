// Types from their tokens.

ghost use Rattle.std.specs.Prelude.{◌≡◌, IfOk};
ghost use Rattle.c_grammar.specs.Trees as tree;
ghost use Rattle.c_nodes.specs.Rows as spec;
ghost use Rattle.c_nodes.specs.Seen.{seen};

use crate::names::{at, join, name};
use crate::token::{Terminal, Token};
use c_lexer::{Keyword, TokenKind};
use c_tree::{Base, CType, Span};
use std::alloc::{AllocError, Global};

/// Stars: how many they are, and where they and what stands behind each of them stand.
#[derive(Clone, Copy)]
pub struct Stars {
    pub count: u32,
    pub row: Option<Span>,
}

/// The base that a token is.
fn base(alloc: Global, token: Token<'_>) -> Result<Base, AllocError>
    ensures { IfOk result (λ b. b ≡ tree.base_of (seen token.entry)) }
{
    match token.terminal {
        Terminal::Of(TokenKind::Keyword(Keyword::Void)) => Ok(Base::Void),
        Terminal::Of(TokenKind::Keyword(Keyword::Int)) => Ok(Base::Int),
        Terminal::Of(TokenKind::Keyword(Keyword::Char)) => Ok(Base::Char),
        _ => Ok(Base::Named(name(alloc, token)?)),
    }
}

/// Whether the base that a token is is `void`.
pub fn is_void(token: Token<'_>) -> bool
    ensures { result ≡ tree.is_void (seen token.entry) }
{
    matches!(
        token.terminal,
        Terminal::Of(TokenKind::Keyword(Keyword::Void))
    )
}

/// A row, or what stands beside it where there is none.
fn row_or(row: Option<Span>, beside: Span) -> Span
    ensures { result ≡ spec.row_or row beside }
{
    match row {
        Some(span) => span,
        None => beside,
    }
}

/// The type of a base, with the `const` before and behind it and its stars.
pub fn type_of(
    alloc: Global,
    before: Option<Span>,
    token: Token<'_>,
    behind: Option<Span>,
    stars: Stars,
) -> Result<CType, AllocError>
    ensures { IfOk result (λ c. c ≡ spec.type_in_rows before (seen token.entry) behind stars) }
{
    Ok(CType {
        base: base(alloc, token)?,
        is_const: before.is_some() || behind.is_some(),
        stars: stars.count,
        span: join(
            row_or(before, at(token)),
            row_or(stars.row, row_or(behind, at(token))),
        ),
    })
}
