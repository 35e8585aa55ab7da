// Parameters, and what a method and a delegate are called by.

ghost use Rattle.std.specs.Prelude.{◌≡◌, IfOk};
ghost use Rattle.vala_file_grammar.specs.Trees as tree;
ghost use Rattle.vala_nodes.specs.Seen.{seen, seen_option};

use sqlite_items::{Boxed, Items};
use std::alloc::{AllocError, Global};
use vala_lexer::{Token, TokenKind};
use vala_nodes::names::{identifier, join};
use vala_tree::{Direction, Expr, Parameter, Signature, TypeTree};
use vg_base::Span;

fn direction_of(token: Token<'_>) -> Direction
    ensures { result ≡ tree.direction_of (seen token.entry) }
{
    match token.kind {
        TokenKind::Out => Direction::Out,
        _ => Direction::Ref,
    }
}

fn passed(word: Option<Token<'_>>) -> Option<Direction>
    ensures { result ≡ tree.passed (seen_option word.entry) }
{
    match word {
        None => None,
        Some(token) => Some(direction_of(token)),
    }
}

/// Where the word stands, or what is behind it where there is none.
pub fn first_of_two(word: Option<Token<'_>>, behind: Span) -> Span
    ensures { result ≡ tree.first_of_two (seen_option word.entry) behind }
{
    match word {
        None => behind,
        Some(token) => token.span,
    }
}

pub fn parameter(
    alloc: Global,
    word: Option<Token<'_>>,
    declared: TypeTree,
    name: Token<'_>,
) -> Result<Parameter, AllocError>
    ensures { IfOk result (λ x. x ≡ tree.parameter (seen_option word.entry) declared (seen name.entry)) }
{
    let begin = first_of_two(word, declared.span);
    Ok(Parameter {
        direction: passed(word),
        declared,
        name: identifier(alloc, name)?,
        default: None,
        span: join(begin, name.span),
    })
}

/// A parameter with the value that it has where none is given.
pub fn parameter_with(
    alloc: Global,
    word: Option<Token<'_>>,
    declared: TypeTree,
    name: Token<'_>,
    value: Boxed<Expr>,
) -> Result<Parameter, AllocError>
    ensures { IfOk result (λ x. x ≡ tree.parameter_with (seen_option word.entry) declared (seen name.entry) value) }
{
    let span = join(first_of_two(word, declared.span), value.get().span());
    let name = identifier(alloc, name)?;
    Ok(Parameter {
        direction: passed(word),
        declared,
        name,
        default: Some(value.into_inner()),
        span,
    })
}

pub fn signature(
    alloc: Global,
    declared: TypeTree,
    name: Token<'_>,
    parameters: Items<Parameter>,
    throws: Items<TypeTree>,
) -> Result<Signature, AllocError>
    ensures { IfOk result (λ x. x ≡ tree.signature declared (seen name.entry) parameters throws) }
{
    Ok(Signature {
        result: declared,
        name: identifier(alloc, name)?,
        parameters,
        throws,
    })
}
