// Names and types from their tokens.

ghost use Rattle.std.specs.Prelude.{◌≡◌, IfOk};
ghost use Rattle.vala_grammar.specs.Trees as tree;
ghost use Rattle.vala_nodes.specs.Seen.{seen, seen_option};

use sqlite_items::Items;
use std::alloc::{AllocError, Global};
use text_values::word;
use vala_lexer::{Token, TokenKind};
use vala_tree::{Element, Identifier, NameTree, Ownership, TypeShape, TypeTree};
use vg_base::Span;

/// From the first byte of one to the last of another.
pub fn join(first: Span, last: Span) -> Span
    ensures { result ≡ tree.join first last }
{
    Span {
        file: first.file,
        start: first.start,
        end: last.end,
    }
}

pub fn identifier(alloc: Global, token: Token<'_>) -> Result<Identifier, AllocError>
    ensures { IfOk result (λ x. x ≡ tree.identifier (seen token.entry)) }
{
    Ok(Identifier {
        text: word(alloc, token.text)?,
        span: token.span,
    })
}

pub fn one_word(alloc: Global, token: Token<'_>) -> Result<NameTree, AllocError>
    ensures { IfOk result (λ n. n ≡ tree.one_word (seen token.entry)) }
{
    let mut words = Items::new(alloc);
    words.push(identifier(alloc, token)?)?;
    Ok(NameTree {
        words,
        span: token.span,
    })
}

pub fn one_more_word(
    alloc: Global,
    name: NameTree,
    token: Token<'_>,
) -> Result<NameTree, AllocError>
    ensures { IfOk result (λ n. n ≡ tree.one_more_word name (seen token.entry)) }
{
    let span = join(name.span, token.span);
    let mut words = name.into_words();
    words.push(identifier(alloc, token)?)?;
    Ok(NameTree { words, span })
}

/// Whether the name has one word.
pub fn is_one_word(name: &NameTree) -> bool
    ensures { result ≡ tree.is_one_word name.now }
{
    name.words.len() == 1
}

fn ownership(kind: TokenKind) -> Ownership
    ensures { result ≡ tree.ownership_of kind }
{
    match kind {
        TokenKind::Owned => Ownership::Owned,
        TokenKind::Weak => Ownership::Weak,
        _ => Ownership::Unowned,
    }
}

pub fn element(name: NameTree, mark: Option<Span>) -> Element
    ensures { result ≡ tree.element name mark }
{
    let last = mark.unwrap_or(name.span);
    let span = join(name.span, last);
    Element {
        name,
        is_nullable: mark.is_some(),
        span,
    }
}

/// A type of this shape from its first place to its last, with the word in front of it.
fn type_of(word: Option<Token<'_>>, shape: TypeShape, first: Span, last: Span) -> TypeTree
    ensures { result ≡ tree.type_of (seen_option word.entry) shape first last }
{
    match word {
        None => TypeTree {
            ownership: None,
            shape,
            span: join(first, last),
        },
        Some(token) => TypeTree {
            ownership: Some(ownership(token.kind)),
            shape,
            span: join(token.span, last),
        },
    }
}

pub fn void_type(word: Option<Token<'_>>, token: Token<'_>) -> TypeTree
    ensures { result ≡ tree.void_type (seen_option word.entry) (seen token.entry) }
{
    type_of(word, TypeShape::Void, token.span, token.span)
}

/// A name, and the mark behind it if there is one.
pub fn single_type(word: Option<Token<'_>>, name: NameTree, mark: Option<Span>) -> TypeTree
    ensures { result ≡ tree.single_type (seen_option word.entry) name mark }
{
    let first = name.span;
    let last = mark.unwrap_or(first);
    type_of(word, TypeShape::Single(element(name, mark)), first, last)
}

/// A name with its mark, `[]` that ends at `close`, and the mark behind that.
pub fn array_type(
    word: Option<Token<'_>>,
    name: NameTree,
    mark: Option<Span>,
    close: Span,
    behind: Option<Span>,
) -> TypeTree
    ensures { result ≡ tree.array_type (seen_option word.entry) name mark close behind }
{
    let first = name.span;
    let last = behind.unwrap_or(close);
    let shape = TypeShape::Array(element(name, mark), behind.is_some());
    type_of(word, shape, first, last)
}
