// Names that become expressions, names in brackets, and lambdas.

ghost use Rattle.std.specs.List.{list_any};
ghost use Rattle.std.specs.Prelude.{◌≡◌, IfOk};
ghost use Rattle.vala_grammar.specs.Grammar.{cast_signs};
ghost use Rattle.vala_grammar.specs.Trees as tree;

use crate::names::join;
use crate::operands::{bracketed, member};
use sqlite_items::{Boxed, Items};
use std::alloc::{AllocError, Global};
use vala_grammar::{Chain, Last, Signs};
use vala_tree::{Block, Expr, Identifier, LambdaBody, NameTree};
use vg_base::Span;

/// Names with dots between as an expression.
pub fn names(alloc: Global, name: NameTree) -> Result<Boxed<Expr>, AllocError>
    ensures { IfOk result (λ e. e ≡ tree.names name) }
{
    let span = name.span;
    let mut words = name.into_words();
    if words.is_empty() {
        return Boxed::new(alloc, Expr::Name(Items::new(alloc), span));
    }
    let first = words.remove(0);
    let span = first.span;
    let left = Boxed::new(alloc, Expr::Name(first.into_text(), span))?;
    members(alloc, left, words)
}

fn members(
    alloc: Global,
    first: Boxed<Expr>,
    words: Items<Identifier>,
) -> Result<Boxed<Expr>, AllocError>
    ensures { IfOk result (λ e. e ≡ tree.members first words) }
{
    let mut left = first;
    let mut words = words;
    'words: while !words.is_empty() {
        let word = words.remove(0);
        left = member(alloc, left, word)?;
    }
    Ok(left)
}

/// Names with nothing behind them, which may still be a type.
pub fn alone(alloc: Global, name: NameTree) -> Result<Chain, AllocError>
    ensures { IfOk result (λ c. c ≡ tree.alone name) }
{
    Ok(Chain {
        value: names(alloc, name)?,
        last: Last::Alone,
    })
}

fn same_bytes(one: &[u8], other: &[u8]) -> bool
    ensures { result ≡ tree.same_bytes one.now other.now }
{
    match one {
        [] => other.is_empty(),
        [a, one @ ..] => match other {
            [] => false,
            [b, other @ ..] => *a == *b && same_bytes(one, other),
        },
    }
}

/// A lambda that gives a value.
pub fn lambda_value(
    alloc: Global,
    first: Span,
    parameters: Items<Identifier>,
    value: Boxed<Expr>,
) -> Result<Boxed<Expr>, AllocError>
    ensures { IfOk result (λ e. e ≡ tree.lambda_value first parameters value) }
{
    let span = join(first, value.get().span());
    let body = LambdaBody::Value(value);
    Boxed::new(alloc, Expr::Lambda(parameters, body, span))
}

/// A lambda that does what a block says.
pub fn lambda_code(
    alloc: Global,
    first: Span,
    parameters: Items<Identifier>,
    body: Boxed<Block>,
) -> Result<Boxed<Expr>, AllocError>
    ensures { IfOk result (λ e. e ≡ tree.lambda_code first parameters body) }
{
    let span = join(first, body.get().span);
    let body = LambdaBody::Code(body.into_inner());
    Boxed::new(alloc, Expr::Lambda(parameters, body, span))
}

fn is_integer_word(text: &[u8]) -> bool
    ensures { result ≡ list_any (tree.same_bytes text.now) tree.integer_types }
{
    same_bytes(text, b"int8")
        || same_bytes(text, b"char")
        || same_bytes(text, b"uint8")
        || same_bytes(text, b"uchar")
        || same_bytes(text, b"int16")
        || same_bytes(text, b"short")
        || same_bytes(text, b"uint16")
        || same_bytes(text, b"ushort")
        || same_bytes(text, b"int")
        || same_bytes(text, b"int32")
        || same_bytes(text, b"uint")
        || same_bytes(text, b"uint32")
        || same_bytes(text, b"long")
        || same_bytes(text, b"ssize_t")
        || same_bytes(text, b"ulong")
        || same_bytes(text, b"size_t")
        || same_bytes(text, b"int64")
        || same_bytes(text, b"uint64")
}

/// Whether the name is that of an integer type.
fn is_integer_type(name: &NameTree) -> bool
    ensures { result ≡ tree.is_integer_type name.now }
{
    match name.words.as_slice() {
        [word] => is_integer_word(word.text.as_slice()),
        _ => false,
    }
}

/// The signs that may begin what is cast to the type of this name.
pub fn signs_behind(name: &NameTree) -> Signs
    ensures { result ≡ cast_signs name.now }
{
    if is_integer_type(name) {
        Signs::IntegerCast
    } else {
        Signs::Cast
    }
}

/// Names in brackets, which are no cast.
pub fn bracketed_names(
    alloc: Global,
    opening: Span,
    name: NameTree,
    close: Span,
) -> Result<Chain, AllocError>
    ensures { IfOk result (λ c. c ≡ tree.bracketed_names opening name close) }
{
    let last = if is_integer_type(&name) {
        Last::Integer
    } else {
        Last::Names
    };
    let inner = names(alloc, name)?;
    Ok(Chain {
        value: bracketed(alloc, opening, inner, close)?,
        last,
    })
}

fn copied_word(alloc: Global, word: &Identifier) -> Result<Identifier, AllocError>
    ensures { IfOk result (λ x. x ≡ word.now) }
{
    Ok(Identifier {
        text: Items::from_slice(alloc, word.text.as_slice())?,
        span: word.span,
    })
}

fn copied_words(alloc: Global, words: &[Identifier]) -> Result<Items<Identifier>, AllocError>
    ensures { IfOk result (λ xs. xs ≡ words.now) }
{
    let mut copy = Items::new(alloc);
    for word in words {
        copy.push(copied_word(alloc, word)?)?;
    }
    Ok(copy)
}

/// The same names once more.
pub fn copied(alloc: Global, name: &NameTree) -> Result<NameTree, AllocError>
    ensures { IfOk result (λ n. n ≡ name.now) }
{
    Ok(NameTree {
        words: copied_words(alloc, name.words.as_slice())?,
        span: name.span,
    })
}
