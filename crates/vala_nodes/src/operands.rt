// Operands from their parts.

ghost use Rattle.std.specs.Prelude.{◌≡◌, IfOk};
ghost use Rattle.vala_grammar.specs.Trees as tree;
ghost use Rattle.vala_nodes.specs.Seen.{seen};

use crate::names::{element, identifier, join};
use sqlite_items::Boxed;
use std::alloc::{AllocError, Global};
use text_values::{text_value, word};
use vala_grammar::{Arguments, Chain, Last, Listed};
use vala_lexer::{IntegerType, Token, TokenKind};
use vala_tree::{
    Argument, ArgumentMark, Expr, Identifier, IntegerKind, Literal, NameTree, NewArray, Postfix,
    PostfixOperator, Primary,
};
use vg_base::Span;

fn integer_kind(kind: IntegerType) -> IntegerKind
    ensures { result ≡ tree.integer_kind kind }
{
    match kind {
        IntegerType::Int => IntegerKind::Int,
        IntegerType::Uint => IntegerKind::Uint,
        IntegerType::Long => IntegerKind::Long,
        IntegerType::Ulong => IntegerKind::Ulong,
        IntegerType::Int64 => IntegerKind::Int64,
        IntegerType::Uint64 => IntegerKind::Uint64,
    }
}

fn literal(alloc: Global, token: Token<'_>) -> Result<Literal, AllocError>
    ensures { IfOk result (λ x. x ≡ tree.literal_of (seen token.entry)) }
{
    match token.kind {
        TokenKind::Integer(value, kind) => Ok(Literal::Integer(value, integer_kind(kind))),
        TokenKind::Character(code) => Ok(Literal::Character(code)),
        TokenKind::Text => Ok(Literal::Text(text_value(alloc, token.text)?)),
        TokenKind::True => Ok(Literal::Boolean(true)),
        TokenKind::False => Ok(Literal::Boolean(false)),
        _ => Ok(Literal::Null),
    }
}

/// An expression that may be missing, for a place that holds it without a box.
pub fn unboxed(value: Option<Boxed<Expr>>) -> Option<Expr>
    ensures { result ≡ value }
{
    match value {
        None => None,
        Some(value) => Some(value.into_inner()),
    }
}

pub fn constant(alloc: Global, token: Token<'_>) -> Result<Boxed<Expr>, AllocError>
    ensures { IfOk result (λ e. e ≡ tree.constant (seen token.entry)) }
{
    let literal = literal(alloc, token)?;
    Boxed::new(alloc, Expr::Literal(literal, token.span))
}

pub fn name(alloc: Global, token: Token<'_>) -> Result<Boxed<Expr>, AllocError>
    ensures { IfOk result (λ e. e ≡ tree.name (seen token.entry)) }
{
    let text = word(alloc, token.text)?;
    Boxed::new(alloc, Expr::Name(text, token.span))
}

pub fn member(alloc: Global, left: Boxed<Expr>, word: Identifier) -> Result<Boxed<Expr>, AllocError>
    ensures { IfOk result (λ e. e ≡ tree.member left word) }
{
    let span = join(left.get().span(), word.span);
    Boxed::new(alloc, Expr::Postfix(Postfix::Member(left, word), span))
}

/// `.` and a word behind an operand.
pub fn member_word(
    alloc: Global,
    left: Boxed<Expr>,
    token: Token<'_>,
) -> Result<Boxed<Expr>, AllocError>
    ensures { IfOk result (λ e. e ≡ tree.member left (tree.identifier (seen token.entry))) }
{
    let word = identifier(alloc, token)?;
    member(alloc, left, word)
}

pub fn plain(value: Boxed<Expr>) -> Chain
    ensures { result ≡ tree.plain value }
{
    Chain {
        value,
        last: Last::Plain,
    }
}

pub fn bracketed(
    alloc: Global,
    opening: Span,
    inner: Boxed<Expr>,
    close: Span,
) -> Result<Boxed<Expr>, AllocError>
    ensures { IfOk result (λ e. e ≡ tree.bracketed opening inner close) }
{
    let primary = Primary::Parenthesized(inner);
    Boxed::new(alloc, Expr::Primary(primary, join(opening, close)))
}

pub fn yielded(
    alloc: Global,
    token: Token<'_>,
    call: Boxed<Expr>,
) -> Result<Boxed<Expr>, AllocError>
    ensures { IfOk result (λ e. e ≡ tree.yielded (seen token.entry) call) }
{
    let span = join(token.span, call.get().span());
    Boxed::new(alloc, Expr::Primary(Primary::YieldCall(call), span))
}

pub fn new_object(
    alloc: Global,
    token: Token<'_>,
    name: NameTree,
    arguments: Arguments,
) -> Result<Boxed<Expr>, AllocError>
    ensures { IfOk result (λ e. e ≡ tree.new_object (seen token.entry) name arguments) }
{
    let span = join(token.span, arguments.close);
    let primary = Primary::New(name, arguments.into_list());
    Boxed::new(alloc, Expr::Primary(primary, span))
}

pub fn new_array(
    alloc: Global,
    token: Token<'_>,
    name: NameTree,
    mark: Option<Span>,
    size: Option<Boxed<Expr>>,
    close: Span,
) -> Result<Boxed<Expr>, AllocError>
    ensures { IfOk result (λ e. e ≡ tree.new_array (seen token.entry) name mark size close) }
{
    let array = NewArray {
        element: element(name, mark),
        length: size,
        list: None,
    };
    let span = join(token.span, close);
    Boxed::new(alloc, Expr::Primary(Primary::NewArray(array), span))
}

pub fn new_array_of(
    alloc: Global,
    token: Token<'_>,
    name: NameTree,
    mark: Option<Span>,
    size: Option<Boxed<Expr>>,
    items: Listed,
) -> Result<Boxed<Expr>, AllocError>
    ensures { IfOk result (λ e. e ≡ tree.new_array_of (seen token.entry) name mark size items) }
{
    let span = join(token.span, items.close);
    let array = NewArray {
        element: element(name, mark),
        length: size,
        list: Some(items.into_list()),
    };
    Boxed::new(alloc, Expr::Primary(Primary::NewArray(array), span))
}

/// `{ .. }` as an initialiser.
pub fn list_in_braces(
    alloc: Global,
    token: Token<'_>,
    items: Listed,
) -> Result<Boxed<Expr>, AllocError>
    ensures { IfOk result (λ e. e ≡ tree.list_in_braces (seen token.entry) items) }
{
    let span = join(token.span, items.close);
    Boxed::new(alloc, Expr::Primary(Primary::List(items.into_list()), span))
}

pub fn call(
    alloc: Global,
    left: Boxed<Expr>,
    arguments: Arguments,
) -> Result<Boxed<Expr>, AllocError>
    ensures { IfOk result (λ e. e ≡ tree.call left arguments) }
{
    let span = join(left.get().span(), arguments.close);
    Boxed::new(
        alloc,
        Expr::Postfix(Postfix::Call(left, arguments.into_list()), span),
    )
}

pub fn index(
    alloc: Global,
    left: Boxed<Expr>,
    at: Boxed<Expr>,
    close: Token<'_>,
) -> Result<Boxed<Expr>, AllocError>
    ensures { IfOk result (λ e. e ≡ tree.index left at (seen close.entry)) }
{
    let span = join(left.get().span(), close.span);
    Boxed::new(alloc, Expr::Postfix(Postfix::Index(left, at), span))
}

fn step_of(kind: TokenKind) -> PostfixOperator
    ensures { result ≡ tree.step_of kind }
{
    match kind {
        TokenKind::Increment => PostfixOperator::Increment,
        _ => PostfixOperator::Decrement,
    }
}

pub fn step(alloc: Global, left: Boxed<Expr>, token: Token<'_>) -> Result<Boxed<Expr>, AllocError>
    ensures { IfOk result (λ e. e ≡ tree.step left (seen token.entry)) }
{
    let span = join(left.get().span(), token.span);
    let step = Postfix::Step(left, step_of(token.kind));
    Boxed::new(alloc, Expr::Postfix(step, span))
}

pub fn argument(alloc: Global, value: Boxed<Expr>) -> Result<Boxed<Argument>, AllocError>
    ensures { IfOk result (λ e. e ≡ tree.argument value) }
{
    let span = value.get().span();
    let argument = Argument {
        mark: ArgumentMark::Plain,
        value: value.into_inner(),
        span,
    };
    Boxed::new(alloc, argument)
}

pub fn named_argument(
    alloc: Global,
    token: Token<'_>,
    value: Boxed<Expr>,
) -> Result<Boxed<Argument>, AllocError>
    ensures { IfOk result (λ e. e ≡ tree.named_argument (seen token.entry) value) }
{
    let span = join(token.span, value.get().span());
    let name = identifier(alloc, token)?;
    let argument = Argument {
        mark: ArgumentMark::Named(name),
        value: value.into_inner(),
        span,
    };
    Boxed::new(alloc, argument)
}

fn mark_of(kind: TokenKind) -> ArgumentMark
    ensures { result ≡ tree.mark_of kind }
{
    match kind {
        TokenKind::Out => ArgumentMark::Out,
        _ => ArgumentMark::Ref,
    }
}

pub fn marked_argument(
    alloc: Global,
    token: Token<'_>,
    value: Boxed<Expr>,
) -> Result<Boxed<Argument>, AllocError>
    ensures { IfOk result (λ e. e ≡ tree.marked_argument (seen token.entry) value) }
{
    let span = join(token.span, value.get().span());
    let argument = Argument {
        mark: mark_of(token.kind),
        value: value.into_inner(),
        span,
    };
    Boxed::new(alloc, argument)
}
