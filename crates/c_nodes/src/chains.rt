// Values from operands and what stands before, between and behind them.

ghost use Rattle.std.specs.Prelude.{◌≡◌, IfOk};
ghost use Rattle.c_tree.specs.Make as make;
ghost use Rattle.c_nodes.specs.Rows as rows;

use crate::names::join;
use c_tree::{BinaryOperator, Choice, Expr, Link, PrefixOperator, Shape, Span, Suffix};
use sqlite_items::{Boxed, Items};
use std::alloc::{AllocError, Global};

/// A value with brackets around it.
pub fn bracketed(alloc: Global, span: Span, value: Boxed<Expr>) -> Result<Boxed<Expr>, AllocError>
    ensures { IfOk result (λ e. e ≡ make.bracketed span value) }
{
    let mut value = value.into_inner();
    value.span = span;
    Boxed::new(alloc, value)
}

/// An operator and the operand behind it.
pub fn link(operator: BinaryOperator, operand: Boxed<Expr>) -> Link
    ensures { result ≡ make.link operator operand }
{
    Link {
        operator,
        operand: operand.into_inner(),
    }
}

/// A condition and the value behind it.
pub fn choice(test: Boxed<Expr>, yes: Boxed<Expr>) -> Choice
    ensures { result ≡ make.choice test yes }
{
    Choice {
        test: test.into_inner(),
        yes: yes.into_inner(),
    }
}

fn last_operand(first: Span, links: &[Link]) -> Span
    ensures { result ≡ make.last_operand first links.now }
{
    let mut span = first;
    for link in links {
        span = link.operand.span;
    }
    span
}

/// An operand and the links behind it; alone it is no chain.
pub fn chained(
    alloc: Global,
    first: Boxed<Expr>,
    links: Items<Link>,
) -> Result<Boxed<Expr>, AllocError>
    ensures { IfOk result (λ e. e ≡ make.chained first links) }
{
    if links.is_empty() {
        return Ok(first);
    }
    let begin = first.get().span;
    let span = join(begin, last_operand(begin, links.as_slice()));
    let shape = Shape::Chain(first, links);
    Boxed::new(alloc, Expr { shape, span })
}

/// An operand and the operators before it, the outermost first.
pub fn prefixed(
    alloc: Global,
    operators: Items<PrefixOperator>,
    operand: Boxed<Expr>,
) -> Result<Boxed<Expr>, AllocError>
    ensures { IfOk result (λ e. e ≡ make.prefixed operators operand) }
{
    let span = match operators.as_slice() {
        [] => return Ok(operand),
        [first, ..] => join(first.span, operand.get().span),
    };
    let shape = Shape::Prefix(operators, operand);
    Boxed::new(alloc, Expr { shape, span })
}

fn suffix_span(suffix: &Suffix) -> Span
    ensures { result ≡ make.suffix_span suffix.now }
{
    match suffix {
        Suffix::Field(field) | Suffix::Arrow(field) => field.span,
        Suffix::Index(_, span) => *span,
    }
}

fn suffix_end(first: Span, suffixes: &[Suffix]) -> Span
    ensures { result ≡ rows.suffix_end first suffixes.now }
{
    let mut span = first;
    for suffix in suffixes {
        span = suffix_span(suffix);
    }
    span
}

#[tactic(auto, using(crate::proofs::RowLaws::last_suffixes))]
fn last_suffix(first: &Suffix, others: &[Suffix]) -> Span
    ensures { result ≡ make.last_suffix first.now others.now }
{
    suffix_end(suffix_span(first), others)
}

/// A value and the suffixes behind it, the innermost first.
pub fn suffixed(
    alloc: Global,
    value: Boxed<Expr>,
    suffixes: Items<Suffix>,
) -> Result<Boxed<Expr>, AllocError>
    ensures { IfOk result (λ e. e ≡ make.suffixed value suffixes) }
{
    let span = match suffixes.as_slice() {
        [] => return Ok(value),
        [first, others @ ..] => join(value.get().span, last_suffix(first, others)),
    };
    let shape = Shape::Postfix(value, suffixes);
    Boxed::new(alloc, Expr { shape, span })
}

/// Choices, and the value behind the last `:`.
pub fn conditional(
    alloc: Global,
    choices: Items<Choice>,
    last: Boxed<Expr>,
) -> Result<Boxed<Expr>, AllocError>
    ensures { IfOk result (λ e. e ≡ make.conditional choices last) }
{
    let span = match choices.as_slice() {
        [] => return Ok(last),
        [first, ..] => join(first.test.span, last.get().span),
    };
    let shape = Shape::Conditional(choices, last);
    Boxed::new(alloc, Expr { shape, span })
}
