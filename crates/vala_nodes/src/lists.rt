// Nodes whose last part is the last of a list, if it has any.

ghost use Rattle.std.specs.Prelude.{◌≡◌, IfOk};
ghost use Rattle.vala_grammar.specs.Trees as tree;
ghost use Rattle.vala_nodes.specs.Seen.{seen};

use crate::names::join;
use sqlite_items::{Boxed, Items};
use std::alloc::{AllocError, Global};
use vala_grammar::Beginning;
use vala_lexer::Token;
use vala_tree::{Block, Catch, Declarator, DeclaredType, Label, Local, Section, Stmt, Try};
use vg_base::Span;

fn label_span(label: &Label) -> Span
    ensures { result ≡ tree.label_span label.now }
{
    match label {
        Label::Case(_, span) | Label::Default(span) => *span,
    }
}

fn labels_span(first: Span, labels: &[Label]) -> Span
    ensures { result ≡ tree.labels_span first labels.now }
{
    match labels {
        [] => first,
        [last] => join(first, label_span(last)),
        [_, others @ ..] => labels_span(first, others),
    }
}

fn statements_span(first: Span, statements: &[Stmt]) -> Span
    ensures { result ≡ tree.statements_span first statements.now }
{
    match statements {
        [] => first,
        [last] => join(first, last.span()),
        [_, others @ ..] => statements_span(first, others),
    }
}

fn declared_span(first: Span, names: &[Declarator]) -> Span
    ensures { result ≡ tree.declared_span first names.now }
{
    match names {
        [] => first,
        [last] => join(first, last.span),
        [_, others @ ..] => declared_span(first, others),
    }
}

fn catches_span(first: Span, clauses: &[Catch]) -> Span
    ensures { result ≡ tree.catches_span first clauses.now }
{
    match clauses {
        [] => first,
        [last] => join(first, last.span),
        [_, others @ ..] => catches_span(first, others),
    }
}

/// A part of a `switch`.
pub fn section(
    alloc: Global,
    first: Boxed<Label>,
    others: Items<Label>,
    statements: Items<Stmt>,
) -> Result<Section, AllocError>
    ensures { IfOk result (λ s. s ≡ tree.section first others statements) }
{
    let begin = labels_span(label_span(first.get()), others.as_slice());
    let span = statements_span(begin, statements.as_slice());
    let mut labels = Items::new(alloc);
    labels.push(first.into_inner())?;
    labels.append(others)?;
    Ok(Section {
        labels,
        statements,
        span,
    })
}

/// A type or `var` where it begins, and the names.
pub fn declared_locals(
    alloc: Global,
    declared: DeclaredType,
    begin: Span,
    names: Items<Declarator>,
) -> Result<Beginning, AllocError>
    ensures { IfOk result (λ b. b ≡ tree.declared_locals declared begin names) }
{
    let span = declared_span(begin, names.as_slice());
    let local = Boxed::new(alloc, Local { declared, names })?;
    Ok(Beginning::Declared(local, span))
}

/// `try` without `finally`.
pub fn try_block(
    alloc: Global,
    token: Token<'_>,
    body: Boxed<Block>,
    clauses: Items<Catch>,
) -> Result<Boxed<Stmt>, AllocError>
    ensures { IfOk result (λ a. a ≡ tree.try_block (seen token.entry) body clauses) }
{
    let span = catches_span(join(token.span, body.get().span), clauses.as_slice());
    let tried = Try {
        body: body.into_inner(),
        clauses,
        last: None,
    };
    Boxed::new(alloc, Stmt::Try(tried, span))
}
