// Calls, declarations and statements.

ghost use Rattle.std.specs.Prelude.{◌≡◌, IfOk};
ghost use Rattle.c_tree.specs.Make as make;
ghost use Rattle.c_tree.specs.Words as words;
ghost use Rattle.c_grammar.specs.Trees as tree;
ghost use Rattle.c_nodes.specs.Seen.{seen};

use crate::names::{at, join, name};
use crate::token::{Terminal, Token};
use c_lexer::{NumberType, TokenKind};
use c_tree::{Block, CType, Call, Callee, Case, Expr, Local, Number, SignedNumber, Stmt};
use sqlite_items::{Boxed, Items};
use std::alloc::{AllocError, Global};

fn number(token: Token<'_>) -> Number
    ensures { result ≡ tree.number_in (seen token.entry).terminal }
{
    match token.terminal {
        Terminal::Of(TokenKind::Number(value, kind)) => Number { value, kind },
        _ => Number {
            value: 0,
            kind: NumberType::Gint,
        },
    }
}

/// A number, with `-` before it or not.
pub fn signed(is_negative: bool, token: Token<'_>) -> SignedNumber
    ensures { result ≡ tree.signed is_negative (seen token.entry) }
{
    SignedNumber {
        is_negative,
        number: number(token),
    }
}

/// A declaration of a variable or a field.
pub fn local(alloc: Global, declared: CType, token: Token<'_>) -> Result<Local, AllocError>
    ensures { IfOk result (λ l. l ≡ tree.local declared (seen token.entry)) }
{
    Ok(Local {
        declared,
        name: name(alloc, token)?,
    })
}

/// The call of a value, up to `)`.
pub fn value_call(callee: Boxed<Expr>, arguments: Items<Expr>, close: Token<'_>) -> Call
    ensures { result ≡ tree.value_call callee arguments (seen close.entry) }
{
    let span = join(callee.get().span, at(close));
    Call {
        callee: Callee::Value(callee.into_inner()),
        type_argument: None,
        arguments,
        span,
    }
}

/// The call of a function of the library, up to `)`.
pub fn row_call(
    alloc: Global,
    row: Token<'_>,
    type_argument: Option<CType>,
    arguments: Items<Expr>,
    close: Token<'_>,
) -> Result<Call, AllocError>
    ensures { IfOk result (λ c. c ≡ tree.row_call (seen row.entry) type_argument arguments (seen close.entry)) }
{
    Ok(Call {
        callee: Callee::Row(name(alloc, row)?),
        type_argument,
        arguments,
        span: join(at(row), at(close)),
    })
}

/// A call, or the same whose result is stored to a place.
pub fn call_stmt(place: Option<Boxed<Expr>>, call: Call) -> Stmt
    ensures { result ≡ tree.call_stmt place call }
{
    match place {
        None => Stmt::Call(call),
        Some(place) => Stmt::Store(place.into_inner(), call),
    }
}

/// `case n: goto L;`
pub fn one_case(alloc: Global, number: SignedNumber, label: Token<'_>) -> Result<Case, AllocError>
    ensures { IfOk result (λ c. c ≡ tree.one_case number (seen label.entry)) }
{
    Ok(Case {
        number,
        label: name(alloc, label)?,
    })
}

/// A block, from `{` to `}`.
pub fn block(opening: Token<'_>, locals: Items<Local>, body: Items<Stmt>, close: Token<'_>) -> Block
    ensures { result ≡ make.block locals body (words.join (words.at (seen opening.entry)) (words.at (seen close.entry))) }
{
    Block {
        locals,
        body,
        span: join(at(opening), at(close)),
    }
}
