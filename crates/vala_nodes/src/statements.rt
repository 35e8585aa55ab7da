// Statements from their parts.

ghost use Rattle.std.specs.Prelude.{◌≡◌, IfOk};
ghost use Rattle.vala_grammar.specs.Trees as tree;
ghost use Rattle.vala_nodes.specs.Seen.{seen};

use crate::names::{identifier, join};
use crate::operands::unboxed;
use sqlite_items::{Boxed, Items};
use std::alloc::{AllocError, Global};
use vala_grammar::{Beginning, Branches, Ended, ForHead};
use vala_lexer::Token;
use vala_tree::{
    Arm, Block, Catch, Caught, Declarator, DeclaredType, Expr, For, Foreach, If, Iteration, Jump,
    Section, Selection, Stmt, Try, TypeTree,
};

pub fn block(
    alloc: Global,
    opening: Token<'_>,
    statements: Items<Stmt>,
    close: Token<'_>,
) -> Result<Boxed<Block>, AllocError>
    ensures { IfOk result (λ b. b ≡ tree.block (seen opening.entry) statements (seen close.entry)) }
{
    let span = join(opening.span, close.span);
    Boxed::new(alloc, Block { statements, span })
}

/// A statement that no `else` goes on with.
pub fn ended(statement: Boxed<Stmt>) -> Ended
    ensures { result ≡ tree.ended statement }
{
    Ended {
        statement,
        is_open: false,
    }
}

pub fn expression(
    alloc: Global,
    value: Boxed<Expr>,
    close: Token<'_>,
) -> Result<Boxed<Stmt>, AllocError>
    ensures { IfOk result (λ a. a ≡ tree.expression value (seen close.entry)) }
{
    let span = join(value.get().span(), close.span);
    Boxed::new(alloc, Stmt::Expression(value.into_inner(), span))
}

pub fn declarator(alloc: Global, token: Token<'_>) -> Result<Declarator, AllocError>
    ensures { IfOk result (λ d. d ≡ tree.declarator (seen token.entry)) }
{
    Ok(Declarator {
        name: identifier(alloc, token)?,
        value: None,
        span: token.span,
    })
}

pub fn declarator_with(
    alloc: Global,
    token: Token<'_>,
    value: Boxed<Expr>,
) -> Result<Declarator, AllocError>
    ensures { IfOk result (λ d. d ≡ tree.declarator_with (seen token.entry) value) }
{
    let span = join(token.span, value.get().span());
    let name = identifier(alloc, token)?;
    Ok(Declarator {
        name,
        value: Some(value.into_inner()),
        span,
    })
}

pub fn begun(
    alloc: Global,
    beginning: Beginning,
    close: Token<'_>,
) -> Result<Boxed<Stmt>, AllocError>
    ensures { IfOk result (λ a. a ≡ tree.begun beginning (seen close.entry)) }
{
    match beginning {
        Beginning::Declared(local, span) => {
            let span = join(span, close.span);
            Boxed::new(alloc, Stmt::Local(local.into_inner(), span))
        }
        Beginning::Expression(value) => expression(alloc, value, close),
    }
}

/// A condition and its body. Whether an `else` could go on with the body is told before.
pub fn arm(test: Boxed<Expr>, body: Ended) -> Arm
    ensures { result ≡ tree.arm test body }
{
    Arm {
        test: test.into_inner(),
        body: body.into_statement().into_inner(),
    }
}

pub fn if_of(alloc: Global, token: Token<'_>, branches: Branches) -> Result<Ended, AllocError>
    ensures { IfOk result (λ a. a ≡ tree.if_of (seen token.entry) branches) }
{
    let span = join(token.span, branches.end);
    let is_open = branches.is_open;
    let (arms, no) = branches.into_parts();
    let selection = Selection::If(If { arms, no });
    let statement = Boxed::new(alloc, Stmt::Selection(selection, span))?;
    Ok(Ended { statement, is_open })
}

pub fn while_loop(
    alloc: Global,
    token: Token<'_>,
    test: Boxed<Expr>,
    body: Ended,
) -> Result<Ended, AllocError>
    ensures { IfOk result (λ a. a ≡ tree.while_loop (seen token.entry) test body) }
{
    let span = join(token.span, body.statement.get().span());
    let is_open = body.is_open;
    let iteration = Iteration::While(test.into_inner(), body.into_statement());
    let statement = Boxed::new(alloc, Stmt::Iteration(iteration, span))?;
    Ok(Ended { statement, is_open })
}

pub fn do_loop(
    alloc: Global,
    token: Token<'_>,
    body: Ended,
    test: Boxed<Expr>,
    close: Token<'_>,
) -> Result<Boxed<Stmt>, AllocError>
    ensures { IfOk result (λ a. a ≡ tree.do_loop (seen token.entry) body test (seen close.entry)) }
{
    let iteration = Iteration::Do(body.into_statement(), test.into_inner());
    let span = join(token.span, close.span);
    Boxed::new(alloc, Stmt::Iteration(iteration, span))
}

pub fn for_loop(
    alloc: Global,
    token: Token<'_>,
    head: ForHead,
    body: Ended,
) -> Result<Ended, AllocError>
    ensures { IfOk result (λ a. a ≡ tree.for_loop (seen token.entry) head body) }
{
    let span = join(token.span, body.statement.get().span());
    let is_open = body.is_open;
    let (start, test, steps) = head.into_parts();
    let iteration = Iteration::For(For {
        start: start.into_inner(),
        test,
        steps,
        body: body.into_statement(),
    });
    let statement = Boxed::new(alloc, Stmt::Iteration(iteration, span))?;
    Ok(Ended { statement, is_open })
}

pub fn foreach_loop(
    alloc: Global,
    token: Token<'_>,
    declared: DeclaredType,
    name: Token<'_>,
    over: Boxed<Expr>,
    body: Ended,
) -> Result<Ended, AllocError>
    ensures { IfOk result (λ a. a ≡ tree.foreach_loop (seen token.entry) declared (seen name.entry) over body) }
{
    let span = join(token.span, body.statement.get().span());
    let is_open = body.is_open;
    let name = identifier(alloc, name)?;
    let iteration = Iteration::Foreach(Foreach {
        declared,
        name,
        over: over.into_inner(),
        body: body.into_statement(),
    });
    let statement = Boxed::new(alloc, Stmt::Iteration(iteration, span))?;
    Ok(Ended { statement, is_open })
}

pub fn switch(
    alloc: Global,
    token: Token<'_>,
    value: Boxed<Expr>,
    sections: Items<Section>,
    close: Token<'_>,
) -> Result<Boxed<Stmt>, AllocError>
    ensures { IfOk result (λ a. a ≡ tree.switch (seen token.entry) value sections (seen close.entry)) }
{
    let selection = Selection::Switch(value.into_inner(), sections);
    let span = join(token.span, close.span);
    Boxed::new(alloc, Stmt::Selection(selection, span))
}

pub fn break_jump(
    alloc: Global,
    token: Token<'_>,
    close: Token<'_>,
) -> Result<Boxed<Stmt>, AllocError>
    ensures { IfOk result (λ a. a ≡ tree.break_jump (seen token.entry) (seen close.entry)) }
{
    let span = join(token.span, close.span);
    Boxed::new(alloc, Stmt::Jump(Jump::Break, span))
}

pub fn continue_jump(
    alloc: Global,
    token: Token<'_>,
    close: Token<'_>,
) -> Result<Boxed<Stmt>, AllocError>
    ensures { IfOk result (λ a. a ≡ tree.continue_jump (seen token.entry) (seen close.entry)) }
{
    let span = join(token.span, close.span);
    Boxed::new(alloc, Stmt::Jump(Jump::Continue, span))
}

pub fn yield_jump(
    alloc: Global,
    token: Token<'_>,
    close: Token<'_>,
) -> Result<Boxed<Stmt>, AllocError>
    ensures { IfOk result (λ a. a ≡ tree.yield_jump (seen token.entry) (seen close.entry)) }
{
    let span = join(token.span, close.span);
    Boxed::new(alloc, Stmt::Jump(Jump::Yield, span))
}

pub fn return_jump(
    alloc: Global,
    token: Token<'_>,
    value: Option<Boxed<Expr>>,
    close: Token<'_>,
) -> Result<Boxed<Stmt>, AllocError>
    ensures { IfOk result (λ a. a ≡ tree.return_jump (seen token.entry) value (seen close.entry)) }
{
    let span = join(token.span, close.span);
    let jump = Jump::Return(unboxed(value));
    Boxed::new(alloc, Stmt::Jump(jump, span))
}

pub fn throw_jump(
    alloc: Global,
    token: Token<'_>,
    value: Boxed<Expr>,
    close: Token<'_>,
) -> Result<Boxed<Stmt>, AllocError>
    ensures { IfOk result (λ a. a ≡ tree.throw_jump (seen token.entry) value (seen close.entry)) }
{
    let span = join(token.span, close.span);
    Boxed::new(alloc, Stmt::Jump(Jump::Throw(value.into_inner()), span))
}

pub fn catch_all(token: Token<'_>, body: Boxed<Block>) -> Catch
    ensures { result ≡ tree.catch_all (seen token.entry) body }
{
    let span = join(token.span, body.get().span);
    Catch {
        caught: None,
        body: body.into_inner(),
        span,
    }
}

pub fn catch_one(
    alloc: Global,
    token: Token<'_>,
    declared: TypeTree,
    name: Token<'_>,
    body: Boxed<Block>,
) -> Result<Catch, AllocError>
    ensures { IfOk result (λ a. a ≡ tree.catch_one (seen token.entry) declared (seen name.entry) body) }
{
    let span = join(token.span, body.get().span);
    let name = identifier(alloc, name)?;
    Ok(Catch {
        caught: Some(Caught { declared, name }),
        body: body.into_inner(),
        span,
    })
}

pub fn try_finally(
    alloc: Global,
    token: Token<'_>,
    body: Boxed<Block>,
    clauses: Items<Catch>,
    last: Boxed<Block>,
) -> Result<Boxed<Stmt>, AllocError>
    ensures { IfOk result (λ a. a ≡ tree.try_finally (seen token.entry) body clauses last) }
{
    let span = join(token.span, last.get().span);
    let tried = Try {
        body: body.into_inner(),
        clauses,
        last: Some(last.into_inner()),
    };
    Boxed::new(alloc, Stmt::Try(tried, span))
}
