// Calls of functions of the library that have no code.

ghost use Rattle.std.specs.Prelude.{◌≡◌, map, is_none};
ghost use Rattle.std.specs.Option.{option_map};
ghost use Rattle.c_code.specs.Statements.{has_code};
ghost use Rattle.c_resolver.specs.Plans as spec;

use crate::library::library_code;
use c_tree::{Block, Callee, Span, Stmt};

fn missing_callee(callee: &Callee) -> Option<Span>
    ensures { is_none result ≡ has_code callee.now }
{
    match callee {
        Callee::Value(_) => None,
        Callee::Row(name) => match library_code(name.text.as_slice()) {
            None => Some(name.span),
            Some(_) => None,
        },
    }
}

/// Where a block calls a function that has no code, if it does.
#[cycle(missing)]
pub fn missing_block(block: &Block) -> Option<Span>
    ensures { is_none result ≡ spec.calls_have_code block.now }
{
    missing_stmts(block.body.as_slice())
}

#[cycle(missing)]
fn missing_stmts(stmts: &[Stmt]) -> Option<Span>
    ensures { is_none result ≡ spec.every (map spec.calls_in_have_code stmts.now) }
{
    for stmt in stmts {
        if let Some(span) = missing_stmt(stmt) {
            return Some(span);
        }
    }
    None
}

#[cycle(missing)]
fn missing_stmt(stmt: &Stmt) -> Option<Span>
    ensures { is_none result ≡ spec.calls_in_have_code stmt.now }
{
    match stmt {
        Stmt::Call(call) => missing_callee(&call.callee),
        Stmt::Store(_, call) => missing_callee(&call.callee),
        Stmt::If(_, block, other) => match missing_block(block) {
            None => missing_else(other),
            Some(span) => Some(span),
        },
        Stmt::Block(block) => missing_block(block),
        _ => None,
    }
}

#[cycle(missing)]
fn missing_else(block: &Option<Block>) -> Option<Span>
    ensures { is_none result ≡ spec.else_has_code (option_map spec.calls_have_code block.now) }
{
    match block {
        None => None,
        Some(block) => missing_block(block),
    }
}
