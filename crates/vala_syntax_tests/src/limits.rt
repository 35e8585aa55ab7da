// Long texts: as many brackets, arguments and `else if` as there may be, and more.

use crate::shapes::{told_block, told_expr};
use std::alloc::{AllocError, Global};
use std::test::Fail;
use vala_lexer::Lexer;
use vala_parse_expr::{parse_block, parse_expr};
use vala_tree::{Block, Selection, Stmt};

/// The first text, so many times the second, and the third.
fn repeated(
    alloc: Global,
    first: &str,
    part: &str,
    times: usize,
    last: &str,
) -> Result<String, AllocError> {
    let mut text = String::new(alloc);
    text.push_str(first)?;
    for _ in 0..times {
        text.push_str(part)?;
    }
    text.push_str(last)?;
    Ok(text)
}

#[test]
fn brackets_nest_as_far_as_levels_go(rt: HostRuntime) -> Result<(), Fail> {
    let text = repeated(rt.alloc(), "", "(", 100_000, "")?;
    if text.len() > 1_000_000 {
        return Ok(());
    }
    let mut lexer = Lexer::new(text.as_bytes(), 0);
    let answer = parse_expr(rt.alloc(), &mut lexer, 0);
    assert_eq!(rt; told_expr(rt.alloc(), answer)?.as_str(), "S2 201-202");
    Ok(())
}

#[test]
fn blocks_nest_as_far_as_levels_go(rt: HostRuntime) -> Result<(), Fail> {
    let text = repeated(rt.alloc(), "", "{", 100_000, "")?;
    if text.len() > 1_000_000 {
        return Ok(());
    }
    let mut lexer = Lexer::new(text.as_bytes(), 0);
    let answer = parse_block(rt.alloc(), &mut lexer, 0);
    assert_eq!(rt; told_block(rt.alloc(), answer)?.as_str(), "S2 201-202");
    Ok(())
}

fn told_call(alloc: Global, arguments: usize) -> Result<String, AllocError> {
    let text = repeated(alloc, "f (", "a, ", arguments, "a)")?;
    if text.len() > 1_000_000 {
        return Ok(text);
    }
    let mut lexer = Lexer::new(text.as_bytes(), 0);
    told_expr(alloc, parse_expr(alloc, &mut lexer, 0))
}

#[test]
fn a_call_has_two_hundred_arguments_at_most(rt: HostRuntime) -> Result<(), Fail> {
    assert_eq!(rt; told_call(rt.alloc(), 199)?.as_str(), "call(name) 0-602");
    assert_eq!(rt; told_call(rt.alloc(), 200)?.as_str(), "M5 601-602");
    Ok(())
}

/// How many conditions the first statement has, if it is an `if`.
fn arms(block: &Block) -> usize {
    match block.statements.as_slice() {
        [Stmt::Selection(Selection::If(choice), _), ..] => choice.arms.len(),
        _ => 0,
    }
}

#[test]
fn a_chain_of_else_if_is_as_long_as_it_is(rt: HostRuntime) -> Result<(), Fail> {
    let text = repeated(rt.alloc(), "{", "if(a);else ", 90_000, ";}")?;
    if text.len() > 1_000_000 {
        return Ok(());
    }
    let mut lexer = Lexer::new(text.as_bytes(), 0);
    let length = match parse_block(rt.alloc(), &mut lexer, 198) {
        Ok(block) => arms(&block),
        Err(_) => 0,
    };
    assert_eq!(rt; length, 90_000);
    Ok(())
}
