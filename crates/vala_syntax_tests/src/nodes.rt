// A node of each kind, and the places that it stands on.

use sqlite_items::{Boxed, Items};
use std::alloc::{AllocError, Global};
use std::test::Fail;
use vala_grammar::{Arguments, Branches, Chain, Ended, ForHead, Last, Listed, Signs, Tested};
use vala_lexer::{Token, TokenKind};
use vala_nodes::brackets::{
    alone, bracketed_names, copied, lambda_code, lambda_value, signs_behind,
};
use vala_nodes::chains::{assigned, cast, conditional, joined, moved, prefixed, tested};
use vala_nodes::lists::{declared_locals, section, try_block};
use vala_nodes::names::{
    array_type, identifier, is_one_word, one_more_word, one_word, single_type, void_type,
};
use vala_nodes::operands::{
    argument, bracketed, call, constant, index, list_in_braces, marked_argument, member,
    member_word, name, named_argument, new_array, new_array_of, new_object, plain, step, yielded,
};
use vala_nodes::statements::{
    arm, begun, block, break_jump, catch_all, catch_one, continue_jump, declarator,
    declarator_with, do_loop, ended, expression, for_loop, foreach_loop, if_of, return_jump,
    switch, throw_jump, try_finally, while_loop, yield_jump,
};
use vala_tree::{Block, DeclaredType, Expr, ForStart, Label, Stmt};
use vg_base::Span;

fn at(start: u32) -> Span {
    Span {
        file: 0,
        start,
        end: start,
    }
}

fn token(kind: TokenKind, start: u32) -> Token<'static> {
    Token {
        kind,
        text: b"a",
        span: at(start),
    }
}

fn word(start: u32) -> Token<'static> {
    token(TokenKind::Identifier, start)
}

fn operand(alloc: Global, start: u32) -> Result<Boxed<Expr>, AllocError> {
    Boxed::new(alloc, Expr::This(at(start)))
}

fn chain(alloc: Global, start: u32) -> Result<Chain, AllocError> {
    Ok(plain(operand(alloc, start)?))
}

fn no_arguments(alloc: Global, close: u32) -> Arguments {
    Arguments {
        list: Items::new(alloc),
        close: at(close),
    }
}

fn no_items(alloc: Global, close: u32) -> Listed {
    Listed {
        list: Items::new(alloc),
        close: at(close),
    }
}

fn empty(alloc: Global, start: u32) -> Result<Ended, AllocError> {
    Ok(ended(Boxed::new(alloc, Stmt::Empty(at(start)))?))
}

fn braces(alloc: Global, first: u32, last: u32) -> Result<Boxed<Block>, AllocError> {
    block(
        alloc,
        token(TokenKind::OpenBrace, first),
        Items::new(alloc),
        token(TokenKind::CloseBrace, last),
    )
}

fn stands_on(span: Span, start: u32, end: u32) -> bool {
    span.start == start && span.end == end
}

#[test]
fn names_and_types(rt: HostRuntime) -> Result<(), Fail> {
    let alloc = rt.alloc();
    let name = one_more_word(alloc, one_word(alloc, word(1))?, word(3))?;
    assert!(rt; !is_one_word(&name));
    let span = array_type(None, name, Some(at(4)), at(6), None).span;
    assert!(rt; stands_on(span, 1, 6));
    let name = one_word(alloc, word(2))?;
    let span = single_type(Some(token(TokenKind::Owned, 1)), name, None).span;
    assert!(rt; stands_on(span, 1, 2));
    let span = void_type(None, token(TokenKind::Void, 7)).span;
    assert!(rt; stands_on(span, 7, 7));
    Ok(())
}

#[test]
fn words_as_operands(rt: HostRuntime) -> Result<(), Fail> {
    let alloc = rt.alloc();
    let span = constant(alloc, token(TokenKind::True, 2))?.get().span();
    assert!(rt; stands_on(span, 2, 2));
    let span = name(alloc, word(2))?.get().span();
    assert!(rt; stands_on(span, 2, 2));
    let span = member_word(alloc, operand(alloc, 2)?, word(4))?
        .get()
        .span();
    assert!(rt; stands_on(span, 2, 4));
    let word = identifier(alloc, word(6))?;
    let span = member(alloc, operand(alloc, 5)?, word)?.get().span();
    assert!(rt; stands_on(span, 5, 6));
    Ok(())
}

#[test]
fn what_follows_operands(rt: HostRuntime) -> Result<(), Fail> {
    let alloc = rt.alloc();
    let span = call(alloc, operand(alloc, 1)?, no_arguments(alloc, 3))?
        .get()
        .span();
    assert!(rt; stands_on(span, 1, 3));
    let close = token(TokenKind::CloseBracket, 4);
    let span = index(alloc, operand(alloc, 1)?, operand(alloc, 3)?, close)?
        .get()
        .span();
    assert!(rt; stands_on(span, 1, 4));
    let span = step(alloc, operand(alloc, 2)?, token(TokenKind::Increment, 5))?
        .get()
        .span();
    assert!(rt; stands_on(span, 2, 5));
    Ok(())
}

#[test]
fn what_holds_an_operand(rt: HostRuntime) -> Result<(), Fail> {
    let alloc = rt.alloc();
    let span = yielded(alloc, token(TokenKind::Yield, 2), operand(alloc, 5)?)?
        .get()
        .span();
    assert!(rt; stands_on(span, 2, 5));
    let span = bracketed(alloc, at(1), operand(alloc, 2)?, at(6))?
        .get()
        .span();
    assert!(rt; stands_on(span, 1, 6));
    Ok(())
}

#[test]
fn new_objects(rt: HostRuntime) -> Result<(), Fail> {
    let alloc = rt.alloc();
    let new = token(TokenKind::New, 1);
    let name = one_word(alloc, word(2))?;
    let span = new_object(alloc, new, name, no_arguments(alloc, 4))?
        .get()
        .span();
    assert!(rt; stands_on(span, 1, 4));
    let name = one_word(alloc, word(2))?;
    let span = new_array(alloc, new, name, None, None, at(4))?.get().span();
    assert!(rt; stands_on(span, 1, 4));
    let name = one_word(alloc, word(2))?;
    let span = new_array_of(alloc, new, name, None, None, no_items(alloc, 6))?
        .get()
        .span();
    assert!(rt; stands_on(span, 1, 6));
    let span = list_in_braces(alloc, token(TokenKind::OpenBrace, 1), no_items(alloc, 2))?
        .get()
        .span();
    assert!(rt; stands_on(span, 1, 2));
    Ok(())
}

#[test]
fn arguments(rt: HostRuntime) -> Result<(), Fail> {
    let alloc = rt.alloc();
    let span = argument(alloc, operand(alloc, 3)?)?.get().span;
    assert!(rt; stands_on(span, 3, 3));
    let span = named_argument(alloc, word(1), operand(alloc, 3)?)?
        .get()
        .span;
    assert!(rt; stands_on(span, 1, 3));
    let span = marked_argument(alloc, token(TokenKind::Out, 2), operand(alloc, 3)?)?
        .get()
        .span;
    assert!(rt; stands_on(span, 2, 3));
    Ok(())
}

#[test]
fn operands_with_signs(rt: HostRuntime) -> Result<(), Fail> {
    let alloc = rt.alloc();
    let span = prefixed(alloc, token(TokenKind::Minus, 4), chain(alloc, 5)?)?
        .value
        .get()
        .span();
    assert!(rt; stands_on(span, 4, 5));
    let opening = token(TokenKind::OpenParen, 1);
    let span = moved(alloc, opening, chain(alloc, 5)?)?.value.get().span();
    assert!(rt; stands_on(span, 1, 5));
    Ok(())
}

#[test]
fn a_cast(rt: HostRuntime) -> Result<(), Fail> {
    let alloc = rt.alloc();
    let opening = token(TokenKind::OpenParen, 1);
    let target = void_type(None, token(TokenKind::Void, 2));
    let span = cast(alloc, opening, target, chain(alloc, 5)?)?
        .value
        .get()
        .span();
    assert!(rt; stands_on(span, 1, 5));
    Ok(())
}

#[test]
fn a_sum(rt: HostRuntime) -> Result<(), Fail> {
    let alloc = rt.alloc();
    let span = joined(
        alloc,
        chain(alloc, 1)?,
        token(TokenKind::Plus, 2),
        chain(alloc, 3)?,
    )?
    .value
    .get()
    .span();
    assert!(rt; stands_on(span, 1, 3));
    Ok(())
}

#[test]
fn a_test_for_a_type(rt: HostRuntime) -> Result<(), Fail> {
    let alloc = rt.alloc();
    let right = Tested {
        tree: void_type(None, token(TokenKind::Void, 5)),
        last: Last::Plain,
    };
    let span = tested(alloc, chain(alloc, 1)?, token(TokenKind::Is, 4), right)?
        .value
        .get()
        .span();
    assert!(rt; stands_on(span, 1, 5));
    Ok(())
}

#[test]
fn a_choice_and_an_assignment(rt: HostRuntime) -> Result<(), Fail> {
    let alloc = rt.alloc();
    let span = conditional(
        alloc,
        operand(alloc, 1)?,
        operand(alloc, 3)?,
        operand(alloc, 5)?,
    )?
    .get()
    .span();
    assert!(rt; stands_on(span, 1, 5));
    let span = assigned(
        alloc,
        operand(alloc, 1)?,
        token(TokenKind::Assign, 2),
        operand(alloc, 3)?,
    )?
    .get()
    .span();
    assert!(rt; stands_on(span, 1, 3));
    Ok(())
}

#[test]
fn names_in_brackets(rt: HostRuntime) -> Result<(), Fail> {
    let alloc = rt.alloc();
    let name = one_word(alloc, word(2))?;
    assert!(rt; matches!(signs_behind(&name), Signs::Cast));
    let copy = copied(alloc, &name)?;
    let span = alone(alloc, copy)?.value.get().span();
    assert!(rt; stands_on(span, 2, 2));
    let span = bracketed_names(alloc, at(1), name, at(3))?
        .value
        .get()
        .span();
    assert!(rt; stands_on(span, 1, 3));
    Ok(())
}

#[test]
fn lambdas(rt: HostRuntime) -> Result<(), Fail> {
    let alloc = rt.alloc();
    let span = lambda_value(alloc, at(1), Items::new(alloc), operand(alloc, 4)?)?
        .get()
        .span();
    assert!(rt; stands_on(span, 1, 4));
    let span = lambda_code(alloc, at(1), Items::new(alloc), braces(alloc, 3, 6)?)?
        .get()
        .span();
    assert!(rt; stands_on(span, 1, 6));
    Ok(())
}

#[test]
fn a_declaration(rt: HostRuntime) -> Result<(), Fail> {
    let alloc = rt.alloc();
    let mut names = Items::new(alloc);
    names.push(declarator(alloc, word(2))?)?;
    names.push(declarator_with(alloc, word(3), operand(alloc, 5)?)?)?;
    let local = declared_locals(alloc, DeclaredType::Var, at(1), names)?;
    let span = begun(alloc, local, token(TokenKind::Semicolon, 6))?
        .get()
        .span();
    assert!(rt; stands_on(span, 1, 6));
    let span = expression(alloc, operand(alloc, 1)?, token(TokenKind::Semicolon, 2))?
        .get()
        .span();
    assert!(rt; stands_on(span, 1, 2));
    Ok(())
}

#[test]
fn choices_of_statements(rt: HostRuntime) -> Result<(), Fail> {
    let alloc = rt.alloc();
    let mut arms = Items::new(alloc);
    arms.push(arm(operand(alloc, 2)?, empty(alloc, 3)?))?;
    arms.push(arm(operand(alloc, 5)?, empty(alloc, 6)?))?;
    let branches = Branches {
        arms,
        no: None,
        is_open: true,
        end: at(6),
    };
    let choice = if_of(alloc, token(TokenKind::If, 1), branches)?;
    assert!(rt; choice.is_open);
    assert!(rt; stands_on(choice.statement.get().span(), 1, 6));
    Ok(())
}

#[test]
fn loops(rt: HostRuntime) -> Result<(), Fail> {
    let alloc = rt.alloc();
    let word = token(TokenKind::While, 1);
    let span = while_loop(alloc, word, operand(alloc, 2)?, empty(alloc, 3)?)?
        .statement
        .get()
        .span();
    assert!(rt; stands_on(span, 1, 3));
    let close = token(TokenKind::Semicolon, 5);
    let span = do_loop(alloc, word, empty(alloc, 2)?, operand(alloc, 4)?, close)?
        .get()
        .span();
    assert!(rt; stands_on(span, 1, 5));
    let head = ForHead {
        start: Boxed::new(alloc, ForStart::Exprs(Items::new(alloc)))?,
        test: None,
        steps: Items::new(alloc),
    };
    let span = for_loop(alloc, word, head, empty(alloc, 4)?)?
        .statement
        .get()
        .span();
    assert!(rt; stands_on(span, 1, 4));
    Ok(())
}

#[test]
fn a_loop_over_items(rt: HostRuntime) -> Result<(), Fail> {
    let alloc = rt.alloc();
    let span = foreach_loop(
        alloc,
        token(TokenKind::Foreach, 1),
        DeclaredType::Var,
        word(3),
        operand(alloc, 4)?,
        empty(alloc, 5)?,
    )?
    .statement
    .get()
    .span();
    assert!(rt; stands_on(span, 1, 5));
    Ok(())
}

#[test]
fn a_switch(rt: HostRuntime) -> Result<(), Fail> {
    let alloc = rt.alloc();
    let mut statements = Items::new(alloc);
    statements.push(Stmt::Empty(at(4)))?;
    let first = Boxed::new(alloc, Label::Default(at(3)))?;
    let span = section(alloc, first, Items::new(alloc), statements)?.span;
    assert!(rt; stands_on(span, 3, 4));
    let close = token(TokenKind::CloseBrace, 5);
    let word = token(TokenKind::Switch, 1);
    let span = switch(alloc, word, operand(alloc, 2)?, Items::new(alloc), close)?
        .get()
        .span();
    assert!(rt; stands_on(span, 1, 5));
    Ok(())
}

#[test]
fn jumps(rt: HostRuntime) -> Result<(), Fail> {
    let alloc = rt.alloc();
    let word = token(TokenKind::Break, 1);
    let close = token(TokenKind::Semicolon, 3);
    assert!(rt; stands_on(break_jump(alloc, word, close)?.get().span(), 1, 3));
    assert!(rt; stands_on(continue_jump(alloc, word, close)?.get().span(), 1, 3));
    assert!(rt; stands_on(yield_jump(alloc, word, close)?.get().span(), 1, 3));
    assert!(rt; stands_on(return_jump(alloc, word, None, close)?.get().span(), 1, 3));
    assert!(rt;
        stands_on(
            throw_jump(alloc, word, operand(alloc, 2)?, close)?
                .get()
                .span(),
            1,
            3
        )
    );
    Ok(())
}

#[test]
fn errors(rt: HostRuntime) -> Result<(), Fail> {
    let alloc = rt.alloc();
    let declared = void_type(None, token(TokenKind::Void, 5));
    let catch = token(TokenKind::Catch, 4);
    let mut clauses = Items::new(alloc);
    clauses.push(catch_one(alloc, catch, declared, word(6), braces(alloc, 7, 8)?)?)?;
    let first = token(TokenKind::Try, 1);
    let span = try_block(alloc, first, braces(alloc, 2, 3)?, clauses)?
        .get()
        .span();
    assert!(rt; stands_on(span, 1, 8));
    let mut clauses = Items::new(alloc);
    clauses.push(catch_all(catch, braces(alloc, 5, 6)?))?;
    let last = braces(alloc, 8, 9)?;
    let span = try_finally(alloc, first, braces(alloc, 2, 3)?, clauses, last)?
        .get()
        .span();
    assert!(rt; stands_on(span, 1, 9));
    Ok(())
}
