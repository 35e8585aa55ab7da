// Tokens that are taken one by one, and the limits before them.

use std::test::Fail;
use vala_cursor::{Cursor, Flaw, Stop};
use vala_grammar::Sort;
use vala_lexer::{Lexer, Token};

fn answered(answer: Result<Token<'_>, Stop>) -> &'static str {
    match answer {
        Ok(_) => "taken",
        Err(Stop::Memory) => "memory",
        Err(Stop::Flawed(Flaw::Syntax)) => "syntax",
        Err(Stop::Flawed(Flaw::LeftOut)) => "left out",
        Err(Stop::Flawed(Flaw::Earlier(..))) => "earlier",
        Err(Stop::Flawed(Flaw::Nesting)) => "nesting",
        Err(Stop::Flawed(Flaw::Number)) => "number",
    }
}

#[test]
fn tokens_are_taken_in_order(rt: HostRuntime) -> Result<(), Fail> {
    let mut cursor = Cursor::new(Lexer::new(b"a . @if ?? weak", 0));
    assert_eq!(rt; cursor.is(Sort::Identifier), true);
    assert_eq!(rt; answered(cursor.expect(Sort::Dot, 0)), "syntax");
    assert_eq!(rt; answered(cursor.expect(Sort::Identifier, 0)), "taken");
    assert_eq!(rt; answered(cursor.expect(Sort::Dot, 0)), "taken");
    assert_eq!(rt; answered(cursor.expect(Sort::Identifier, 0)), "taken");
    assert_eq!(rt;
        answered(cursor.take_among(&[Sort::Question, Sort::Coalesce], 0)),
        "taken"
    );
    assert_eq!(rt; cursor.is_among(&[Sort::Owned, Sort::Unowned]), true);
    assert_eq!(rt; answered(cursor.expect(Sort::Unowned, 0)), "taken");
    assert_eq!(rt; answered(cursor.expect(Sort::Identifier, 0)), "syntax");
    Ok(())
}

#[test]
fn limits_are_exact(rt: HostRuntime) -> Result<(), Fail> {
    let mut cursor = Cursor::new(Lexer::new(b", , ,", 0));
    assert_eq!(rt; answered(cursor.expect(Sort::Comma, 201)), "nesting");
    assert_eq!(rt; answered(cursor.expect(Sort::Comma, 200)), "taken");
    assert_eq!(rt; answered(cursor.expect_item(Sort::Comma, 200, 0)), "number");
    assert_eq!(rt; answered(cursor.expect_item(Sort::Comma, 199, 0)), "taken");
    assert_eq!(rt; cursor.is(Sort::Comma), true);
    Ok(())
}
