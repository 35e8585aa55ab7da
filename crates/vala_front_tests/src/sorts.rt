// The sorts of some tokens.

use std::test::Fail;
use vala_grammar::{Sort, sort_of, texts_are_read_exactly, texts_have_one_tree};
use vala_lexer::TokenKind;

#[test]
fn sorts_tokens(rt: HostRuntime) -> Result<(), Fail> {
    let cases = [
        (TokenKind::Identifier, Sort::Identifier),
        (TokenKind::Null, Sort::Literal),
        (TokenKind::Weak, Sort::Unowned),
        (TokenKind::As, Sort::TypeTest),
        (TokenKind::Less, Sort::Less),
        (TokenKind::GreaterEqual, Sort::Relation),
        (TokenKind::ShiftRightAssign, Sort::Update),
        (TokenKind::Delete, Sort::LeftOut),
    ];
    for (kind, sort) in cases {
        assert_eq!(rt; sort_of(kind) == sort, true);
    }
    texts_are_read_exactly();
    texts_have_one_tree();
    Ok(())
}
