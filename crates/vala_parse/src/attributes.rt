// Attributes.

ghost use Rattle.std.specs.Prelude.{◌≡◌, [], ◌<◌, length, IsOk};
ghost use Rattle.vala_cursor.specs.Ahead.{rest, stop};
ghost use Rattle.vala_cursor.specs.Gets.{Gets, seen};
ghost use Rattle.vala_file_grammar.specs.Parts as part;
ghost use Rattle.vala_file_grammar.specs.Read.{file_reader};
ghost use Rattle.vala_parse.specs.Declarations.{argument_of, c_name_of, file_name_of};

use crate::next::{expect, is_next};
use crate::words::{expect_c_text, expect_word, is_other_argument, is_other_attribute, is_word};
use sqlite_items::Items;
use std::alloc::Global;
use vala_cursor::{Cursor, Flaw, Stop};
use vala_declaration_nodes as nodes;
use vala_file_grammar::Special;
use vala_grammar::Sort;
use vala_lexer::Token;
use vala_tree::{Attribute, AttributeArgument};

/// `[CCode (..)]`
#[tactic(auto, using(crate::proofs::AttributeLaws::attribute_law, vala_cursor::proofs::Steps::just))]
pub fn attribute(alloc: Global, cursor: &mut Cursor<'_>, level: u32) -> Result<Attribute, Stop>
    ensures tree { Gets (file_reader part.AttributeOf level (rest cursor.old)) result (rest cursor.new) }
    ensures kept { stop cursor.new ≡ stop cursor.old }
{
    let opening = expect(cursor, Sort::OpenBracket, level)?;
    attribute_body(alloc, cursor, level + 1, opening)
}

#[tactic(auto, using(crate::proofs::AttributeLaws::attribute_body_law))]
fn attribute_body(
    alloc: Global,
    cursor: &mut Cursor<'_>,
    level: u32,
    opening: Token<'_>,
) -> Result<Attribute, Stop>
    ensures tree { Gets (file_reader (part.AttributeBody (seen opening.entry)) level (rest cursor.old)) result (rest cursor.new) }
    ensures kept { stop cursor.new ≡ stop cursor.old }
{
    if is_other_attribute(cursor) {
        return Err(Stop::Flawed(Flaw::LeftOut));
    }
    expect_word(cursor, Special::CCode, level)?;
    expect(cursor, Sort::OpenParen, level)?;
    let arguments = arguments(alloc, cursor, level + 1)?;
    let close = expect(cursor, Sort::CloseBracket, level)?;
    Ok(nodes::attribute(opening, arguments, close))
}

#[tactic(auto, using(crate::proofs::AttributeLaws::arguments_law, crate::proofs::AttributeLaws::more_arguments_law, vala_cursor::proofs::Steps::just))]
fn arguments(
    alloc: Global,
    cursor: &mut Cursor<'_>,
    level: u32,
) -> Result<Items<AttributeArgument>, Stop>
    ensures tree { Gets (file_reader (part.AttributeArguments []) level (rest cursor.old)) result (rest cursor.new) }
    ensures kept { stop cursor.new ≡ stop cursor.old }
{
    let mut list = Items::new(alloc);
    list.push(argument(alloc, cursor, level)?)?;
    'arguments: while is_next(cursor, Sort::Comma) {
        expect(cursor, Sort::Comma, level)?;
        list.push(argument(alloc, cursor, level)?)?;
    }
    expect(cursor, Sort::CloseParen, level)?;
    Ok(list)
}

#[tactic(auto, unfolding(crate::specs::Declarations::argument_of))]
fn argument(alloc: Global, cursor: &mut Cursor<'_>, level: u32) -> Result<AttributeArgument, Stop>
    ensures tree { Gets (argument_of level (rest cursor.old)) result (rest cursor.new) }
    ensures kept { stop cursor.new ≡ stop cursor.old }
    ensures shorter { IsOk result → length (rest cursor.new) < length (rest cursor.old) }
{
    if is_other_argument(cursor) {
        return Err(Stop::Flawed(Flaw::LeftOut));
    }
    if is_word(cursor, Special::HeaderFilename) {
        let name = expect_word(cursor, Special::HeaderFilename, level)?;
        return file_name(alloc, cursor, level, name);
    }
    let name = expect_word(cursor, Special::CName, level)?;
    c_name(alloc, cursor, level, name)
}

#[tactic(auto, unfolding(crate::specs::Declarations::file_name_of))]
fn file_name(
    alloc: Global,
    cursor: &mut Cursor<'_>,
    level: u32,
    name: Token<'_>,
) -> Result<AttributeArgument, Stop>
    ensures tree { Gets (file_name_of (seen name.entry) level (rest cursor.old)) result (rest cursor.new) }
    ensures kept { stop cursor.new ≡ stop cursor.old }
    ensures shorter { IsOk result → length (rest cursor.new) < length (rest cursor.old) }
{
    expect(cursor, Sort::Assign, level)?;
    let text = expect(cursor, Sort::Text, level)?;
    Ok(nodes::attribute_argument(alloc, name, text)?)
}

#[tactic(auto, unfolding(crate::specs::Declarations::c_name_of))]
fn c_name(
    alloc: Global,
    cursor: &mut Cursor<'_>,
    level: u32,
    name: Token<'_>,
) -> Result<AttributeArgument, Stop>
    ensures tree { Gets (c_name_of (seen name.entry) level (rest cursor.old)) result (rest cursor.new) }
    ensures kept { stop cursor.new ≡ stop cursor.old }
    ensures shorter { IsOk result → length (rest cursor.new) < length (rest cursor.old) }
{
    expect(cursor, Sort::Assign, level)?;
    let text = expect_c_text(alloc, cursor, level)?;
    Ok(nodes::attribute_argument(alloc, name, text)?)
}
