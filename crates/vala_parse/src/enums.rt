// Enums and error domains.

ghost use Rattle.std.specs.Prelude.{◌≡◌, ◌≤◌, [], ◌<◌, length, IsOk};
ghost use Rattle.vala_cursor.specs.Ahead.{rest, stop};
ghost use Rattle.vala_cursor.specs.Gets.{Gets, Gives, seen};
ghost use Rattle.vala_declaration_nodes.specs.Views.{closed_of, declared_of};
ghost use Rattle.vala_file_grammar.specs.Parts as part;
ghost use Rattle.vala_file_grammar.specs.Read.{file_reader};
ghost use Rattle.vala_parse.specs.Declarations.{error_code_of};

use crate::code;
use crate::next::{expect, is_next};
use sqlite_items::Items;
use std::alloc::Global;
use vala_cursor::{Cursor, Stop};
use vala_declaration_nodes as nodes;
use vala_declaration_nodes::{Closed, Declared};
use vala_grammar::Sort;
use vala_lexer::Token;
use vala_nodes::names::identifier;
use vala_tree::{EnumMember, Identifier};

/// What follows `enum`.
#[tactic(auto, using(crate::proofs::EnumLaws::enumeration_law))]
pub fn enumeration(
    alloc: Global,
    cursor: &mut Cursor<'_>,
    level: u32,
    token: Token<'_>,
) -> Result<Declared, Stop>
    ensures tree { Gives declared_of (file_reader (part.EnumOf (seen token.entry)) level (rest cursor.old)) result (rest cursor.new) }
    ensures kept { stop cursor.new ≡ stop cursor.old }
{
    let name = code::name(alloc, cursor, level)?;
    expect(cursor, Sort::OpenBrace, level)?;
    let members = enum_members(alloc, cursor, level + 1)?;
    Ok(nodes::enumeration(token, name, members))
}

#[tactic(auto, using(crate::proofs::EnumLaws::enum_items_law, crate::proofs::EnumLaws::more_enum_items_law, vala_cursor::proofs::Steps::just))]
fn enum_members(
    alloc: Global,
    cursor: &mut Cursor<'_>,
    level: u32,
) -> Result<Closed<EnumMember>, Stop>
    requires low { level ≤ 201 }
    ensures tree { Gives closed_of (file_reader (part.EnumItems []) level (rest cursor.old)) result (rest cursor.new) }
    ensures kept { stop cursor.new ≡ stop cursor.old }
{
    let mut list = Items::new(alloc);
    'members: while !is_next(cursor, Sort::CloseBrace) {
        list.push(listed_member(alloc, cursor, level)?)?;
        if !is_next(cursor, Sort::Comma) {
            let close = expect(cursor, Sort::CloseBrace, level)?.span;
            return Ok(Closed { list, close });
        }
        expect(cursor, Sort::Comma, level)?;
    }
    let close = expect(cursor, Sort::CloseBrace, level)?.span;
    Ok(Closed { list, close })
}

/// A member of a list, which has a token.
#[tactic(auto, using(crate::proofs::Progress::enum_member_moves))]
fn listed_member(alloc: Global, cursor: &mut Cursor<'_>, level: u32) -> Result<EnumMember, Stop>
    requires low { level ≤ 201 }
    ensures tree { Gets (file_reader part.EnumItem level (rest cursor.old)) result (rest cursor.new) }
    ensures kept { stop cursor.new ≡ stop cursor.old }
    ensures shorter { IsOk result → length (rest cursor.new) < length (rest cursor.old) }
{
    let member = enum_member(alloc, cursor, level)?;
    Ok(member)
}

#[tactic(auto, using(crate::proofs::EnumLaws::enum_item_law))]
fn enum_member(alloc: Global, cursor: &mut Cursor<'_>, level: u32) -> Result<EnumMember, Stop>
    requires low { level ≤ 201 }
    ensures tree { Gets (file_reader part.EnumItem level (rest cursor.old)) result (rest cursor.new) }
    ensures kept { stop cursor.new ≡ stop cursor.old }
{
    let name = expect(cursor, Sort::Identifier, level)?;
    if is_next(cursor, Sort::Assign) {
        expect(cursor, Sort::Assign, level)?;
        let value = code::whole(alloc, cursor, level)?;
        return Ok(nodes::enum_member_with(alloc, name, value)?);
    }
    Ok(nodes::enum_member(alloc, name)?)
}

/// What follows `errordomain`.
#[tactic(auto, using(crate::proofs::EnumLaws::error_domain_law))]
pub fn error_domain(
    alloc: Global,
    cursor: &mut Cursor<'_>,
    level: u32,
    token: Token<'_>,
) -> Result<Declared, Stop>
    ensures tree { Gives declared_of (file_reader (part.ErrorsOf (seen token.entry)) level (rest cursor.old)) result (rest cursor.new) }
    ensures kept { stop cursor.new ≡ stop cursor.old }
{
    let name = code::name(alloc, cursor, level)?;
    expect(cursor, Sort::OpenBrace, level)?;
    let codes = codes(alloc, cursor, level + 1)?;
    Ok(nodes::error_domain(token, name, codes))
}

#[tactic(auto, unfolding(crate::specs::Declarations::error_code_of))]
fn error_code(alloc: Global, cursor: &mut Cursor<'_>, level: u32) -> Result<Identifier, Stop>
    ensures tree { Gets (error_code_of level (rest cursor.old)) result (rest cursor.new) }
    ensures kept { stop cursor.new ≡ stop cursor.old }
    ensures shorter { IsOk result → length (rest cursor.new) < length (rest cursor.old) }
{
    let token = expect(cursor, Sort::Identifier, level)?;
    Ok(identifier(alloc, token)?)
}

#[tactic(auto, using(crate::proofs::EnumLaws::codes_law, crate::proofs::EnumLaws::more_codes_law, crate::proofs::EnumLaws::next_code_law, vala_cursor::proofs::Steps::just))]
fn codes(alloc: Global, cursor: &mut Cursor<'_>, level: u32) -> Result<Closed<Identifier>, Stop>
    ensures tree { Gives closed_of (file_reader (part.ErrorCodes []) level (rest cursor.old)) result (rest cursor.new) }
    ensures kept { stop cursor.new ≡ stop cursor.old }
{
    let mut list = Items::new(alloc);
    list.push(error_code(alloc, cursor, level)?)?;
    'codes: while is_next(cursor, Sort::Comma) {
        expect(cursor, Sort::Comma, level)?;
        if is_next(cursor, Sort::CloseBrace) {
            let close = expect(cursor, Sort::CloseBrace, level)?.span;
            return Ok(Closed { list, close });
        }
        list.push(error_code(alloc, cursor, level)?)?;
    }
    let close = expect(cursor, Sort::CloseBrace, level)?.span;
    Ok(Closed { list, close })
}
