// Parameters.

ghost use Rattle.std.specs.Prelude.{◌≡◌, ◌<◌, ◌≤◌, IsOk, length};
ghost use Rattle.vala_cursor.specs.Ahead.{rest, stop};
ghost use Rattle.vala_cursor.specs.Gets.{Gets};
ghost use Rattle.vala_nodes.specs.Seen.{seen_option};
ghost use Rattle.vala_file_grammar.specs.Parts as part;
ghost use Rattle.vala_file_grammar.specs.Read.{file_reader};
ghost use Rattle.vala_parse.specs.Views.{owner_in};

use crate::code;
use crate::next::{expect, expect_among, expect_item, is_next, is_next_among};
use crate::places::Owner;
use sqlite_items::Items;
use std::alloc::Global;
use vala_cursor::{Cursor, Flaw, Stop};
use vala_declaration_nodes as nodes;
use vala_grammar::Sort;
use vala_lexer::Token;
use vala_tree::{Parameter, TypeTree};

/// What follows `(`, up to `)`.
#[tactic(auto, using(crate::proofs::ParameterLaws::parameters_law, vala_cursor::proofs::Steps::just))]
pub fn parameters(
    alloc: Global,
    cursor: &mut Cursor<'_>,
    level: u32,
    owner: Owner,
) -> Result<Items<Parameter>, Stop>
    requires low { level ≤ 201 }
    ensures tree { Gets (file_reader (part.Parameters (owner_in owner)) level (rest cursor.old)) result (rest cursor.new) }
    ensures kept { stop cursor.new ≡ stop cursor.old }
{
    let mut list = Items::new(alloc);
    if is_next(cursor, Sort::CloseParen) {
        expect(cursor, Sort::CloseParen, level)?;
        return Ok(list);
    }
    list.push(parameter(alloc, cursor, level, owner)?)?;
    more_parameters(alloc, cursor, level, owner, list)
}

/// A parameter of a list, which has a token.
#[tactic(auto, using(crate::proofs::Progress::parameter_moves))]
fn listed_parameter(
    alloc: Global,
    cursor: &mut Cursor<'_>,
    level: u32,
    owner: Owner,
) -> Result<Parameter, Stop>
    requires low { level ≤ 201 }
    ensures tree { Gets (file_reader (part.ParameterOf (owner_in owner)) level (rest cursor.old)) result (rest cursor.new) }
    ensures kept { stop cursor.new ≡ stop cursor.old }
    ensures shorter { IsOk result → length (rest cursor.new) < length (rest cursor.old) }
{
    let parameter = parameter(alloc, cursor, level, owner)?;
    Ok(parameter)
}

#[tactic(auto, using(crate::proofs::ParameterLaws::more_parameters_law, vala_cursor::proofs::Steps::just))]
fn more_parameters(
    alloc: Global,
    cursor: &mut Cursor<'_>,
    level: u32,
    owner: Owner,
    first: Items<Parameter>,
) -> Result<Items<Parameter>, Stop>
    requires low { level ≤ 201 }
    ensures tree { Gets (file_reader (part.MoreParameters (owner_in owner) first) level (rest cursor.old)) result (rest cursor.new) }
    ensures kept { stop cursor.new ≡ stop cursor.old }
{
    let mut list = first;
    'items: while is_next(cursor, Sort::Comma) {
        expect_item(cursor, Sort::Comma, list.len(), level)?;
        list.push(listed_parameter(alloc, cursor, level, owner)?)?;
    }
    expect(cursor, Sort::CloseParen, level)?;
    Ok(list)
}

fn parameter(
    alloc: Global,
    cursor: &mut Cursor<'_>,
    level: u32,
    owner: Owner,
) -> Result<Parameter, Stop>
    requires low { level ≤ 201 }
    ensures tree { Gets (file_reader (part.ParameterOf (owner_in owner)) level (rest cursor.old)) result (rest cursor.new) }
    ensures kept { stop cursor.new ≡ stop cursor.old }
{
    match owner {
        Owner::Plain => plain_parameter(alloc, cursor, level),
        Owner::Async => async_parameter(alloc, cursor, level),
        Owner::Signal => signal_parameter(alloc, cursor, level),
    }
}

#[tactic(auto, using(crate::proofs::ParameterLaws::plain_law, vala_cursor::proofs::Steps::just))]
fn plain_parameter(alloc: Global, cursor: &mut Cursor<'_>, level: u32) -> Result<Parameter, Stop>
    requires low { level ≤ 201 }
    ensures tree { Gets (file_reader (part.ParameterOf part.Plain) level (rest cursor.old)) result (rest cursor.new) }
    ensures kept { stop cursor.new ≡ stop cursor.old }
{
    if is_next_among(cursor, &[Sort::Out, Sort::Ref]) {
        let mark = expect_among(cursor, &[Sort::Out, Sort::Ref], level)?;
        return typed_parameter(alloc, cursor, level, Some(mark));
    }
    typed_parameter(alloc, cursor, level, None)
}

#[tactic(auto, using(crate::proofs::ParameterLaws::async_law, vala_cursor::proofs::Steps::just))]
fn async_parameter(alloc: Global, cursor: &mut Cursor<'_>, level: u32) -> Result<Parameter, Stop>
    requires low { level ≤ 201 }
    ensures tree { Gets (file_reader (part.ParameterOf part.Async) level (rest cursor.old)) result (rest cursor.new) }
    ensures kept { stop cursor.new ≡ stop cursor.old }
{
    if is_next_among(cursor, &[Sort::Out, Sort::Ref]) {
        return Err(Stop::Flawed(Flaw::LeftOut));
    }
    typed_parameter(alloc, cursor, level, None)
}

#[tactic(auto, using(crate::proofs::ParameterLaws::signal_law, vala_cursor::proofs::Steps::just))]
fn signal_parameter(alloc: Global, cursor: &mut Cursor<'_>, level: u32) -> Result<Parameter, Stop>
    requires low { level ≤ 201 }
    ensures tree { Gets (file_reader (part.ParameterOf part.Signal) level (rest cursor.old)) result (rest cursor.new) }
    ensures kept { stop cursor.new ≡ stop cursor.old }
{
    if is_next_among(cursor, &[Sort::Out, Sort::Ref, Sort::Owned]) {
        return Err(Stop::Flawed(Flaw::LeftOut));
    }
    if is_next(cursor, Sort::Unowned) {
        let word = expect(cursor, Sort::Unowned, level)?;
        let declared = code::type_body(alloc, cursor, level, Some(word))?;
        return named_parameter(alloc, cursor, level, None, declared);
    }
    let declared = code::type_body(alloc, cursor, level, None)?;
    named_parameter(alloc, cursor, level, None, declared)
}

#[tactic(auto, using(crate::proofs::ParameterLaws::typed_law, vala_cursor::proofs::Steps::just))]
fn typed_parameter(
    alloc: Global,
    cursor: &mut Cursor<'_>,
    level: u32,
    mark: Option<Token<'_>>,
) -> Result<Parameter, Stop>
    requires low { level ≤ 201 }
    ensures tree { Gets (file_reader (part.ParameterType (seen_option mark.entry)) level (rest cursor.old)) result (rest cursor.new) }
    ensures kept { stop cursor.new ≡ stop cursor.old }
{
    let declared = code::any_type(alloc, cursor, level)?;
    named_parameter(alloc, cursor, level, mark, declared)
}

#[tactic(auto, using(crate::proofs::ParameterLaws::named_law))]
fn named_parameter(
    alloc: Global,
    cursor: &mut Cursor<'_>,
    level: u32,
    mark: Option<Token<'_>>,
    declared: TypeTree,
) -> Result<Parameter, Stop>
    requires low { level ≤ 201 }
    ensures tree { Gets (file_reader (part.ParameterName (seen_option mark.entry) declared) level (rest cursor.old)) result (rest cursor.new) }
    ensures kept { stop cursor.new ≡ stop cursor.old }
{
    if is_next_among(cursor, &[Sort::Star, Sort::Less]) {
        return Err(Stop::Flawed(Flaw::LeftOut));
    }
    let name = expect(cursor, Sort::Identifier, level)?;
    if is_next(cursor, Sort::Assign) {
        expect(cursor, Sort::Assign, level)?;
        let value = code::whole(alloc, cursor, level)?;
        return Ok(nodes::parameter_with(alloc, mark, declared, name, value)?);
    }
    Ok(nodes::parameter(alloc, mark, declared, name)?)
}
