// Structs and their fields.

ghost use Rattle.std.specs.Prelude.{◌≡◌, ◌<◌, [], IsOk, length};
ghost use Rattle.vala_cursor.specs.Ahead.{rest, stop};
ghost use Rattle.vala_cursor.specs.Gets.{Gets, Gives, seen};
ghost use Rattle.vala_declaration_nodes.specs.Views.{closed_of, declared_of};
ghost use Rattle.vala_file_grammar.specs.Parts as part;
ghost use Rattle.vala_file_grammar.specs.Read.{file_reader};
ghost use Rattle.vala_parse.specs.Declarations.{field_behind, field_named};
ghost use Rattle.vala_parse.specs.Steps.{reads};

use crate::code;
use crate::heads::may_follow_in_struct;
use crate::next::{expect, is_next, is_next_among};
use sqlite_items::Items;
use std::alloc::Global;
use vala_cursor::{Cursor, Flaw, Stop};
use vala_declaration_nodes as nodes;
use vala_declaration_nodes::{Closed, Declared, member, modifier};
use vala_grammar::Sort;
use vala_lexer::Token;
use vala_tree::{Member, Modifier, TypeTree};

/// What follows `struct`.
#[tactic(auto, using(crate::proofs::FieldLaws::structure_law))]
pub fn structure(
    alloc: Global,
    cursor: &mut Cursor<'_>,
    level: u32,
    token: Token<'_>,
) -> Result<Declared, Stop>
    ensures tree { Gives declared_of (file_reader (part.StructOf (seen token.entry)) level (rest cursor.old)) result (rest cursor.new) }
    ensures kept { stop cursor.new ≡ stop cursor.old }
{
    let name = code::name(alloc, cursor, level)?;
    expect(cursor, Sort::OpenBrace, level)?;
    let fields = fields(alloc, cursor, level + 1)?;
    Ok(nodes::structure(token, name, fields))
}

#[tactic(auto, using(crate::proofs::FieldLaws::fields_law, vala_cursor::proofs::Steps::just))]
fn fields(alloc: Global, cursor: &mut Cursor<'_>, level: u32) -> Result<Closed<Member>, Stop>
    ensures tree { Gives closed_of (file_reader (part.Fields []) level (rest cursor.old)) result (rest cursor.new) }
    ensures kept { stop cursor.new ≡ stop cursor.old }
{
    let mut list = Items::new(alloc);
    'fields: while !is_next(cursor, Sort::New) {
        if is_next(cursor, Sort::CloseBrace) {
            let close = expect(cursor, Sort::CloseBrace, level)?.span;
            return Ok(Closed { list, close });
        }
        list.push(listed_field(alloc, cursor, level)?)?;
    }
    Err(Stop::Flawed(Flaw::LeftOut))
}

/// A field of a list, which has a token.
#[tactic(auto, using(crate::proofs::Progress::field_moves))]
fn listed_field(alloc: Global, cursor: &mut Cursor<'_>, level: u32) -> Result<Member, Stop>
    ensures tree { Gets (file_reader (part.FieldOf []) level (rest cursor.old)) result (rest cursor.new) }
    ensures kept { stop cursor.new ≡ stop cursor.old }
    ensures shorter { IsOk result → length (rest cursor.new) < length (rest cursor.old) }
{
    let field = field(alloc, cursor, level)?;
    Ok(field)
}

#[tactic(auto, using(crate::proofs::FieldLaws::field_law, crate::proofs::FieldLaws::more_field_law, crate::proofs::Progress::shift_moves, vala_cursor::proofs::Steps::just), unfolding(crate::specs::Steps::got))]
fn field(alloc: Global, cursor: &mut Cursor<'_>, level: u32) -> Result<Member, Stop>
    ensures tree { Gets (file_reader (part.FieldOf []) level (rest cursor.old)) result (rest cursor.new) }
    ensures kept { stop cursor.new ≡ stop cursor.old }
{
    let mut words = Items::new(alloc);
    'words: while may_follow_in_struct(cursor, words.as_slice()) {
        let token = cursor.shift(0, level)?;
        words.push(modifier(token))?;
        if is_next(cursor, Sort::New) {
            return Err(Stop::Flawed(Flaw::LeftOut));
        }
    }
    field_behind(alloc, cursor, level, words)
}

#[tactic(auto, using(crate::proofs::FieldLaws::field_behind_law))]
fn field_behind(
    alloc: Global,
    cursor: &mut Cursor<'_>,
    level: u32,
    words: Items<Modifier>,
) -> Result<Member, Stop>
    ensures tree { Gets (reads (field_behind words) level (rest cursor.old)) result (rest cursor.new) }
    ensures kept { stop cursor.new ≡ stop cursor.old }
{
    let declared = code::any_type(alloc, cursor, level)?;
    field_named(alloc, cursor, level, words, declared)
}

#[tactic(auto, using(crate::proofs::FieldLaws::field_named_law))]
fn field_named(
    alloc: Global,
    cursor: &mut Cursor<'_>,
    level: u32,
    words: Items<Modifier>,
    declared: TypeTree,
) -> Result<Member, Stop>
    ensures tree { Gets (reads (field_named words declared) level (rest cursor.old)) result (rest cursor.new) }
    ensures kept { stop cursor.new ≡ stop cursor.old }
{
    if is_next_among(cursor, &[Sort::Star, Sort::Less]) {
        return Err(Stop::Flawed(Flaw::LeftOut));
    }
    let name = expect(cursor, Sort::Identifier, level)?;
    if is_next_among(cursor, &[Sort::OpenParen, Sort::Assign]) {
        return Err(Stop::Flawed(Flaw::LeftOut));
    }
    let close = expect(cursor, Sort::Semicolon, level)?;
    let field = nodes::field(alloc, declared, name, None, close)?;
    Ok(member(Items::new(alloc), words, field))
}
