// A file: what it uses, and its declarations.

ghost use Rattle.std.specs.Prelude.{◌≡◌, ◌<◌, ◌≤◌, [], length, IsOk};
ghost use Rattle.vala_cursor.specs.Ahead.{rest, stop};
ghost use Rattle.vala_cursor.specs.Gets.{Gets, Gives};
ghost use Rattle.vala_grammar.specs.Parts as code_part;
ghost use Rattle.vala_declaration_nodes.specs.Views.{closed_of};
ghost use Rattle.vala_file_grammar.specs.Parts as part;
ghost use Rattle.vala_file_grammar.specs.Read.{file_reader};
ghost use Rattle.vala_parse.specs.Steps.{Leads};
ghost use Rattle.vala_parse.specs.Files.{file_in};
ghost use Rattle.vala_parse.specs.Views.{place_in};

use crate::code;
use crate::members::Declarations;
use crate::next::{expect, is_next};
use crate::places::{Place, begins_member, is_left_out};
use sqlite_items::Items;
use std::alloc::Global;
use vala_cursor::{Cursor, Flaw, Stop};
use vala_declaration_nodes::Closed;
use vala_grammar::Sort;
use vala_tree::{Member, NameTree};

/// A file without the number of its tokens.
#[derive(Drop)]
pub struct FileText {
    pub usings: Items<NameTree>,
    pub members: Items<Member>,
}

/// A file, as far as it goes.
#[tactic(auto, using(crate::proofs::FileLaws::file_law, vala_cursor::proofs::Steps::just))]
pub fn file(alloc: Global, cursor: &mut Cursor<'_>) -> Result<FileText, Stop>
    ensures tree { Gives file_in (file_reader part.File 0 (rest cursor.old)) result (rest cursor.new) }
    ensures kept { stop cursor.new ≡ stop cursor.old }
{
    usings(alloc, cursor)
}

#[tactic(auto, using(crate::proofs::FileLaws::usings_law, vala_cursor::proofs::Steps::just))]
fn usings(alloc: Global, cursor: &mut Cursor<'_>) -> Result<FileText, Stop>
    ensures tree { Gives file_in (file_reader (part.Usings []) 0 (rest cursor.old)) result (rest cursor.new) }
    ensures kept { stop cursor.new ≡ stop cursor.old }
{
    let mut usings = Items::new(alloc);
    'usings: while is_next(cursor, Sort::Using) {
        expect(cursor, Sort::Using, 0)?;
        usings.push(used_name(alloc, cursor)?)?;
        usings = more_usings(alloc, cursor, usings)?;
    }
    file_members(alloc, cursor, usings)
}

/// A name, which has a token.
#[tactic(auto, using(crate::proofs::Progress::name_moves))]
fn used_name(alloc: Global, cursor: &mut Cursor<'_>) -> Result<NameTree, Stop>
    ensures tree { Gets (file_reader (part.Code code_part.Name) 0 (rest cursor.old)) result (rest cursor.new) }
    ensures kept { stop cursor.new ≡ stop cursor.old }
    ensures shorter { IsOk result → length (rest cursor.new) < length (rest cursor.old) }
{
    let name = code::name(alloc, cursor, 0)?;
    Ok(name)
}

/// The names behind a comma, up to `;`.
#[tactic(auto, using(crate::proofs::FileLaws::more_usings_law, vala_cursor::proofs::Steps::just))]
fn more_usings(
    alloc: Global,
    cursor: &mut Cursor<'_>,
    first: Items<NameTree>,
) -> Result<Items<NameTree>, Stop>
    ensures names { Leads (file_reader (part.MoreUsings first) 0 (rest cursor.old)) (λ us. file_reader (part.Usings us) 0) result (rest cursor.new) }
    ensures kept { stop cursor.new ≡ stop cursor.old }
    ensures shorter { IsOk result → length (rest cursor.new) ≤ length (rest cursor.old) }
{
    let mut usings = first;
    'names: while is_next(cursor, Sort::Comma) {
        expect(cursor, Sort::Comma, 0)?;
        usings.push(used_name(alloc, cursor)?)?;
    }
    expect(cursor, Sort::Semicolon, 0)?;
    Ok(usings)
}

#[tactic(auto, using(crate::proofs::FileLaws::file_members_law, vala_cursor::proofs::Steps::just))]
fn file_members(
    alloc: Global,
    cursor: &mut Cursor<'_>,
    usings: Items<NameTree>,
) -> Result<FileText, Stop>
    ensures tree { Gives file_in (file_reader (part.FileMembers usings []) 0 (rest cursor.old)) result (rest cursor.new) }
    ensures kept { stop cursor.new ≡ stop cursor.old }
{
    let declarations = Declarations {
        alloc,
        level: 0,
        deep: read_members,
    };
    let mut members = Items::new(alloc);
    'members: while !is_left_out(cursor, Place::Outside) {
        if !begins_member(cursor) {
            return Ok(FileText { usings, members });
        }
        members.push(declarations.listed_member(cursor, 0, Place::Outside)?)?;
    }
    Err(Stop::Flawed(Flaw::LeftOut))
}

/// The declarations in braces, which stand at the level.
fn read_members(
    alloc: Global,
    cursor: &mut Cursor<'_>,
    level: u32,
    place: Place<'_>,
) -> Result<Closed<Member>, Stop>
    requires low { level ≤ 201 }
    ensures tree { Gives closed_of (file_reader (part.Members (place_in place.entry) []) level (rest cursor.old)) result (rest cursor.new) }
    ensures kept { stop cursor.new ≡ stop cursor.old }
{
    let declarations = Declarations {
        alloc,
        level,
        deep: read_members,
    };
    declarations.members(cursor, level, place)
}
