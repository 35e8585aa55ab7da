// Lists of types.

ghost use Rattle.std.specs.Prelude.{◌≡◌, [], ◌<◌, length, IsOk};
ghost use Rattle.vala_cursor.specs.Ahead.{rest, stop};
ghost use Rattle.vala_cursor.specs.Gets.{Gets};
ghost use Rattle.vala_file_grammar.specs.Parts as part;
ghost use Rattle.vala_file_grammar.specs.Read.{file_reader};
ghost use Rattle.vala_parse.specs.Declarations.{listed_type};

use crate::code;
use crate::next::{expect, is_next, is_next_among};
use sqlite_items::Items;
use std::alloc::Global;
use vala_cursor::{Cursor, Flaw, Stop};
use vala_grammar::Sort;
use vala_tree::TypeTree;

/// The bases of a class, where there are some.
#[tactic(auto, using(crate::proofs::ListLaws::bases_law, vala_cursor::proofs::Steps::just))]
pub fn bases(alloc: Global, cursor: &mut Cursor<'_>, level: u32) -> Result<Items<TypeTree>, Stop>
    ensures tree { Gets (file_reader part.Bases level (rest cursor.old)) result (rest cursor.new) }
    ensures kept { stop cursor.new ≡ stop cursor.old }
{
    if is_next(cursor, Sort::Colon) {
        expect(cursor, Sort::Colon, level)?;
        return type_list(alloc, cursor, level);
    }
    Ok(Items::new(alloc))
}

/// The types behind `throws`, where it stands.
#[tactic(auto, using(crate::proofs::ListLaws::throws_law, vala_cursor::proofs::Steps::just))]
pub fn throws(alloc: Global, cursor: &mut Cursor<'_>, level: u32) -> Result<Items<TypeTree>, Stop>
    ensures tree { Gets (file_reader part.ThrowsOf level (rest cursor.old)) result (rest cursor.new) }
    ensures kept { stop cursor.new ≡ stop cursor.old }
{
    if is_next(cursor, Sort::Throws) {
        expect(cursor, Sort::Throws, level)?;
        return type_list(alloc, cursor, level);
    }
    Ok(Items::new(alloc))
}

#[tactic(auto, unfolding(crate::specs::Declarations::listed_type), using(crate::proofs::Progress::type_moves))]
fn listed_type(alloc: Global, cursor: &mut Cursor<'_>, level: u32) -> Result<TypeTree, Stop>
    ensures tree { Gets (listed_type level (rest cursor.old)) result (rest cursor.new) }
    ensures kept { stop cursor.new ≡ stop cursor.old }
    ensures shorter { IsOk result → length (rest cursor.new) < length (rest cursor.old) }
{
    let declared = code::any_type(alloc, cursor, level)?;
    if is_next_among(cursor, &[Sort::Star, Sort::Less]) {
        return Err(Stop::Flawed(Flaw::LeftOut));
    }
    Ok(declared)
}

#[tactic(auto, using(crate::proofs::ListLaws::type_list_law, crate::proofs::ListLaws::types_behind_law, vala_cursor::proofs::Steps::just))]
fn type_list(alloc: Global, cursor: &mut Cursor<'_>, level: u32) -> Result<Items<TypeTree>, Stop>
    ensures tree { Gets (file_reader (part.TypeList []) level (rest cursor.old)) result (rest cursor.new) }
    ensures kept { stop cursor.new ≡ stop cursor.old }
{
    let mut list = Items::new(alloc);
    list.push(listed_type(alloc, cursor, level)?)?;
    'types: while is_next(cursor, Sort::Comma) {
        expect(cursor, Sort::Comma, level)?;
        list.push(listed_type(alloc, cursor, level)?)?;
    }
    Ok(list)
}
