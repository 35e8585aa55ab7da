// The parts of expressions, types and statements, as parts of a file.

ghost use Rattle.std.specs.Prelude.{◌≡◌, ◌≤◌};
ghost use Rattle.vala_grammar.specs.Parts as part;
ghost use Rattle.vala_cursor.specs.Ahead.{rest, stop};
ghost use Rattle.vala_cursor.specs.Gets.{Gets};
ghost use Rattle.vala_nodes.specs.Seen.{seen_option};
ghost use Rattle.vala_file_grammar.specs.Parts.{Code};
ghost use Rattle.vala_file_grammar.specs.Read.{file_reader};

use sqlite_items::Boxed;
use std::alloc::Global;
use vala_cursor::{Cursor, Stop};
use vala_expressions::names;
use vala_grammar::TypeName;
use vala_lexer::Token;
use vala_parse_expr::{read_block, read_init, read_whole};
use vala_tree::{Block, Expr, NameTree, TypeTree};

/// Words with dots between.
#[tactic(auto, using(crate::proofs::Unfolds::reads_code))]
pub fn name(alloc: Global, cursor: &mut Cursor<'_>, level: u32) -> Result<NameTree, Stop>
    ensures tree { Gets (file_reader (Code part.Name) level (rest cursor.old)) result (rest cursor.new) }
    ensures kept { stop cursor.new ≡ stop cursor.old }
{
    names::name(alloc, cursor, level)
}

/// A type.
#[tactic(auto, using(crate::proofs::Unfolds::reads_code))]
pub fn any_type(alloc: Global, cursor: &mut Cursor<'_>, level: u32) -> Result<TypeTree, Stop>
    ensures tree { Gets (file_reader (Code part.AnyType) level (rest cursor.old)) result (rest cursor.new) }
    ensures kept { stop cursor.new ≡ stop cursor.old }
{
    names::any_type(alloc, cursor, level)
}

/// A type behind the word in front of it.
#[tactic(auto, using(crate::proofs::Unfolds::reads_code))]
pub fn type_body(
    alloc: Global,
    cursor: &mut Cursor<'_>,
    level: u32,
    word: Option<Token<'_>>,
) -> Result<TypeTree, Stop>
    ensures tree { Gets (file_reader (Code (part.TypeBody (seen_option word.entry))) level (rest cursor.old)) result (rest cursor.new) }
    ensures kept { stop cursor.new ≡ stop cursor.old }
{
    names::type_body(alloc, cursor, level, word)
}

/// What follows the first word of a type.
#[tactic(auto, using(crate::proofs::Unfolds::reads_code))]
pub fn name_in_type_more(
    alloc: Global,
    cursor: &mut Cursor<'_>,
    level: u32,
    first: NameTree,
) -> Result<TypeName, Stop>
    ensures tree { Gets (file_reader (Code (part.NameInTypeMore first)) level (rest cursor.old)) result (rest cursor.new) }
    ensures kept { stop cursor.new ≡ stop cursor.old }
{
    names::name_in_type_more(alloc, cursor, level, first)
}

/// An expression.
#[tactic(auto, using(crate::proofs::Unfolds::reads_code))]
pub fn whole(alloc: Global, cursor: &mut Cursor<'_>, level: u32) -> Result<Boxed<Expr>, Stop>
    requires low { level ≤ 201 }
    ensures tree { Gets (file_reader (Code part.Whole) level (rest cursor.old)) result (rest cursor.new) }
    ensures kept { stop cursor.new ≡ stop cursor.old }
{
    read_whole(alloc, cursor, level)
}

/// What a field is given.
#[tactic(auto, using(crate::proofs::Unfolds::reads_code))]
pub fn init(alloc: Global, cursor: &mut Cursor<'_>, level: u32) -> Result<Boxed<Expr>, Stop>
    requires low { level ≤ 201 }
    ensures tree { Gets (file_reader (Code part.Init) level (rest cursor.old)) result (rest cursor.new) }
    ensures kept { stop cursor.new ≡ stop cursor.old }
{
    read_init(alloc, cursor, level)
}

/// `{ .. }`
#[tactic(auto, using(crate::proofs::Unfolds::reads_code))]
pub fn block(alloc: Global, cursor: &mut Cursor<'_>, level: u32) -> Result<Boxed<Block>, Stop>
    requires low { level ≤ 201 }
    ensures tree { Gets (file_reader (Code part.BlockOf) level (rest cursor.old)) result (rest cursor.new) }
    ensures kept { stop cursor.new ≡ stop cursor.old }
{
    read_block(alloc, cursor, level)
}
