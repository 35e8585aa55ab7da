// What a declaration ends with: a block or `;`.

ghost use Rattle.std.specs.Prelude.{◌≡◌, ◌≤◌};
ghost use Rattle.vala_cursor.specs.Ahead.{rest, stop};
ghost use Rattle.vala_cursor.specs.Gets.{Gives};
ghost use Rattle.vala_declaration_nodes.specs.Views.{ending_of};
ghost use Rattle.vala_file_grammar.specs.Grammar.{block_or_semicolon};
ghost use Rattle.vala_file_grammar.specs.Parts as part;
ghost use Rattle.vala_file_grammar.specs.Read.{file_reader};
ghost use Rattle.vala_parse.specs.Steps.{reads};
ghost use Rattle.vala_parse.specs.Declarations.{semicolon_of};
ghost use Rattle.vala_parse.specs.Views.{bodied_in};

use crate::code;
use crate::next::{expect, is_next};
use crate::places::Bodied;
use std::alloc::Global;
use vala_cursor::{Cursor, Flaw, Stop};
use vala_declaration_nodes::Ending;
use vala_grammar::Sort;

/// The body of what it belongs to.
#[tactic(auto, using(crate::proofs::BodyLaws::body_laws))]
pub fn body(
    alloc: Global,
    cursor: &mut Cursor<'_>,
    level: u32,
    bodied: Bodied,
) -> Result<Ending, Stop>
    requires low { level ≤ 201 }
    ensures tree { Gives ending_of (file_reader (part.BodyOf (bodied_in bodied)) level (rest cursor.old)) result (rest cursor.new) }
    ensures kept { stop cursor.new ≡ stop cursor.old }
{
    match bodied {
        Bodied::Method => block_or_semicolon(alloc, cursor, level, Bodied::Method),
        Bodied::InterfaceMethod => {
            if is_next(cursor, Sort::OpenBrace) {
                return Err(Stop::Flawed(Flaw::LeftOut));
            }
            semicolon(cursor, level)
        }
        Bodied::Accessing => {
            if is_next(cursor, Sort::Throws) {
                return Err(Stop::Flawed(Flaw::LeftOut));
            }
            block_or_semicolon(alloc, cursor, level, Bodied::Accessing)
        }
    }
}

#[tactic(auto, unfolding(crate::specs::Declarations::semicolon_of))]
fn semicolon(cursor: &mut Cursor<'_>, level: u32) -> Result<Ending, Stop>
    ensures tree { Gives ending_of (semicolon_of level (rest cursor.old)) result (rest cursor.new) }
    ensures kept { stop cursor.new ≡ stop cursor.old }
{
    let close = expect(cursor, Sort::Semicolon, level)?;
    Ok(Ending {
        block: None,
        last: close.span,
    })
}

#[tactic(auto, using(crate::proofs::BodyLaws::block_law))]
fn block_or_semicolon(
    alloc: Global,
    cursor: &mut Cursor<'_>,
    level: u32,
    bodied: Bodied,
) -> Result<Ending, Stop>
    requires low { level ≤ 201 }
    ensures tree { Gives ending_of (reads (block_or_semicolon {b = bodied_in bodied}) level (rest cursor.old)) result (rest cursor.new) }
    ensures kept { stop cursor.new ≡ stop cursor.old }
{
    if is_next(cursor, Sort::Semicolon) {
        return semicolon(cursor, level);
    }
    let block = code::block(alloc, cursor, level)?;
    let last = block.get().span;
    Ok(Ending {
        block: Some(block),
        last,
    })
}
