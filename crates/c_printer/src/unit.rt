// The text of a unit.

ghost use Rattle.std.specs.Prelude.{◌≡◌, IfOk, true};
ghost use Rattle.c_tree.specs.declared.unit.Unit.{Unit as CUnit};
ghost use Rattle.c_tree.specs.Answers.{IsWellFormed};
ghost use Rattle.c_tree.specs.Bare.{SameUnit};
ghost use Rattle.c_printer.specs.Depth.{IsShallowText};
ghost use Rattle.c_printer.specs.Marks.{put_marks};
ghost use Rattle.c_printer.specs.Printed.{IsTextOf};
ghost use Rattle.c_printer.specs.PutItems.{unit_marks};
ghost use Rattle.c_printer.specs.Text.{empty};

use crate::depth::is_shallow;
use crate::grade::Brackets;
use crate::items::put_unit;
use crate::laws::tokens_are_read;
use crate::output::Writer;
use c_lexer::tokens_cover;
use c_tree::Unit;
use std::alloc::Global;
use vg_base::Memory;

fn text_of(alloc: Global, brackets: Brackets, unit: &Unit) -> Result<Vec<u8>, Memory>
    ensures { IfOk result (λ text. text.items ≡ (put_marks empty (unit_marks brackets unit.now)).bytes) }
{
    let mut out = Writer::new(alloc);
    put_unit(alloc, &mut out, brackets, unit)?;
    Ok(out.into_bytes())
}

// Whether a text is short enough to be read, and nests no deeper than 64 brackets.
fn can_be_read(alloc: Global, text: &[u8]) -> Result<bool, Memory>
    ensures { IfOk result (λ readable. readable ≡ true → IsShallowText text.now) }
{
    if text.len() < 1 << 32 {
        is_shallow(alloc, text)
    } else {
        Ok(false)
    }
}

/// The text of a unit, one statement a line. Where the unit is well formed, apart from places, it is read as the unit, apart from places.
/// Brackets that the grammar does not need are left out where the text would nest too deep with them.
pub fn print(alloc: Global, unit: &Unit) -> Result<Vec<u8>, Memory>
    ensures { IfOk result (λ text. (placed : CUnit) → IsWellFormed placed → SameUnit placed unit.now → IsTextOf unit.now text.items) }
{
    tokens_are_read();
    tokens_cover();
    let clear = text_of(alloc, Brackets::Clear, unit)?;
    let is_readable = can_be_read(alloc, &clear)?;
    if is_readable {
        return Ok(clear);
    }
    text_of(alloc, Brackets::Needed, unit)
}
