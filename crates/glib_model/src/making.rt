// Blocks that functions make.

ghost use Rattle.std.specs.Prelude.{◌≡◌, ◌+◌, ◌++◌, [], ◌∷◌, Some, IfOk, length};
ghost use Rattle.c_meaning.specs.declared.cell.Cell.TheVariants.{Ptr};
ghost use Rattle.c_meaning.specs.Texts.{give_text};
ghost use Rattle.glib_model.specs.declared.ends.LibWhat.TheVariants.{Value};
ghost use Rattle.glib_model.specs.declared.ends.Note.TheVariants.{Made};
ghost use Rattle.glib_model.specs.Ends.{InRun};

use crate::ends::{LibEnd, LibWhat, Note, noted, quiet};
use c_meaning::Cell;
use c_texts::push_text;
use cell_heap::CellHeap;
use std::alloc::Global;
use vg_base::{Memory, ThingKind, TrapKind};

/// One more than the greatest length of a text, an array or a message.
pub const LENGTH_LIMIT: u64 = 1 << 63;

/// A block with these cells, by its number.
pub fn add_block(heap: &mut CellHeap, cells: &[Cell]) -> Result<u64, Memory>
    ensures number { IfOk result (λ number. number ≡ length heap.old + 1) }
    ensures added { IfOk result (λ _. heap.new ≡ heap.old ++ Some cells.now ∷ []) }
{
    let Ok(block) = heap.make(cells.len() as u64) else {
        return Err(Memory);
    };
    heap.set_cells(block, 0, cells);
    Ok(block)
}

/// A thing with these cells is made and given.
pub fn give_thing(
    alloc: Global,
    heap: &mut CellHeap,
    kind: ThingKind,
    cells: &[Cell],
) -> Result<LibEnd, Memory>
    ensures answer { IfOk result (λ answer. answer ≡ record { what = Value (Ptr (length heap.old + 1) 0); notes = Made (length heap.old + 1) kind ∷ [] }) }
    ensures added { IfOk result (λ _. heap.new ≡ heap.old ++ Some cells.now ∷ []) }
{
    let block = add_block(heap, cells)?;
    noted(
        alloc,
        Note::Made { block, kind },
        LibWhat::Value(Cell::Ptr { block, at: 0 }),
    )
}

/// A text is made and given, if it is not too long.
pub fn give_text(alloc: Global, heap: &mut CellHeap, bytes: &[u8]) -> Result<LibEnd, Memory>
    ensures { IfOk result (InRun (λ s. give_text s bytes.now) heap.old heap.new) }
{
    if bytes.len() as u64 >= LENGTH_LIMIT {
        return Ok(quiet(alloc, LibWhat::Aborted(TrapKind::Length)));
    }
    let mut cells = Vec::new(alloc);
    push_text(&mut cells, bytes)?;
    give_thing(alloc, heap, ThingKind::Text, cells.as_slice())
}
