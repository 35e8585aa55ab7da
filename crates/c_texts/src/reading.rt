// Texts that pointers lead to.

ghost use Rattle.std.specs.Prelude.{◌≡◌, drop};
ghost use Rattle.std.specs.Option.{option_map};
ghost use Rattle.c_meaning.specs.Texts.{bytes_up_to, optional_text, text_of, text_up_to};
ghost use Rattle.cell_heap.specs.Heap.{cells_of};
ghost use Rattle.c_texts.specs.Answers.{Answers, InRuns, no_pointer};

use crate::cells::byte_of;
use c_meaning::Cell;
use cell_heap::CellHeap;
use std::alloc::Global;
use vg_base::{Fault, UndefKind};

/// Why a cell that is no pointer leads nowhere.
pub fn no_pointer(cell: Cell) -> UndefKind
    ensures { result ≡ no_pointer cell }
{
    match cell {
        Cell::Null => UndefKind::Null,
        Cell::Unset => UndefKind::Unset,
        _ => UndefKind::Kind,
    }
}

/// The text that a pointer leads to.
pub fn text_of(alloc: Global, heap: &CellHeap, cell: Cell) -> Result<Vec<u8>, Fault<UndefKind>>
    ensures { InRuns heap.now (λ s. Answers (λ text. text.items) result (text_of s cell)) }
{
    match cell {
        Cell::Ptr { block, at } => heap.text(alloc, block, at),
        _ => Err(Fault::Refused(no_pointer(cell))),
    }
}

/// The text that a pointer leads to, and none for null.
pub fn optional_text(
    alloc: Global,
    heap: &CellHeap,
    cell: Cell,
) -> Result<Option<Vec<u8>>, Fault<UndefKind>>
    ensures { InRuns heap.now (λ s. Answers (option_map (λ text. text.items)) result (optional_text s cell)) }
{
    match cell {
        Cell::Null => Ok(None),
        _ => Ok(Some(text_of(alloc, heap, cell)?)),
    }
}

/// The cells of a live block from a place on, none where it is past the end.
pub fn cells_from(heap: &CellHeap, block: u64, at: u64) -> Option<&[Cell]>
    ensures { option_map (λ cells. cells.now) result ≡ option_map (drop at) (cells_of heap.now block) }
{
    let length = heap.length(block)?;
    if at < length {
        heap.get_cells(block, at, length - at)
    } else {
        Some(&[])
    }
}

// The bytes of cells up to the first that is zero, at most so many.
fn bytes_up_to(alloc: Global, cells: &[Cell], most: u64) -> Result<Vec<u8>, Fault<UndefKind>>
    ensures { Answers (λ text. text.items) result (bytes_up_to most cells.now) }
{
    let mut text = Vec::new(alloc);
    for cell in cells {
        if text.len() as u64 == most {
            return Ok(text);
        }
        match byte_of(*cell) {
            Ok(0) => return Ok(text),
            Ok(byte) => {
                if text.push(byte).is_err() {
                    return Err(Fault::Memory);
                }
            }
            Err(kind) => return Err(Fault::Refused(kind)),
        }
    }
    if text.len() as u64 == most {
        Ok(text)
    } else {
        Err(Fault::Refused(UndefKind::Outside))
    }
}

/// The first bytes of the text that a pointer leads to, at most so many.
pub fn text_up_to(
    alloc: Global,
    heap: &CellHeap,
    cell: Cell,
    most: u64,
) -> Result<Vec<u8>, Fault<UndefKind>>
    ensures { InRuns heap.now (λ s. Answers (λ text. text.items) result (text_up_to s cell most)) }
{
    let Cell::Ptr { block, at } = cell else {
        return Err(Fault::Refused(no_pointer(cell)));
    };
    match cells_from(heap, block, at) {
        Some(cells) => bytes_up_to(alloc, cells, most),
        None => Err(Fault::Refused(UndefKind::Freed)),
    }
}
