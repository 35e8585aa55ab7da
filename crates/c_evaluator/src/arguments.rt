// Evaluation of arguments.

ghost use Rattle.std.specs.Prelude.{map};
ghost use Rattle.c_code.specs.Machine as machine;
ghost use Rattle.c_texts.specs.Answers.{Answers};
ghost use Rattle.c_code.specs.Values.{value_seen};

use crate::evaluate::{cell_of, value_of};
use c_code::{Code, Value};
use c_meaning::Cell;
use cell_heap::CellHeap;
use std::alloc::Global;
use vg_base::{Fault, UndefKind};

/// The values of arguments, from the left.
pub fn values_of(
    alloc: Global,
    heap: &CellHeap,
    frame: u64,
    codes: &[Code],
) -> Result<Vec<Value>, Fault<UndefKind>>
    ensures { Answers (λ values. map value_seen values.items) result (machine.values_of codes.now heap.now frame) }
{
    let mut values = Vec::new(alloc);
    for code in codes {
        let value = value_of(alloc, heap, frame, code)?;
        if values.push(value).is_err() {
            return Err(Fault::Memory);
        }
    }
    Ok(values)
}

/// The cells of arguments, from the left.
pub fn cells_of(
    alloc: Global,
    heap: &CellHeap,
    frame: u64,
    codes: &[Code],
) -> Result<Vec<Cell>, Fault<UndefKind>>
    ensures { Answers (λ cells. cells.items) result (machine.cells_of codes.now heap.now frame) }
{
    let mut cells = Vec::new(alloc);
    for code in codes {
        let cell = cell_of(alloc, heap, frame, code)?;
        if cells.push(cell).is_err() {
            return Err(Fault::Memory);
        }
    }
    Ok(cells)
}
