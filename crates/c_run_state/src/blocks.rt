// The blocks of a run.

ghost use Rattle.std.specs.Prelude.{◌≡◌, ◌++◌, ◌-◌, IfOk, OnOk, length};
ghost use Rattle.c_meaning.specs.Blocks.{free, make, next_block, set_cells, unset};
ghost use Rattle.c_meaning.specs.Steps.{store};
ghost use Rattle.c_code.specs.Values.{place_seen, value_seen};
ghost use Rattle.cell_heap.specs.Heap.{cells_of};
ghost use Rattle.c_run_state.specs.Shows.{Becomes, InShown};
ghost use Rattle.c_run_state.specs.Stores.{no_store};

use crate::state::Run;
use c_code::{Place, Value};
use c_meaning::Cell;
use cell_heap::CellHeap;
use std::alloc::Global;
use vg_base::{Memory, UndefKind};

/// Cells, and unset ones behind them up to a number of cells.
pub fn with_unset(alloc: Global, cells: &[Cell], count: u64) -> Result<Vec<Cell>, Memory>
    ensures { IfOk result (λ all. all.items ≡ cells.now ++ unset (count - length cells.now)) }
{
    let mut all = Vec::new(alloc);
    if all.extend_from_slice(cells).is_err() {
        return Err(Memory);
    }
    let missing = count.saturating_sub(cells.len() as u64);
    for _ in 0..missing {
        if all.push(Cell::Unset).is_err() {
            return Err(Memory);
        }
    }
    Ok(all)
}

// Why cells are not stored in a block: it is not live, or it has too few cells.
fn no_store(heap: &CellHeap, block: u64) -> UndefKind
    ensures { result ≡ no_store (cells_of heap.now block) }
{
    match heap.length(block) {
        Some(_) => UndefKind::Outside,
        None => UndefKind::Freed,
    }
}

impl Run {
    /// A block that is no thing, with these cells, by its number.
    pub fn make_block(&mut self, cells: &[Cell]) -> Result<u64, Memory>
        ensures number { IfOk result (λ number. InShown self.old (λ s. number ≡ next_block s)) }
        ensures made { OnOk result (Becomes (λ s. make s cells.now) self.old self.new) }
    {
        let Ok(block) = self.heap.make(cells.len() as u64) else {
            return Err(Memory);
        };
        self.heap.set_cells(block, 0, cells);
        self.note_plain()?;
        Ok(block)
    }

    /// A live block is freed for good.
    pub fn free_block(&mut self, block: u64) -> Result<(), Memory>
        ensures { OnOk result (Becomes (λ s. free s block) self.old self.new) }
    {
        self.heap.free(block);
        self.note_freed(block)
    }

    /// A value goes to a place.
    pub fn store(&mut self, place: Place, value: &Value)
        ensures { Becomes (λ s. store s (place_seen place) (value_seen value.now)) self.old self.new }
    {
        match value {
            Value::Scalar(cell) => self.set_cells(place, &[*cell]),
            Value::Struct(cells) => self.set_cells(place, cells.as_slice()),
        }
    }

    // Cells are stored at a place of a live block.
    fn set_cells(&mut self, place: Place, cells: &[Cell])
        ensures { Becomes (λ s. set_cells s (place_seen place) cells.now) self.old self.new }
    {
        if !self.heap.set_cells(place.block, place.at, cells) {
            let kind = no_store(&self.heap, place.block);
            self.undefined(kind);
        }
    }
}
