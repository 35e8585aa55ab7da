// Several cells of a block at once.

ghost use Rattle.std.specs.Prelude.{◌≡◌, length, is_some};
ghost use Rattle.std.specs.Option.{option_map};
ghost use Rattle.cell_heap.specs.Runs.{part, cells_at, written};

use crate::heap::CellHeap;
use c_meaning::Cell;

/// So many cells from a place on, if there are so many.
fn part(cells: &[Cell], at: u64, count: u64) -> Option<&[Cell]>
    ensures { option_map (λ run. run.now) result ≡ part at count cells.now }
{
    let rest = cells.get(at as usize..)?;
    rest.get(..count as usize)
}

// Stores cells over those from a place on, if there are so many.
fn store_run(block: &mut [Cell], at: u64, run: &[Cell]) -> bool
    ensures is_there { result ≡ is_some (part at (length run.now) block.old) }
    ensures stored { block.new ≡ written at run.now block.old }
{
    let start = at as usize;
    if start > block.len() || run.len() > block.len() - start {
        return false;
    }
    for (k, cell) in run.iter().enumerate() {
        block[start + k] = *cell;
    }
    true
}

/// Stores cells over those of a block from a place on, if it has so many.
pub fn store_cells(block: &mut Vec<Cell>, at: u64, run: &[Cell]) -> bool
    ensures is_there { result ≡ is_some (part at (length run.now) block.old.items) }
    ensures stored { block.new.items ≡ written at run.now block.old.items }
{
    store_run(block.as_mut_slice(), at, run)
}

impl CellHeap {
    /// So many cells of a live block from a place on, if it has them all.
    pub fn get_cells(&self, block: u64, at: u64, count: u64) -> Option<&[Cell]>
        ensures { option_map (λ run. run.now) result ≡ cells_at self.now block at count }
    {
        let cells = self.cells(block)?;
        part(cells.as_slice(), at, count)
    }
}
