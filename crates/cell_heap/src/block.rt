// One block: its cells, and the size of its class.

ghost use Rattle.std.specs.Prelude.{◌≡◌, ◌<◌, ◌≤◌, ◌^◌, length, replicate, is_some, slice_get, slice_set, IfOk};
ghost use Rattle.c_meaning.specs.declared.cell.Cell.TheVariants.{Unset};
ghost use Rattle.cell_heap.specs.Sizes.{class_cells};

use c_meaning::Cell;
use std::alloc::Global;
use vg_base::Memory;

/// A block of more cells has no class that a `u64` holds.
pub const MOST_CELLS: u64 = 1 << 63;

/// The cells of the class of a block of so many cells.
pub fn class_cells(cells: u64) -> u64
    requires { cells ≤ 2 ^ 63 }
    ensures { result ≡ class_cells cells }
{
    cells.next_power_of_two()
}

/// So many unset cells.
pub fn unset_cells(alloc: Global, cells: u64) -> Result<Vec<Cell>, Memory>
    ensures { IfOk result (λ block. block.items ≡ replicate cells Unset) }
{
    let mut block = Vec::new(alloc);
    match block.resize(cells as usize, Cell::Unset) {
        Ok(()) => Ok(block),
        Err(_) => Err(Memory),
    }
}

/// Stores a cell at a place of a block, if it has that place.
pub fn store(block: &mut Vec<Cell>, at: u64, cell: Cell) -> bool
    ensures is_there { result ≡ is_some (slice_get block.old.items at) }
    ensures stored { block.new.items ≡ slice_set block.old.items at cell }
{
    match block.get_mut(at as usize) {
        Some(place) => {
            *place = cell;
            true
        }
        None => false,
    }
}
