// The heap.

ghost use Rattle.std.specs.Prelude.{◌≡◌, ◌+◌, ◌-◌, ◌^◌, ◌↔◌, [], ◌∷◌, length, is_some, false, Err, IfOk, OnErr, option_map};
ghost use Rattle.std.specs.Option.{option_map};
ghost use Rattle.cell_heap.specs.declared.fault.HeapFault.TheVariants.{Numbers};
ghost use Rattle.cell_heap.specs.Heap.{cells_of, cell_at, stored, freed, made};
ghost use Rattle.cell_heap.specs.Runs.{cells_at, run_stored};
ghost use Rattle.cell_heap.specs.Sizes.{held};

use crate::block::{MOST_CELLS, class_cells, store, unset_cells};
use crate::fault::HeapFault;
use crate::runs::store_cells;
use c_meaning::Cell;
use std::alloc::Global;
use std::marker::Model;

/// Blocks of cells. A clause sees them in the order of their making, each with its cells or freed for good.
#[derive(Drop)]
pub struct CellHeap {
    alloc: Global,
    numbered: Vec<Option<Vec<Cell>>>,
    held_cells: u64,
}

impl Model for CellHeap {
    ghost use Rattle.std.specs.Prelude.{◌≡◌, List, Option, map};
    ghost use Rattle.std.specs.Option.{option_map};
    ghost use Rattle.c_meaning.specs.declared.cell.Cell.{Cell};
    ghost use Rattle.cell_heap.specs.Sizes.{held};

    ghost Value = { List (Option (List Cell)) };

    ghost view = { λ h. map (option_map (λ block. block.items)) h.numbered.items };

    ghost invariant = { λ h. h.held_cells ≡ held (map (option_map (λ block. block.items)) h.numbered.items) };
}

impl CellHeap {
    /// A heap with no blocks.
    pub fn new(alloc: Global) -> CellHeap
        ensures { result ≡ [] }
    {
        CellHeap {
            alloc,
            numbered: Vec::new(alloc),
            held_cells: 0,
        }
    }

    /// A block of so many unset cells, by its number. Numbers count from 1 in the order of the making.
    pub fn make(&mut self, cells: u64) -> Result<u64, HeapFault>
        ensures number { IfOk result (λ number. number ≡ length self.old + 1) }
        ensures made { IfOk result (λ _. self.new ≡ made self.old cells) }
        ensures numbers { (result ≡ Err Numbers) ↔ (length self.old + 1 ≡ 2 ^ 64 - 1) }
        ensures unchanged { OnErr result (self.new ≡ self.old) }
    {
        let number = self.numbered.len() as u64 + 1;
        if number == u64::MAX {
            return Err(HeapFault::Numbers);
        }
        if cells > MOST_CELLS {
            return Err(HeapFault::Memory);
        }
        let Some(held) = self.held_cells.checked_add(class_cells(cells)) else {
            return Err(HeapFault::Memory);
        };
        let Ok(block) = unset_cells(self.alloc, cells) else {
            return Err(HeapFault::Memory);
        };
        match self.numbered.push(Some(block)) {
            Ok(()) => {
                self.held_cells = held;
                Ok(number)
            }
            Err(_) => Err(HeapFault::Memory),
        }
    }

    // The cells of a live block.
    pub(crate) fn cells(&self, block: u64) -> Option<&Vec<Cell>>
        ensures { option_map (λ cells. cells.now.items) result ≡ cells_of self.now block }
    {
        let index = block.checked_sub(1)?;
        self.numbered.get(index as usize)?.as_ref()
    }

    /// The cell at a place of a live block.
    pub fn get(&self, block: u64, at: u64) -> Option<Cell>
        ensures { result ≡ cell_at self.now block at }
    {
        self.cells(block)?.get(at as usize).copied()
    }

    /// Stores a cell at a place of a live block, and says whether there is such a place.
    pub fn set(&mut self, block: u64, at: u64, cell: Cell) -> bool
        ensures is_there { result ≡ is_some (cell_at self.old block at) }
        ensures stored { self.new ≡ stored self.old block at cell }
        ensures unchanged { result ≡ false → self.new ≡ self.old }
    {
        let Some(index) = block.checked_sub(1) else {
            return false;
        };
        let Some(place) = self.numbered.get_mut(index as usize) else {
            return false;
        };
        let Some(cells) = place else {
            return false;
        };
        store(cells, at, cell)
    }

    /// Stores cells from a place of a live block on, and says whether it has so many.
    pub fn set_cells(&mut self, block: u64, at: u64, run: &[Cell]) -> bool
        ensures is_there { result ≡ is_some (cells_at self.old block at (length run.now)) }
        ensures stored { self.new ≡ run_stored self.old block at run.now }
        ensures unchanged { result ≡ false → self.new ≡ self.old }
    {
        let Some(index) = block.checked_sub(1) else {
            return false;
        };
        let Some(place) = self.numbered.get_mut(index as usize) else {
            return false;
        };
        let Some(cells) = place else {
            return false;
        };
        store_cells(cells, at, run)
    }

    /// Frees a live block for good, and says whether it was live.
    pub fn free(&mut self, block: u64) -> bool
        ensures was_live { result ≡ is_some (cells_of self.old block) }
        ensures freed { self.new ≡ freed self.old block }
        ensures unchanged { result ≡ false → self.new ≡ self.old }
    {
        let Some(index) = block.checked_sub(1) else {
            return false;
        };
        let Some(place) = self.numbered.get_mut(index as usize) else {
            return false;
        };
        let Some(cells) = place.take() else {
            return false;
        };
        self.held_cells -= class_cells(cells.len() as u64);
        true
    }

    /// How many cells a live block has.
    pub fn length(&self, block: u64) -> Option<u64>
        ensures { result ≡ option_map length (cells_of self.now block) }
    {
        Some(self.cells(block)?.len() as u64)
    }

    /// The cells of the classes of all live blocks.
    pub fn held(&self) -> u64
        ensures { result ≡ held self.now }
    {
        self.held_cells
    }
}
