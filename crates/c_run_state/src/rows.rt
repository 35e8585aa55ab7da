// What lives.

ghost use Rattle.std.specs.Prelude.{◌≡◌, ◌++◌, IfOk, OnOk};
ghost use Rattle.cell_heap.specs.Heap.{cells_of};
ghost use Rattle.c_meaning.specs.Blocks.{live, number_in};
ghost use Rattle.glib_model.specs.Kinds.{mark_at};
ghost use Rattle.c_run_state.specs.Rows.{counted_in, owners_in, row_in, rows_from};
ghost use Rattle.c_run_state.specs.Shows.{InShown};

use crate::lists::append;
use crate::state::{Run, Standing};
use c_meaning::Cell;
use cell_heap::CellHeap;
use glib_model::Kinds;
use vg_base::{LiveRow, Memory, ThingKind};

// The number in a count cell, and 0 where there is none.
fn counted(heap: &CellHeap, block: u64, count: Option<u64>) -> u64
    ensures { result ≡ counted_in (cells_of heap.now block) count }
{
    let Some(at) = count else {
        return 0;
    };
    match heap.get(block, at) {
        Some(Cell::Uns(number)) => number,
        _ => 0,
    }
}

// The count of a thing of a kind, which is 1 where it is no object and no scope.
fn owners(heap: &CellHeap, block: u64, kind: ThingKind, count: Option<u64>) -> u64
    ensures { result ≡ owners_in (cells_of heap.now block) count kind }
{
    match kind {
        ThingKind::Object | ThingKind::Scope => counted(heap, block, count),
        _ => 1,
    }
}

// The row of a block, if it is a thing, stands last.
fn push_row(
    rows: &mut Vec<LiveRow>,
    heap: &CellHeap,
    kinds: &Kinds,
    block: u64,
    standing: Standing,
) -> Result<(), Memory>
    ensures { OnOk result (rows.new.items ≡ rows.old.items ++ row_in (mark_at kinds.now block) (cells_of heap.now block) standing) }
{
    let Standing::Thing(serial) = standing else {
        return Ok(());
    };
    let Some(mark) = kinds.get(block) else {
        return Ok(());
    };
    let Some(kind) = mark.kind else {
        return Ok(());
    };
    let owners = owners(heap, block, kind, mark.count);
    append(
        rows,
        LiveRow {
            kind,
            serial,
            owners,
        },
    )
}

impl Run {
    // The rows of all blocks.
    fn rows(&self) -> Result<Vec<LiveRow>, Memory>
        ensures { IfOk result (λ rows. rows.items ≡ rows_from self.now.heap self.now.kinds 1 self.now.standings.items) }
    {
        let mut rows = Vec::new(self.alloc);
        for (index, standing) in self.standings.iter().enumerate() {
            push_row(
                &mut rows,
                &self.heap,
                &self.kinds,
                index as u64 + 1,
                *standing,
            )?;
        }
        Ok(rows)
    }

    /// What lives: each thing that is not freed, in the order of their making.
    pub fn live(&self) -> Result<Vec<LiveRow>, Memory>
        ensures { IfOk result (λ rows. InShown self.now (λ s. rows.items ≡ live s)) }
    {
        self.rows()
    }
}
