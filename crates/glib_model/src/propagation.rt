// The library's function that moves errors.

ghost use Rattle.std.specs.Prelude.{◌≡◌, IfOk};
ghost use Rattle.c_meaning.specs.BlockRows.{g_propagate_error};
ghost use Rattle.c_texts.specs.Answers.{InRuns};
ghost use Rattle.glib_model.specs.Ends.{IsRow};
ghost use Rattle.glib_model.specs.Errors.{destination, seen_target};

use crate::arguments::two;
use crate::ends::{LibEnd, nothing, undefined};
use crate::errors::g_error_free;
use crate::found::thing_of;
use crate::kinds::Kinds;
use crate::parts::part;
use c_meaning::Cell;
use c_texts::no_pointer;
use cell_heap::CellHeap;
use std::alloc::Global;
use vg_base::{Memory, ThingKind, UndefKind};

/// A place of a live block.
#[derive(Clone, Copy)]
pub struct Target {
    pub block: u64,
    pub at: u64,
}

// The place of a cell that a pointer leads to.
fn destination(heap: &CellHeap, cell: Cell) -> Result<Target, UndefKind>
    ensures { InRuns heap.now (λ s. seen_target result ≡ destination s cell) }
{
    let Cell::Ptr { block, at } = cell else {
        return Err(no_pointer(cell));
    };
    part(heap, block, at)?;
    Ok(Target { block, at })
}

/// An error moves to a place, where what was there is lost; where the place is null it is freed.
pub fn g_propagate_error(
    alloc: Global,
    heap: &mut CellHeap,
    kinds: &Kinds,
    args: &[Cell],
) -> Result<LibEnd, Memory>
    ensures { IfOk result (IsRow g_propagate_error args.now heap.old kinds.now heap.new) }
{
    let Some((cell, error)) = two(args) else {
        return Ok(undefined(alloc, UndefKind::Kind));
    };
    if let Cell::Null = cell {
        return g_error_free(alloc, heap, kinds, &[error]);
    }
    match destination(heap, cell) {
        Err(kind) => Ok(undefined(alloc, kind)),
        Ok(target) => match thing_of(heap, kinds, ThingKind::Error, error) {
            Err(kind) => Ok(undefined(alloc, kind)),
            Ok(_) => {
                heap.set(target.block, target.at, error);
                Ok(nothing(alloc))
            }
        },
    }
}
