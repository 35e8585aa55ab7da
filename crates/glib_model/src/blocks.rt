// The library's functions of blocks and arrays.

ghost use Rattle.std.specs.Prelude.{◌≡◌, ◌+◌, ◌*◌, ◌++◌, [], ◌∷◌, IfOk, OnOk, Some, length, replicate};
ghost use Rattle.vg_base.specs.declared.event.ThingKind.TheVariants.{Array};
ghost use Rattle.c_meaning.specs.declared.cell.Cell.TheVariants.{Ptr, Unset};
ghost use Rattle.c_meaning.specs.BlockRows.{g_free, g_new0, g_renew, g_slice_free, is_too_long, resized};
ghost use Rattle.cell_heap.specs.Heap.{cells_of, freed};
ghost use Rattle.glib_model.specs.declared.ends.LibWhat.TheVariants.{Value};
ghost use Rattle.glib_model.specs.declared.ends.Note.TheVariants.{Freed, Made};
ghost use Rattle.glib_model.specs.Ends.{InRun, IsRow, IsSliceRow, IsTypedRow, array_of, cells_in};

use crate::arguments::{one, two};
use crate::ends::{LibEnd, LibWhat, Note, noted, nothing, quiet, undefined, value};
use crate::found::{freeable, sliced, thing_of};
use crate::kinds::Kinds;
use crate::making::{LENGTH_LIMIT, add_block, give_thing};
use c_meaning::Cell;
use c_texts::cells_from;
use cell_heap::CellHeap;
use std::alloc::Global;
use vg_base::{Memory, ThingKind, TrapKind, UndefKind};

// So many cells of one value behind others.
fn push_many(cells: &mut Vec<Cell>, cell: Cell, count: u64) -> Result<(), Memory>
    ensures { OnOk result (cells.new.items ≡ cells.old.items ++ replicate count cell) }
{
    for done in 0..count {
        if cells.push(cell).is_err() {
            return Err(Memory);
        }
    }
    Ok(())
}

/// A block that is freed for good, as an answer with one note.
pub fn give_up(alloc: Global, heap: &mut CellHeap, block: u64) -> Result<LibEnd, Memory>
    ensures answer { IfOk result (λ answer. answer ≡ record { what = Value Unset; notes = Freed block ∷ [] }) }
    ensures freed { heap.new ≡ freed heap.old block }
{
    heap.free(block);
    noted(alloc, Note::Freed(block), LibWhat::Value(Cell::Unset))
}

/// A zeroed block. What thing it is the caller knows, who knows the type.
pub fn g_slice_new0(alloc: Global, heap: &mut CellHeap, cells: u64) -> Result<LibEnd, Memory>
    ensures { IfOk result (IsSliceRow cells heap.old heap.new) }
{
    let mut zeros = Vec::new(alloc);
    push_many(&mut zeros, Cell::Null, cells)?;
    let block = add_block(heap, zeros.as_slice())?;
    Ok(value(alloc, Cell::Ptr { block, at: 0 }))
}

/// Frees what `g_slice_new0` made.
pub fn g_slice_free(
    alloc: Global,
    heap: &mut CellHeap,
    kinds: &Kinds,
    args: &[Cell],
) -> Result<LibEnd, Memory>
    ensures { IfOk result (IsRow g_slice_free args.now heap.old kinds.now heap.new) }
{
    let Some(cell) = one(args) else {
        return Ok(undefined(alloc, UndefKind::Kind));
    };
    match sliced(heap, kinds, cell) {
        Ok(block) => give_up(alloc, heap, block),
        Err(kind) => Ok(undefined(alloc, kind)),
    }
}

/// Frees a text, an array or what `g_slice_new0` made; null is nothing.
pub fn g_free(
    alloc: Global,
    heap: &mut CellHeap,
    kinds: &Kinds,
    args: &[Cell],
) -> Result<LibEnd, Memory>
    ensures { IfOk result (IsRow g_free args.now heap.old kinds.now heap.new) }
{
    let Some(cell) = one(args) else {
        return Ok(undefined(alloc, UndefKind::Kind));
    };
    if let Cell::Null = cell {
        return Ok(nothing(alloc));
    }
    match freeable(heap, kinds, cell) {
        Ok(block) => give_up(alloc, heap, block),
        Err(kind) => Ok(undefined(alloc, kind)),
    }
}

// An array of so many elements, all its cells alike, if it is not too long.
fn new_array(
    alloc: Global,
    heap: &mut CellHeap,
    count: u64,
    cells: u64,
    filling: Cell,
) -> Result<LibEnd, Memory>
    ensures { IfOk result (InRun (λ s. array_of (is_too_long count) s (replicate (count * cells) filling)) heap.old heap.new) }
{
    if count >= LENGTH_LIMIT {
        return Ok(quiet(alloc, LibWhat::Aborted(TrapKind::Length)));
    }
    let Some(size) = count.checked_mul(cells) else {
        return Err(Memory);
    };
    let mut array = Vec::new(alloc);
    push_many(&mut array, filling, size)?;
    give_thing(alloc, heap, ThingKind::Array, array.as_slice())
}

/// A zeroed array of so many elements, each of so many cells.
pub fn g_new0(
    alloc: Global,
    heap: &mut CellHeap,
    kinds: &Kinds,
    cells: u64,
    args: &[Cell],
) -> Result<LibEnd, Memory>
    ensures { IfOk result (IsTypedRow g_new0 cells args.now heap.old kinds.now heap.new) }
{
    let Some(number) = one(args) else {
        return Ok(undefined(alloc, UndefKind::Kind));
    };
    let Cell::Uns(count) = number else {
        return Ok(undefined(alloc, UndefKind::Kind));
    };
    new_array(alloc, heap, count, cells, Cell::Null)
}

// The first cells of an array, and unset ones behind them.
fn resized(alloc: Global, cells: &[Cell], count: u64) -> Result<Vec<Cell>, Memory>
    ensures { IfOk result (λ new. new.items ≡ resized cells.now count) }
{
    let mut new = Vec::new(alloc);
    let kept = count.min(cells.len() as u64);
    if new.extend_from_slice(&cells[..kept as usize]).is_err() {
        return Err(Memory);
    }
    push_many(&mut new, Cell::Unset, count - kept)?;
    Ok(new)
}

// The cells that an array gets of those of a block.
fn renewed_cells(alloc: Global, heap: &CellHeap, block: u64, size: u64) -> Result<Vec<Cell>, Memory>
    ensures { IfOk result (λ new. new.items ≡ resized (cells_in (cells_of heap.now block)) size) }
{
    match cells_from(heap, block, 0) {
        Some(cells) => resized(alloc, cells, size),
        None => resized(alloc, &[], size),
    }
}

// The new array is made before the old one goes.
fn renew(alloc: Global, heap: &mut CellHeap, block: u64, size: u64) -> Result<LibEnd, Memory>
    ensures answer { IfOk result (λ answer. answer ≡ record { what = Value (Ptr (length heap.old + 1) 0); notes = Made (length heap.old + 1) Array ∷ Freed block ∷ [] }) }
    ensures renewed { IfOk result (λ _. heap.new ≡ freed (heap.old ++ Some (resized (cells_in (cells_of heap.old block)) size) ∷ []) block) }
{
    let new = renewed_cells(alloc, heap, block, size)?;
    let mut answer = give_thing(alloc, heap, ThingKind::Array, new.as_slice())?;
    heap.free(block);
    if answer.notes.list.push(Note::Freed(block)).is_err() {
        return Err(Memory);
    }
    Ok(answer)
}

/// An array of so many elements, which begins with the cells of an old one, which is freed; null is an empty one.
pub fn g_renew(
    alloc: Global,
    heap: &mut CellHeap,
    kinds: &Kinds,
    cells: u64,
    args: &[Cell],
) -> Result<LibEnd, Memory>
    ensures { IfOk result (IsTypedRow g_renew cells args.now heap.old kinds.now heap.new) }
{
    let Some((cell, number)) = two(args) else {
        return Ok(undefined(alloc, UndefKind::Kind));
    };
    let Cell::Uns(count) = number else {
        return Ok(undefined(alloc, UndefKind::Kind));
    };
    if let Cell::Null = cell {
        return new_array(alloc, heap, count, cells, Cell::Unset);
    }
    match thing_of(heap, kinds, ThingKind::Array, cell) {
        Err(kind) => Ok(undefined(alloc, kind)),
        Ok(block) if count < LENGTH_LIMIT => {
            let Some(size) = count.checked_mul(cells) else {
                return Err(Memory);
            };
            renew(alloc, heap, block, size)
        }
        Ok(_) => Ok(quiet(alloc, LibWhat::Aborted(TrapKind::Length))),
    }
}
