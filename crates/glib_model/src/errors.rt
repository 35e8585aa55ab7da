// The library's functions of errors.

ghost use Rattle.std.specs.Prelude.{◌≡◌, ◌++◌, [], ◌∷◌, IfOk, OnOk};
ghost use Rattle.c_meaning.specs.declared.cell.Cell.TheVariants.{Ptr};
ghost use Rattle.c_meaning.specs.BlockRows.{g_error_copy, g_error_free, g_error_matches, g_error_new, give_error};
ghost use Rattle.c_meaning.specs.Blocks.{on};
ghost use Rattle.c_meaning.specs.Numbers.{truth};
ghost use Rattle.c_meaning.specs.Texts.{give, text_cells};
ghost use Rattle.glib_model.specs.Ends.{InRun, IsRow};
ghost use Rattle.glib_model.specs.Errors.{has_code, parts_of};

use crate::arguments::{one, three};
use crate::blocks::give_up;
use crate::ends::{LibEnd, LibWhat, Note, noted, quiet, refused, undefined, value};
use crate::found::thing_of;
use crate::kinds::Kinds;
use crate::making::LENGTH_LIMIT;
use crate::numbers::truth;
use crate::parts::{has_code, parts_of};
use c_formats::formatted;
use c_meaning::Cell;
use c_texts::push_text;
use cell_heap::CellHeap;
use std::alloc::Global;
use vg_base::{Memory, ThingKind, TrapKind, UndefKind};

// One more cell stands last.
fn push_cell(cells: &mut Vec<Cell>, cell: Cell) -> Result<(), Memory>
    ensures { OnOk result (cells.new.items ≡ cells.old.items ++ cell ∷ []) }
{
    if cells.push(cell).is_err() {
        Err(Memory)
    } else {
        Ok(())
    }
}

// The cells of an error with a number: its domain, its code, and a pointer to the message behind them.
fn error_cells(
    alloc: Global,
    block: u64,
    domain: Cell,
    code: Cell,
    message: &[u8],
) -> Result<Vec<Cell>, Memory>
    ensures { IfOk result (λ cells. cells.items ≡ domain ∷ code ∷ Ptr block 3 ∷ text_cells message.now) }
{
    let mut cells = Vec::new(alloc);
    push_cell(&mut cells, domain)?;
    push_cell(&mut cells, code)?;
    push_cell(&mut cells, Cell::Ptr { block, at: 3 })?;
    push_text(&mut cells, message)?;
    Ok(cells)
}

// An error is made and given, if its message is not too long.
fn give_error(
    alloc: Global,
    heap: &mut CellHeap,
    domain: Cell,
    code: Cell,
    message: &[u8],
) -> Result<LibEnd, Memory>
    ensures { IfOk result (InRun (λ s. give_error s domain code message.now) heap.old heap.new) }
{
    if message.len() as u64 >= LENGTH_LIMIT {
        return Ok(quiet(alloc, LibWhat::Aborted(TrapKind::Length)));
    }
    let Ok(block) = heap.make(message.len() as u64 + 4) else {
        return Err(Memory);
    };
    let cells = error_cells(alloc, block, domain, code, message)?;
    heap.set_cells(block, 0, cells.as_slice());
    noted(
        alloc,
        Note::Made {
            block,
            kind: ThingKind::Error,
        },
        LibWhat::Value(Cell::Ptr { block, at: 0 }),
    )
}

/// An error of a domain and a code, with a message by a format.
pub fn g_error_new(
    alloc: Global,
    heap: &mut CellHeap,
    kinds: &Kinds,
    args: &[Cell],
) -> Result<LibEnd, Memory>
    ensures { IfOk result (IsRow g_error_new args.now heap.old kinds.now heap.new) }
{
    if args.len() < 3 {
        return Ok(undefined(alloc, UndefKind::Kind));
    }
    let domain = args[0];
    let code = args[1];
    let format = args[2];
    match formatted(alloc, heap, format, &args[3..]) {
        Ok(message) => give_error(alloc, heap, domain, code, message.as_slice()),
        Err(fault) => refused(alloc, fault),
    }
}

/// An error is freed.
pub fn g_error_free(
    alloc: Global,
    heap: &mut CellHeap,
    kinds: &Kinds,
    args: &[Cell],
) -> Result<LibEnd, Memory>
    ensures { IfOk result (IsRow g_error_free args.now heap.old kinds.now heap.new) }
{
    let Some(cell) = one(args) else {
        return Ok(undefined(alloc, UndefKind::Kind));
    };
    match thing_of(heap, kinds, ThingKind::Error, cell) {
        Ok(block) => give_up(alloc, heap, block),
        Err(kind) => Ok(undefined(alloc, kind)),
    }
}

// A copy of an error with a number is made and given.
fn copy_error(alloc: Global, heap: &mut CellHeap, block: u64) -> Result<LibEnd, Memory>
    ensures { IfOk result (InRun (λ s. on s (parts_of s block) (λ p. give_error s p.domain p.code p.message)) heap.old heap.new) }
{
    match parts_of(alloc, heap, block) {
        Ok(parts) => give_error(
            alloc,
            heap,
            parts.domain,
            parts.code,
            parts.message.as_slice(),
        ),
        Err(fault) => refused(alloc, fault),
    }
}

/// A copy of an error.
pub fn g_error_copy(
    alloc: Global,
    heap: &mut CellHeap,
    kinds: &Kinds,
    args: &[Cell],
) -> Result<LibEnd, Memory>
    ensures { IfOk result (IsRow g_error_copy args.now heap.old kinds.now heap.new) }
{
    let Some(cell) = one(args) else {
        return Ok(undefined(alloc, UndefKind::Kind));
    };
    match thing_of(heap, kinds, ThingKind::Error, cell) {
        Ok(block) => copy_error(alloc, heap, block),
        Err(kind) => Ok(undefined(alloc, kind)),
    }
}

// Whether the error with a number has a domain and a code is given.
fn test_error(alloc: Global, heap: &CellHeap, block: u64, domain: Cell, code: Cell) -> LibEnd
    ensures { InRun (λ s. on s (has_code s block domain code) (λ b. give s (truth b))) heap.now heap.now result }
{
    match has_code(heap, block, domain, code) {
        Ok(holds) => value(alloc, truth(holds)),
        Err(kind) => undefined(alloc, kind),
    }
}

/// Whether an error has a domain and a code; null has none.
pub fn g_error_matches(
    alloc: Global,
    heap: &CellHeap,
    kinds: &Kinds,
    args: &[Cell],
) -> Result<LibEnd, Memory>
    ensures { IfOk result (IsRow g_error_matches args.now heap.now kinds.now heap.now) }
{
    let Some((cell, domain, code)) = three(args) else {
        return Ok(undefined(alloc, UndefKind::Kind));
    };
    if let Cell::Null = cell {
        return Ok(value(alloc, truth(false)));
    }
    match thing_of(heap, kinds, ThingKind::Error, cell) {
        Ok(block) => Ok(test_error(alloc, heap, block, domain, code)),
        Err(kind) => Ok(undefined(alloc, kind)),
    }
}
