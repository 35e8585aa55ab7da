// The blocks that functions take.

ghost use Rattle.std.specs.Prelude.{◌≡◌};
ghost use Rattle.c_meaning.specs.BlockRows.{found, is_kind, thing_of};
ghost use Rattle.glib_model.specs.Found.{NumberOf, freeable, sliced};
ghost use Rattle.c_texts.specs.Answers.{InRuns};
ghost use Rattle.glib_model.specs.Kinds.{is_marked, is_marked_sliced, numbered};

use crate::kinds::{Kinds, Mark};
use c_meaning::Cell;
use c_texts::no_pointer;
use cell_heap::CellHeap;
use vg_base::{ThingKind, UndefKind};

fn is_kind(kind: ThingKind, other: ThingKind) -> bool
    ensures { result ≡ is_kind kind other }
{
    matches!(
        (kind, other),
        (ThingKind::Object, ThingKind::Object)
            | (ThingKind::Text, ThingKind::Text)
            | (ThingKind::Array, ThingKind::Array)
            | (ThingKind::Scope, ThingKind::Scope)
            | (ThingKind::Error, ThingKind::Error)
            | (ThingKind::Activation, ThingKind::Activation)
    )
}

fn is_marked(kind: ThingKind, mark: Option<Mark>) -> bool
    ensures { result ≡ is_marked kind mark }
{
    let Some(mark) = mark else {
        return false;
    };
    match mark.kind {
        Some(other) => is_kind(kind, other),
        None => false,
    }
}

fn is_sliced(mark: Option<Mark>) -> bool
    ensures { result ≡ is_marked_sliced mark }
{
    match mark {
        Some(mark) => mark.is_sliced,
        None => false,
    }
}

// The number of the live block whose start a pointer leads to.
fn found(heap: &CellHeap, cell: Cell) -> Result<u64, UndefKind>
    ensures { InRuns heap.now (λ s. result ≡ numbered (found s cell)) }
{
    let Cell::Ptr { block, at } = cell else {
        return Err(no_pointer(cell));
    };
    if heap.length(block).is_none() {
        return Err(UndefKind::Freed);
    }
    if at == 0 {
        Ok(block)
    } else {
        Err(UndefKind::Kind)
    }
}

/// The thing of a kind whose start a pointer leads to, by its number.
pub fn thing_of(
    heap: &CellHeap,
    kinds: &Kinds,
    kind: ThingKind,
    cell: Cell,
) -> Result<u64, UndefKind>
    ensures { NumberOf result (λ s. thing_of s kind cell) heap.now kinds.now }
{
    let block = found(heap, cell)?;
    if is_marked(kind, kinds.get(block)) {
        Ok(block)
    } else {
        Err(UndefKind::Kind)
    }
}

/// The block that `g_slice_new0` made whose start a pointer leads to, by its number.
pub fn sliced(heap: &CellHeap, kinds: &Kinds, cell: Cell) -> Result<u64, UndefKind>
    ensures { NumberOf result (λ s. sliced s cell) heap.now kinds.now }
{
    let block = found(heap, cell)?;
    if is_sliced(kinds.get(block)) {
        Ok(block)
    } else {
        Err(UndefKind::Kind)
    }
}

/// The block that `g_free` takes whose start a pointer leads to, by its number.
pub fn freeable(heap: &CellHeap, kinds: &Kinds, cell: Cell) -> Result<u64, UndefKind>
    ensures { NumberOf result (λ s. freeable s cell) heap.now kinds.now }
{
    let block = found(heap, cell)?;
    let mark = kinds.get(block);
    if is_sliced(mark) || is_marked(ThingKind::Text, mark) || is_marked(ThingKind::Array, mark) {
        Ok(block)
    } else {
        Err(UndefKind::Kind)
    }
}
