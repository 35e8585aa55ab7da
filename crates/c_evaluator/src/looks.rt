// What is found in the blocks of a heap.

ghost use Rattle.std.specs.Prelude.{◌≡◌, ◌*ℤ◌, neg_ℤ, pos};
ghost use Rattle.c_meaning.specs.Numbers.{place_in};
ghost use Rattle.c_code.specs.Looks as looks;
ghost use Rattle.c_texts.specs.Answers.{Answers};
ghost use Rattle.c_code.specs.Values.{place_seen, value_seen};

use crate::numbers::converted;
use crate::value::copied;
use c_code::{Place, Value};
use c_meaning::Cell;
use c_numbers::is_struct;
use c_texts::no_pointer;
use c_tree::Kind;
use cell_heap::CellHeap;
use std::alloc::Global;
use vg_base::{Fault, UndefKind};

/// The cell at a place.
pub fn get(heap: &CellHeap, place: Place) -> Result<Cell, Fault<UndefKind>>
    ensures { Answers (λ cell. cell) result (looks.get_in heap.now (place_seen place)) }
{
    if heap.length(place.block).is_none() {
        return Err(Fault::Refused(UndefKind::Freed));
    }
    match heap.get(place.block, place.at) {
        Some(cell) => Ok(cell),
        None => Err(Fault::Refused(UndefKind::Outside)),
    }
}

// So many cells from a place on.
fn get_cells(
    alloc: Global,
    heap: &CellHeap,
    place: Place,
    count: u64,
) -> Result<Vec<Cell>, Fault<UndefKind>>
    ensures { Answers (λ cells. cells.items) result (looks.get_cells_in heap.now (place_seen place) count) }
{
    if heap.length(place.block).is_none() {
        return Err(Fault::Refused(UndefKind::Freed));
    }
    match heap.get_cells(place.block, place.at, count) {
        Some(cells) => match copied(alloc, cells) {
            Ok(copy) => Ok(copy),
            Err(_) => Err(Fault::Memory),
        },
        None => Err(Fault::Refused(UndefKind::Outside)),
    }
}

/// The value at a place of a kind that takes so many cells.
pub fn read(
    alloc: Global,
    heap: &CellHeap,
    kind: Kind,
    cells: u64,
    place: Place,
) -> Result<Value, Fault<UndefKind>>
    ensures { Answers value_seen result (looks.read_in heap.now kind cells (place_seen place)) }
{
    if is_struct(kind) {
        Ok(Value::Struct(get_cells(alloc, heap, place, cells)?))
    } else {
        let cell = get(heap, place)?;
        converted(kind, Value::Scalar(cell))
    }
}

/// The place that a pointer leads to.
pub fn pointed(heap: &CellHeap, cell: Cell) -> Result<Place, Fault<UndefKind>>
    ensures { Answers place_seen result (looks.pointed_in heap.now cell) }
{
    match cell {
        Cell::Ptr { block, at } => match heap.length(block) {
            Some(_) => Ok(Place { block, at }),
            None => Err(Fault::Refused(UndefKind::Freed)),
        },
        _ => Err(Fault::Refused(no_pointer(cell))),
    }
}

// A place of a block of that length.
fn place_in(block: u64, length: u64, at: i128) -> Result<Place, Fault<UndefKind>>
    ensures { Answers place_seen result (place_in block length at) }
{
    if 0 <= at && at <= length as i128 {
        Ok(Place {
            block,
            at: at as u64,
        })
    } else {
        Err(Fault::Refused(UndefKind::Outside))
    }
}

/// A place so many steps on, of so many cells each, within 0 and the length of its block.
pub fn moved(
    heap: &CellHeap,
    place: Place,
    steps: i128,
    cells: u64,
) -> Result<Place, Fault<UndefKind>>
    ensures { Answers place_seen result (looks.moved_in heap.now (place_seen place) (steps *ℤ pos cells)) }
{
    let Some(length) = heap.length(place.block) else {
        return Err(Fault::Refused(UndefKind::Freed));
    };
    let Some(way) = steps.checked_mul(cells as i128) else {
        return Err(Fault::Refused(UndefKind::Outside));
    };
    match (place.at as i128).checked_add(way) {
        Some(at) => place_in(place.block, length, at),
        None => Err(Fault::Refused(UndefKind::Outside)),
    }
}

/// The same back.
pub fn moved_back(
    heap: &CellHeap,
    place: Place,
    steps: i128,
    cells: u64,
) -> Result<Place, Fault<UndefKind>>
    ensures { Answers place_seen result (looks.moved_in heap.now (place_seen place) (neg_ℤ (steps *ℤ pos cells))) }
{
    let Some(length) = heap.length(place.block) else {
        return Err(Fault::Refused(UndefKind::Freed));
    };
    let Some(way) = steps.checked_mul(cells as i128) else {
        return Err(Fault::Refused(UndefKind::Outside));
    };
    match (place.at as i128).checked_sub(way) {
        Some(at) => place_in(place.block, length, at),
        None => Err(Fault::Refused(UndefKind::Outside)),
    }
}
