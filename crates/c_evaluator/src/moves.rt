// Moves from a value or a place that need no other value.

ghost use Rattle.std.specs.Prelude.{◌≡◌};
ghost use Rattle.c_code.specs.Coded as coded;
ghost use Rattle.c_texts.specs.Answers.{Answers};
ghost use Rattle.c_code.specs.Values.{place_seen, value_seen};
ghost use Rattle.c_evaluator.specs.Seen.{reached_seen};
ghost use Rattle.c_evaluator.specs.Parts.{move_coded};

use crate::looks::{moved, pointed, read};
use crate::numbers::{is_false, number_of, truth};
use crate::value::{Reached, scalar};
use c_code::{Move, Place, Value};
use c_meaning::Cell;
use cell_heap::CellHeap;
use std::alloc::Global;
use vg_base::{Fault, UndefKind};

/// `!value`
pub fn negated(value: Value) -> Result<Value, Fault<UndefKind>>
    ensures { Answers value_seen result (coded.negated (value_seen value)) }
{
    let cell = scalar(value)?;
    Ok(Value::Scalar(truth(is_false(cell))))
}

/// The place that a value leads to.
pub fn followed(heap: &CellHeap, value: Value) -> Result<Place, Fault<UndefKind>>
    ensures { Answers place_seen result (coded.followed heap.now (value_seen value)) }
{
    let cell = scalar(value)?;
    pointed(heap, cell)
}

/// So many steps of a pointer on, of so many cells each.
pub fn indexed(
    heap: &CellHeap,
    cells: u64,
    value: Value,
    index: Value,
) -> Result<Place, Fault<UndefKind>>
    ensures { Answers place_seen result (coded.indexed heap.now cells (value_seen value) (value_seen index)) }
{
    let cell = scalar(index)?;
    let steps = number_of(cell)?;
    let place = followed(heap, value)?;
    moved(heap, place, steps, cells)
}

/// A move from a place.
pub fn from_place(
    alloc: Global,
    heap: &CellHeap,
    frame: u64,
    way: &Move,
    place: Place,
) -> Result<Reached, Fault<UndefKind>>
    ensures { Answers reached_seen result (move_coded way.now heap.now frame (coded.At (place_seen place))) }
{
    match way {
        Move::Read(kind, cells) => { Ok(Reached::Of(read(alloc, heap, *kind, *cells, place)?)) }
        Move::Address => Ok(Reached::Of(Value::Scalar(Cell::Ptr {
            block: place.block,
            at: place.at,
        }))),
        Move::Field(cells) => Ok(Reached::At(moved(heap, place, *cells as i128, 1)?)),
        _ => Err(Fault::Refused(UndefKind::Kind)),
    }
}
