// Places and values.

ghost use Rattle.std.specs.Prelude.{◌≡◌, IfOk};
ghost use Rattle.c_meaning.specs.Numbers as spec;
ghost use Rattle.c_code.specs.Coded as coded;
ghost use Rattle.c_texts.specs.Answers.{Answers};
ghost use Rattle.c_code.specs.Values.{place_seen, value_seen};
ghost use Rattle.c_evaluator.specs.Seen.{reached_seen};

use c_code::{Place, Value};
use c_meaning::Cell;
use std::alloc::Global;
use vg_base::{Fault, Memory, UndefKind};

/// What code comes to.
#[derive(Drop)]
pub enum Reached {
    At(Place),
    Of(Value),
}

/// The same cells.
pub fn copied(alloc: Global, cells: &[Cell]) -> Result<Vec<Cell>, Memory>
    ensures { IfOk result (λ copy. copy.items ≡ cells.now) }
{
    let mut copy = Vec::new(alloc);
    match copy.extend_from_slice(cells) {
        Ok(()) => Ok(copy),
        Err(_) => Err(Memory),
    }
}

/// The same value.
pub fn copy(alloc: Global, value: &Value) -> Result<Value, Memory>
    ensures { IfOk result (λ copy. value_seen copy ≡ value_seen value.now) }
{
    match value {
        Value::Scalar(cell) => Ok(Value::Scalar(*cell)),
        Value::Struct(cells) => Ok(Value::Struct(copied(alloc, cells.as_slice())?)),
    }
}

/// The one cell of a value.
pub fn scalar(value: Value) -> Result<Cell, Fault<UndefKind>>
    ensures { Answers (λ cell. cell) result (spec.scalar (value_seen value)) }
{
    match value {
        Value::Scalar(cell) => Ok(cell),
        Value::Struct(_) => Err(Fault::Refused(UndefKind::Kind)),
    }
}

/// The value that was reached.
pub fn as_value(reached: Reached) -> Result<Value, Fault<UndefKind>>
    ensures { Answers value_seen result (coded.value (reached_seen reached)) }
{
    match reached {
        Reached::Of(value) => Ok(value),
        Reached::At(_) => Err(Fault::Refused(UndefKind::Kind)),
    }
}

/// The place that was reached.
pub fn as_place(reached: Reached) -> Result<Place, Fault<UndefKind>>
    ensures { Answers place_seen result (coded.place (reached_seen reached)) }
{
    match reached {
        Reached::At(place) => Ok(place),
        Reached::Of(_) => Err(Fault::Refused(UndefKind::Kind)),
    }
}
