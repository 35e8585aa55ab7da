// Operations on two cells.

ghost use Rattle.std.specs.Prelude.{◌≡◌, ◌*ℤ◌, neg_ℤ, pos};
ghost use Rattle.c_meaning.specs.Blocks.{bind};
ghost use Rattle.c_meaning.specs.Numbers as numbers;
ghost use Rattle.c_meaning.specs.Numbers.{difference, number_of};
ghost use Rattle.c_meaning.specs.Values as values;
ghost use Rattle.c_code.specs.Coded as coded;
ghost use Rattle.c_code.specs.Looks.{pointed_in, stepped_in};
ghost use Rattle.c_texts.specs.Answers.{Answers};
ghost use Rattle.c_evaluator.specs.Parts.{operation_coded};
ghost use Rattle.c_code.specs.Values.{place_seen, value_seen};

use crate::looks::{moved, moved_back, pointed};
use crate::numbers::{calculated, difference, is_false, number_of, same, truth};
use crate::value::scalar;
use c_code::{Operation, Place, Value};
use c_meaning::Cell;
use c_numbers::is_integer;
use c_tree::BinaryOperator;
use cell_heap::CellHeap;
use vg_base::{Fault, UndefKind};

// The pointer to a place.
fn pointer(place: Place) -> Cell
    ensures { result ≡ numbers.to (place_seen place) }
{
    Cell::Ptr {
        block: place.block,
        at: place.at,
    }
}

// A pointer and so many steps.
fn step_on(heap: &CellHeap, x: Cell, y: Cell, cells: u64) -> Result<Cell, Fault<UndefKind>>
    ensures { Answers (λ cell. cell) result (bind (number_of y) (λ n. stepped_in heap.now x (n *ℤ pos cells))) }
{
    let steps = number_of(y)?;
    let place = pointed(heap, x)?;
    Ok(pointer(moved(heap, place, steps, cells)?))
}

// A pointer less so many steps.
fn step_back(heap: &CellHeap, x: Cell, y: Cell, cells: u64) -> Result<Cell, Fault<UndefKind>>
    ensures { Answers (λ cell. cell) result (bind (number_of y) (λ n. stepped_in heap.now x (neg_ℤ (n *ℤ pos cells)))) }
{
    let steps = number_of(y)?;
    let place = pointed(heap, x)?;
    Ok(pointer(moved_back(heap, place, steps, cells)?))
}

// The difference of two pointers.
fn pointer_difference(heap: &CellHeap, x: Cell, y: Cell) -> Result<Cell, Fault<UndefKind>>
    ensures { Answers (λ cell. cell) result (bind (pointed_in heap.now x) (λ p. bind (pointed_in heap.now y) (difference p))) }
{
    let p = pointed(heap, x)?;
    let q = pointed(heap, y)?;
    difference(p, q)
}

// A pointer or function, and another or a number.
fn pointer_result(
    heap: &CellHeap,
    operation: &Operation,
    x: Cell,
    y: Cell,
) -> Result<Cell, Fault<UndefKind>>
    ensures { Answers (λ cell. cell) result (coded.pointer_result heap.now (operation_coded operation.now) (operation_coded operation.now).operator x y) }
{
    match operation.operator {
        BinaryOperator::Add => step_on(heap, x, y, operation.step),
        BinaryOperator::Subtract if is_integer(operation.right) => {
            step_back(heap, x, y, operation.step)
        }
        BinaryOperator::Subtract => pointer_difference(heap, x, y),
        BinaryOperator::Equal => Ok(truth(same(x, y))),
        BinaryOperator::Unequal => Ok(truth(!same(x, y))),
        _ => Err(Fault::Refused(UndefKind::Kind)),
    }
}

// An operation on two numbers.
fn numbers_result(operation: &Operation, x: Cell, y: Cell) -> Result<Cell, Fault<UndefKind>>
    ensures { Answers (λ cell. cell) result (bind (number_of x) (λ a. bind (number_of y) (λ b.
        numbers.calculated (operation_coded operation.now).operator (operation_coded operation.now).gives (operation_coded operation.now).left (operation_coded operation.now).right a b))) }
{
    let a = number_of(x)?;
    let b = number_of(y)?;
    calculated(
        operation.operator,
        operation.gives,
        operation.left,
        operation.right,
        a,
        b,
    )
}

/// An operation on two cells.
pub fn combined(
    heap: &CellHeap,
    operation: &Operation,
    x: Cell,
    y: Cell,
) -> Result<Cell, Fault<UndefKind>>
    ensures { Answers (λ cell. cell) result (coded.combined heap.now (operation_coded operation.now) x y) }
{
    if is_integer(operation.left) && is_integer(operation.right) {
        numbers_result(operation, x, y)
    } else {
        pointer_result(heap, operation, x, y)
    }
}

/// Whether a value is true.
pub fn truth_of(value: Value) -> Result<Value, Fault<UndefKind>>
    ensures { Answers value_seen result (values.truth_of (value_seen value)) }
{
    let cell = scalar(value)?;
    Ok(Value::Scalar(truth(!is_false(cell))))
}
