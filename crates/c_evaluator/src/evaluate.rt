// Evaluation of code: from where it starts, by its moves.

ghost use Rattle.std.specs.Prelude.{◌≡◌, ◌∷◌, map, Ok};
ghost use Rattle.c_meaning.specs.Blocks.{bind};
ghost use Rattle.c_meaning.specs.Numbers as numbers;
ghost use Rattle.c_meaning.specs.Values as values;
ghost use Rattle.c_code.specs.Coded as spec;
ghost use Rattle.c_texts.specs.Answers.{Answers};
ghost use Rattle.c_evaluator.specs.Parts.{alternative_coded, in_kinds, is_true, move_coded, operation_coded, start_coded};
ghost use Rattle.c_evaluator.specs.Choices.{Finds};
ghost use Rattle.c_code.specs.Values.{place_seen, value_seen};
ghost use Rattle.c_evaluator.specs.Seen.{reached_seen};

use crate::moves::{followed, from_place, indexed, negated};
use crate::numbers::{converted, is_false, signed, truth};
use crate::operations::{combined, truth_of};
use crate::value::{Reached, as_place, as_value, scalar};
use c_code::{Alternative, Code, Move, Operation, Place, Start, Value};
use c_meaning::Cell;
use c_tree::BinaryOperator;
use cell_heap::CellHeap;
use std::alloc::Global;
use vg_base::{Fault, UndefKind};

// What code comes to, in the frame whose variables are that block.
#[cycle(code)]
fn reached(
    alloc: Global,
    heap: &CellHeap,
    frame: u64,
    code: &Code,
) -> Result<Reached, Fault<UndefKind>>
    ensures { Answers reached_seen result (spec.coded code.now heap.now frame) }
{
    let start = started(alloc, heap, frame, &code.start)?;
    moved_on(alloc, heap, frame, start, code.moves.as_slice())
}

/// The value that code comes to.
#[cycle(code)]
pub fn value_of(
    alloc: Global,
    heap: &CellHeap,
    frame: u64,
    code: &Code,
) -> Result<Value, Fault<UndefKind>>
    ensures { Answers value_seen result (spec.value_of code.now heap.now frame) }
{
    let found = reached(alloc, heap, frame, code)?;
    as_value(found)
}

#[cycle(code)]
fn started(
    alloc: Global,
    heap: &CellHeap,
    frame: u64,
    start: &Start,
) -> Result<Reached, Fault<UndefKind>>
    ensures { Answers reached_seen result (start_coded start.now heap.now frame) }
{
    match start {
        Start::Cell(cell) => Ok(Reached::Of(Value::Scalar(*cell))),
        Start::Local(at) => Ok(Reached::At(Place {
            block: frame,
            at: *at,
        })),
        Start::Block(block) => Ok(Reached::At(Place {
            block: *block,
            at: 0,
        })),
        Start::Nothing => Err(Fault::Refused(UndefKind::Kind)),
        Start::Chain(first, operations) => {
            let value = value_of(alloc, heap, frame, first.get())?;
            let value = operated(alloc, heap, frame, value, operations.as_slice())?;
            Ok(Reached::Of(value))
        }
        Start::Choice(alternatives, last) => {
            if let Some(value) = chosen(alloc, heap, frame, alternatives.as_slice())? {
                return Ok(Reached::Of(value));
            }
            let value = value_of(alloc, heap, frame, last.get())?;
            let value = in_kinds(alternatives.as_slice(), value)?;
            Ok(Reached::Of(value))
        }
    }
}

// Moves, the first one first.
#[cycle(code)]
fn moved_on(
    alloc: Global,
    heap: &CellHeap,
    frame: u64,
    mut reached: Reached,
    moves: &[Move],
) -> Result<Reached, Fault<UndefKind>>
    ensures { Answers reached_seen result (spec.all_moves (map move_coded moves.now) heap.now frame (Ok (reached_seen reached))) }
{
    for way in moves {
        reached = moved_by(alloc, heap, frame, reached, way)?;
    }
    Ok(reached)
}

#[cycle(code)]
fn moved_by(
    alloc: Global,
    heap: &CellHeap,
    frame: u64,
    reached: Reached,
    way: &Move,
) -> Result<Reached, Fault<UndefKind>>
    ensures { Answers reached_seen result (move_coded way.now heap.now frame (reached_seen reached)) }
{
    match reached {
        Reached::At(place) => from_place(alloc, heap, frame, way, place),
        Reached::Of(value) => from_value(alloc, heap, frame, way, value),
    }
}

#[cycle(code)]
fn from_value(
    alloc: Global,
    heap: &CellHeap,
    frame: u64,
    way: &Move,
    value: Value,
) -> Result<Reached, Fault<UndefKind>>
    ensures { Answers reached_seen result (move_coded way.now heap.now frame (spec.Of (value_seen value))) }
{
    match way {
        Move::Not => Ok(Reached::Of(negated(value)?)),
        Move::Sign(sign, kind) => Ok(Reached::Of(signed(*sign, *kind, value)?)),
        Move::Convert(kind) => Ok(Reached::Of(converted(*kind, value)?)),
        Move::Follow => Ok(Reached::At(followed(heap, value)?)),
        Move::Index(index, cells) => {
            let steps = value_of(alloc, heap, frame, index)?;
            Ok(Reached::At(indexed(heap, *cells, value, steps)?))
        }
        Move::Read(_, _) | Move::Address | Move::Field(_) => {
            Err(Fault::Refused(UndefKind::Kind))
        }
    }
}

// Operations on a value, from the left.
#[cycle(code)]
fn operated(
    alloc: Global,
    heap: &CellHeap,
    frame: u64,
    mut value: Value,
    operations: &[Operation],
) -> Result<Value, Fault<UndefKind>>
    ensures { Answers value_seen result (spec.operated heap.now frame (Ok (value_seen value)) (map operation_coded operations.now)) }
{
    for operation in operations {
        value = operate(alloc, heap, frame, value, operation)?;
    }
    Ok(value)
}

#[cycle(code)]
fn operate(
    alloc: Global,
    heap: &CellHeap,
    frame: u64,
    value: Value,
    operation: &Operation,
) -> Result<Value, Fault<UndefKind>>
    ensures { Answers value_seen result (spec.operate heap.now frame (operation_coded operation.now) (operation_coded operation.now).operator (value_seen value)) }
{
    match operation.operator {
        BinaryOperator::And => shortened(alloc, heap, frame, false, value, &operation.operand),
        BinaryOperator::Or => shortened(alloc, heap, frame, true, value, &operation.operand),
        _ => {
            let first = scalar(value)?;
            let second = cell_of(alloc, heap, frame, &operation.operand)?;
            Ok(Value::Scalar(combined(heap, operation, first, second)?))
        }
    }
}

// `&&` or `||`: the second operand is evaluated where the first does not decide.
#[cycle(code)]
fn shortened(
    alloc: Global,
    heap: &CellHeap,
    frame: u64,
    decides: bool,
    value: Value,
    operand: &Code,
) -> Result<Value, Fault<UndefKind>>
    ensures { Answers value_seen result (values.shortened decides (value_seen value) (λ u. spec.value_of operand.now heap.now frame)) }
{
    let first = scalar(value)?;
    if is_false(first) != decides {
        return Ok(Value::Scalar(truth(decides)));
    }
    let second = value_of(alloc, heap, frame, operand)?;
    truth_of(second)
}

/// The one cell that code comes to.
#[cycle(code)]
pub fn cell_of(
    alloc: Global,
    heap: &CellHeap,
    frame: u64,
    code: &Code,
) -> Result<Cell, Fault<UndefKind>>
    ensures { Answers (λ cell. cell) result (spec.cell_of code.now heap.now frame) }
{
    let found = value_of(alloc, heap, frame, code)?;
    scalar(found)
}

// A value in the kinds of choices, the last one first.
fn in_kinds(alternatives: &[Alternative], mut value: Value) -> Result<Value, Fault<UndefKind>>
    ensures { Answers value_seen result (in_kinds (map alternative_coded alternatives.now) (Ok (value_seen value))) }
{
    let mut index = alternatives.len();
    while index > 0 {
        index -= 1;
        let alternative = &alternatives[index];
        value = converted(alternative.gives, value)?;
    }
    Ok(value)
}

// The value of the first choice whose condition is true, and none where each is false.
#[cycle(code)]
fn chosen(
    alloc: Global,
    heap: &CellHeap,
    frame: u64,
    alternatives: &[Alternative],
) -> Result<Option<Value>, Fault<UndefKind>>
    ensures { Finds (map alternative_coded alternatives.now) heap.now frame result }
{
    for (index, alternative) in alternatives.iter().enumerate() {
        if is_chosen(alloc, heap, frame, alternative)? {
            let value = value_of(alloc, heap, frame, &alternative.yes)?;
            let value = in_kinds(&alternatives[..index + 1], value)?;
            return Ok(Some(value));
        }
    }
    Ok(None)
}

#[cycle(code)]
fn is_chosen(
    alloc: Global,
    heap: &CellHeap,
    frame: u64,
    alternative: &Alternative,
) -> Result<bool, Fault<UndefKind>>
    ensures { Answers (λ test. test) result (is_true (alternative_coded alternative.now).test heap.now frame) }
{
    let cell = cell_of(alloc, heap, frame, &alternative.test)?;
    Ok(!is_false(cell))
}

/// The place that code comes to.
pub fn place_of(
    alloc: Global,
    heap: &CellHeap,
    frame: u64,
    code: &Code,
) -> Result<Place, Fault<UndefKind>>
    ensures { Answers place_seen result (spec.place_of code.now heap.now frame) }
{
    let found = reached(alloc, heap, frame, code)?;
    as_place(found)
}
