// Entries into functions.

ghost use Rattle.std.specs.Prelude.{◌≡◌, ◌++◌, OnOk, map, slice_get};
ghost use Rattle.c_code.specs.Machine.{argument_cells, body_of, enter_frame};
ghost use Rattle.c_code.specs.Values.{value_seen};
ghost use Rattle.c_meaning.specs.Steps.{cells_in, is_same_sort};
ghost use Rattle.c_tree.specs.Kinds as kinds;
ghost use Rattle.c_texts.specs.Answers.{Answers};
ghost use Rattle.c_steps.specs.Performs.{Goes};

use crate::calls::body_of;
use crate::refusals::{refuse, undefined};
use c_code::{Routine, Taken, Value};
use c_meaning::Cell;
use c_run_state::Run;
use c_tree::{Kind, KindBase};
use std::alloc::Global;
use vg_base::{Fault, Memory, UndefKind};

fn is_struct(kind: Kind) -> bool
    ensures { result ≡ kinds.is_struct kind }
{
    matches!(kind.base, KindBase::Struct(_)) && kind.stars == 0
}

/// Whether a value is of the sort that a place takes: a cell, or a struct of so many cells.
pub fn fits(taken: Taken, value: &Value) -> bool
    ensures { result ≡ is_same_sort (kinds.is_struct taken.kind) taken.cells (value_seen value.now) }
{
    match value {
        Value::Scalar(_) => !is_struct(taken.kind),
        Value::Struct(cells) => is_struct(taken.kind) && cells.len() as u64 == taken.cells,
    }
}

// The cells of a value stand last.
fn push_cells(cells: &mut Vec<Cell>, value: &Value) -> Result<(), Memory>
    ensures { OnOk result (cells.new.items ≡ cells.old.items ++ cells_in (value_seen value.now)) }
{
    let pushed = match value {
        Value::Scalar(cell) => cells.push(*cell).is_ok(),
        Value::Struct(more) => cells.extend_from_slice(more.as_slice()).is_ok(),
    };
    if pushed { Ok(()) } else { Err(Memory) }
}

// The cells of arguments, each of which fits its parameter.
fn argument_cells(
    alloc: Global,
    parameters: &[Taken],
    values: &[Value],
) -> Result<Vec<Cell>, Fault<UndefKind>>
    ensures { Answers (λ cells. cells.items) result (argument_cells parameters.now (map value_seen values.now)) }
{
    let mut cells = Vec::new(alloc);
    for (index, value) in values.iter().enumerate() {
        let Some(taken) = parameters.get(index) else {
            return Ok(cells);
        };
        if !fits(*taken, value) {
            return Err(Fault::Refused(UndefKind::Kind));
        }
        if push_cells(&mut cells, value).is_err() {
            return Err(Fault::Memory);
        }
    }
    Ok(cells)
}

/// A function is entered with these arguments.
pub fn enter_frame(
    alloc: Global,
    run: &mut Run,
    routines: &[Routine],
    number: u64,
    values: &[Value],
) -> Result<(), Memory>
    ensures { OnOk result (Goes (λ s. enter_frame s number (map value_seen values.now) (body_of (slice_get routines.now number))) run.old run.new) }
{
    match body_of(routines, number) {
        None => undefined(run, UndefKind::Func),
        Some(body) => match argument_cells(alloc, body.parameters.as_slice(), values) {
            Ok(cells) => run.enter_with(number, body.cells, cells.as_slice()),
            Err(fault) => refuse(run, fault),
        },
    }
}
