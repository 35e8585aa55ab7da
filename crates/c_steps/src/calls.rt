// Calls, and entries into functions.

ghost use Rattle.std.specs.Prelude.{◌≡◌, ◌==◌, IfOk, OnOk, length, map, slice_get};
ghost use Rattle.std.specs.Option.{option_copied};
ghost use Rattle.c_meaning.specs.Steps.{scalars};
ghost use Rattle.c_code.specs.Machine.{body_of, call_by, call_cell, enter_routine};
ghost use Rattle.c_code.specs.declared.program.Callee.TheVariants as target;
ghost use Rattle.cell_heap.specs.States.{heap_of};
ghost use Rattle.c_code.specs.Values.{value_seen};
ghost use Rattle.c_steps.specs.Performs.{Calls, Goes};

use crate::refusals::{refuse, undefined};
use c_code::{Body, Call, Callee, Code, LibraryFunction, Routine, TypeArgument, Value};
use c_evaluator::{cell_of, cells_of, values_of};
use c_library::call as call_library;
use c_meaning::Cell;
use c_run_state::{Run, Work};
use std::alloc::Global;
use vg_base::{Memory, UndefKind};

/// The body of the function with a number, if it is defined.
pub fn body_of(routines: &[Routine], number: u64) -> Option<&Body>
    ensures { option_copied result ≡ body_of (slice_get routines.now number) }
{
    routines.get(number as usize)?.body.as_ref()
}

// Whether a function takes so many values.
fn takes(body: &Body, count: usize) -> bool
    ensures { result ≡ (length body.now.parameters == count) }
{
    body.parameters.len() == count
}

// A function is called whose number a cell holds: it is defined, and takes as many values.
fn enter(run: &mut Run, routines: &[Routine], number: u64, values: Vec<Value>) -> Result<(), Memory>
    ensures { OnOk result (Goes (λ s. enter_routine s number (slice_get routines.now number) (map value_seen values.items)) run.old run.new) }
{
    match body_of(routines, number) {
        None => undefined(run, UndefKind::Func),
        Some(body) => {
            if takes(body, values.len()) {
                run.push(Work::Enter(number, values))
            } else {
                undefined(run, UndefKind::Func)
            }
        }
    }
}

// What a cell holds is called.
fn call_cell(
    run: &mut Run,
    routines: &[Routine],
    values: Vec<Value>,
    cell: Cell,
) -> Result<(), Memory>
    ensures { OnOk result (Goes (λ s. call_cell routines.now s (map value_seen values.items) cell) run.old run.new) }
{
    match cell {
        Cell::Func(number) => enter(run, routines, number, values),
        Cell::Null => undefined(run, UndefKind::Null),
        Cell::Unset => undefined(run, UndefKind::Unset),
        Cell::Ptr { block: _, at: _ } => undefined(run, UndefKind::Func),
        Cell::Int(_) => undefined(run, UndefKind::Kind),
        Cell::Uns(_) => undefined(run, UndefKind::Kind),
    }
}

// Cells as values.
fn scalars(alloc: Global, cells: &[Cell]) -> Result<Vec<Value>, Memory>
    ensures { IfOk result (λ values. map value_seen values.items ≡ scalars cells.now) }
{
    let mut values = Vec::new(alloc);
    for cell in cells {
        if values.push(Value::Scalar(*cell)).is_err() {
            return Err(Memory);
        }
    }
    Ok(values)
}

/// A call that a function of the library asked for.
pub fn ask(
    alloc: Global,
    run: &mut Run,
    routines: &[Routine],
    cell: Cell,
    cells: &[Cell],
) -> Result<(), Memory>
    ensures { OnOk result (Goes (λ s. call_cell routines.now s (scalars cells.now) cell) run.old run.new) }
{
    let values = scalars(alloc, cells)?;
    call_cell(run, routines, values, cell)
}

// A value is called.
fn call_value(
    alloc: Global,
    run: &mut Run,
    routines: &[Routine],
    block: u64,
    callee: &Code,
    arguments: &[Code],
) -> Result<(), Memory>
    ensures { OnOk result (Goes (λ s. call_by routines.now (heap_of s) block s arguments.now (target.Value callee.now)) run.old run.new) }
{
    let cell = match cell_of(alloc, &run.heap, block, callee) {
        Ok(cell) => cell,
        Err(fault) => return refuse(run, fault),
    };
    match values_of(alloc, &run.heap, block, arguments) {
        Ok(values) => call_cell(run, routines, values, cell),
        Err(fault) => refuse(run, fault),
    }
}

// A function of the library is called.
fn call_row(
    alloc: Global,
    run: &mut Run,
    routines: &[Routine],
    block: u64,
    function: LibraryFunction,
    argument: TypeArgument,
    arguments: &[Code],
) -> Result<(), Memory>
    ensures { OnOk result (Goes (λ s. call_by routines.now (heap_of s) block s arguments.now (target.Library function argument)) run.old run.new) }
{
    match cells_of(alloc, &run.heap, block, arguments) {
        Ok(cells) => call_library(alloc, run, function, argument, cells.as_slice()),
        Err(fault) => refuse(run, fault),
    }
}

/// A call, with what it needs evaluated in the frame that has this block.
pub fn call(
    alloc: Global,
    run: &mut Run,
    routines: &[Routine],
    block: u64,
    made: &Call,
) -> Result<(), Memory>
    ensures { OnOk result (Calls routines.now block made.now run.old run.new) }
{
    let arguments = made.arguments.as_slice();
    match &made.callee {
        Callee::Value(callee) => call_value(alloc, run, routines, block, callee, arguments),
        Callee::Library(function, argument) => {
            call_row(alloc, run, routines, block, *function, *argument, arguments)
        }
        Callee::Nothing => undefined(run, UndefKind::Kind),
    }
}
