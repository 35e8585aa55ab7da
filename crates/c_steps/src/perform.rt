// One statement of a frame is done.

ghost use Rattle.std.specs.Prelude.{◌≡◌, OnOk};
ghost use Rattle.std.specs.Option.{option_copied};
ghost use Rattle.c_code.specs.Machine.{case_target, number};
ghost use Rattle.c_code.specs.declared.program.Statement.TheVariants as statement;
ghost use Rattle.c_steps.specs.Performs.{Performs};

use crate::calls::call;
use crate::refusals::refuse;
use c_code::{Call, Case, Code, Figure, Routine, Statement, Taken};
use c_evaluator::{cell_of, is_false, number_of, place_of, value_of};
use c_run_state::{Frame, Run, Work};
use std::alloc::Global;
use vg_base::Memory;

// `place = value;`
fn assign(
    alloc: Global,
    run: &mut Run,
    routines: &[Routine],
    frame: Frame,
    place: &Code,
    value: &Code,
) -> Result<(), Memory>
    ensures { OnOk result (Performs routines.now frame (statement.Assign place.now value.now) run.old run.new) }
{
    let place = match place_of(alloc, &run.heap, frame.block, place) {
        Ok(place) => place,
        Err(fault) => return refuse(run, fault),
    };
    let value = match value_of(alloc, &run.heap, frame.block, value) {
        Ok(value) => value,
        Err(fault) => return refuse(run, fault),
    };
    run.onward(frame)?;
    run.store(place, &value);
    Ok(())
}

// `place = call;`
fn store(
    alloc: Global,
    run: &mut Run,
    routines: &[Routine],
    frame: Frame,
    place: &Code,
    taken: Taken,
    made: &Call,
) -> Result<(), Memory>
    ensures { OnOk result (Performs routines.now frame (statement.Store place.now taken made.now) run.old run.new) }
{
    let place = match place_of(alloc, &run.heap, frame.block, place) {
        Ok(place) => place,
        Err(fault) => return refuse(run, fault),
    };
    run.onward(frame)?;
    run.push(Work::Keep(place, taken))?;
    call(alloc, run, routines, frame.block, made)
}

// A call whose result is not wanted.
fn call_only(
    alloc: Global,
    run: &mut Run,
    routines: &[Routine],
    frame: Frame,
    made: &Call,
) -> Result<(), Memory>
    ensures { OnOk result (Performs routines.now frame (statement.Call made.now) run.old run.new) }
{
    run.onward(frame)?;
    call(alloc, run, routines, frame.block, made)
}

// `if (value)` before a block of so many statements.
fn test(
    alloc: Global,
    run: &mut Run,
    routines: &[Routine],
    frame: Frame,
    value: &Code,
    passed: u64,
) -> Result<(), Memory>
    ensures { OnOk result (Performs routines.now frame (statement.Test value.now passed) run.old run.new) }
{
    match cell_of(alloc, &run.heap, frame.block, value) {
        Ok(cell) => {
            if is_false(cell) {
                run.skip(frame, passed)
            } else {
                run.onward(frame)
            }
        }
        Err(fault) => refuse(run, fault),
    }
}

// `if (value) goto L;`
fn test_jump(
    alloc: Global,
    run: &mut Run,
    routines: &[Routine],
    frame: Frame,
    value: &Code,
    target: u64,
) -> Result<(), Memory>
    ensures { OnOk result (Performs routines.now frame (statement.TestJump value.now target) run.old run.new) }
{
    match cell_of(alloc, &run.heap, frame.block, value) {
        Ok(cell) => {
            if is_false(cell) {
                run.onward(frame)
            } else {
                run.at_place(frame, target)
            }
        }
        Err(fault) => refuse(run, fault),
    }
}

// A whole number.
fn number_in(figure: Figure) -> i128
    ensures { result ≡ number figure }
{
    if figure.is_negative {
        -(figure.size as i128)
    } else {
        figure.size as i128
    }
}

// The target of the first case of a number.
fn target_of(number: i128, cases: &[Case], default: u64) -> u64
    ensures { result ≡ case_target number cases.now default }
{
    for case in cases {
        if number_in(case.number) == number {
            return case.target;
        }
    }
    default
}

// `switch`
fn switch(
    alloc: Global,
    run: &mut Run,
    routines: &[Routine],
    frame: Frame,
    value: &Code,
    cases: &[Case],
    default: u64,
) -> Result<(), Memory>
    ensures { OnOk result (Performs routines.now frame (statement.Switch value.now cases.now default) run.old run.new) }
{
    let cell = match cell_of(alloc, &run.heap, frame.block, value) {
        Ok(cell) => cell,
        Err(fault) => return refuse(run, fault),
    };
    match number_of(cell) {
        Ok(number) => run.at_place(frame, target_of(number, cases, default)),
        Err(fault) => refuse(run, fault),
    }
}

// `return value;`
fn return_value(
    alloc: Global,
    run: &mut Run,
    routines: &[Routine],
    frame: Frame,
    value: Option<&Code>,
) -> Result<(), Memory>
    ensures { OnOk result (Performs routines.now frame (statement.Return (option_copied value.entry)) run.old run.new) }
{
    match value {
        None => run.leave(frame, None),
        Some(code) => match value_of(alloc, &run.heap, frame.block, code) {
            Ok(value) => run.leave(frame, Some(value)),
            Err(fault) => refuse(run, fault),
        },
    }
}

/// A statement of a frame.
pub fn perform(
    alloc: Global,
    run: &mut Run,
    routines: &[Routine],
    frame: Frame,
    statement: &Statement,
) -> Result<(), Memory>
    ensures { OnOk result (Performs routines.now frame statement.now run.old run.new) }
{
    match statement {
        Statement::Test(value, passed) => test(alloc, run, routines, frame, value, *passed),
        Statement::TestJump(value, target) => {
            test_jump(alloc, run, routines, frame, value, *target)
        }
        Statement::Switch(value, cases, default) => {
            switch(
                alloc,
                run,
                routines,
                frame,
                value,
                cases.as_slice(),
                *default,
            )
        }
        Statement::Jump(target) => run.at_place(frame, *target),
        Statement::Return(value) => return_value(alloc, run, routines, frame, value.as_ref()),
        Statement::Onward => run.onward(frame),
        Statement::Pass(_) => run.onward(frame),
        Statement::Assign(place, value) => assign(alloc, run, routines, frame, place, value),
        Statement::Call(made) => call_only(alloc, run, routines, frame, made),
        Statement::Store(place, taken, made) => {
            store(alloc, run, routines, frame, place, *taken, made)
        }
    }
}
