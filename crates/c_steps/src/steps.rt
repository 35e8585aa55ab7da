// Steps: an item of the work, and then what takes no step.

ghost use Rattle.std.specs.Prelude.{◌≡◌, IfOk, OnOk, slice_get};
ghost use Rattle.std.specs.Option.{option_copied};
ghost use Rattle.c_code.specs.Machine.{gives_nothing, is_passed, is_silent, statement_at};
ghost use Rattle.c_run_state.specs.Shows.{frame_seen, item_seen};
ghost use Rattle.c_run_state.specs.declared.state.Work.TheVariants as work;
ghost use Rattle.c_steps.specs.Performs.{Does, DoesFirst, DoesNext, DoesSilently, MakesStep, Settles, TellsEnough, TellsSilence};

use crate::calls::{ask, body_of};
use crate::entries::enter_frame;
use crate::keeping::keep;
use crate::perform::perform;
use c_code::{Routine, Statement};
use c_run_state::{Frame, Run, Work};
use std::alloc::Global;
use vg_base::Memory;

// The statement at a frame's place.
fn statement_at(routines: &[Routine], frame: Frame) -> Option<&Statement>
    ensures { option_copied result ≡ statement_at routines.now (frame_seen frame) }
{
    body_of(routines, frame.routine)?
        .statements
        .as_slice()
        .get(frame.at as usize)
}

// Whether a function gives nothing.
fn gives_nothing(routines: &[Routine], number: u64) -> bool
    ensures { result ≡ gives_nothing (slice_get routines.now number) }
{
    match routines.get(number as usize) {
        None => true,
        Some(routine) => routine.is_void,
    }
}

// Whether there is no statement, or one that only passes others over.
fn is_passed(statement: Option<&Statement>) -> bool
    ensures { result ≡ is_passed (option_copied statement.entry) }
{
    match statement {
        None => true,
        Some(statement) => matches!(statement, Statement::Pass(_)),
    }
}

// Whether an item takes no step.
fn is_silent(routines: &[Routine], work: &Work) -> bool
    ensures { result ≡ is_silent routines.now (item_seen work.now) }
{
    match work {
        Work::Run(frame) => is_passed(statement_at(routines, *frame)),
        Work::Enter(_, _) | Work::Ask(_, _) => false,
        Work::Keep(_, _) | Work::Finish => true,
    }
}

// Whether the next item takes no step, where the run goes on.
fn next_is_silent(run: &Run, routines: &[Routine]) -> bool
    ensures { TellsSilence routines.now run.now result }
{
    if run.ended.is_some() {
        return false;
    }
    match run.work.last() {
        None => false,
        Some(work) => is_silent(routines, work),
    }
}

// A frame stands behind its last statement, or before one that passes others over.
fn pass(run: &mut Run, routines: &[Routine], frame: Frame) -> Result<(), Memory>
    ensures { OnOk result (DoesSilently routines.now (work.Run frame) run.old run.new) }
{
    match statement_at(routines, frame) {
        None => run.end_body(frame, gives_nothing(routines, frame.routine)),
        Some(Statement::Pass(count)) => run.skip(frame, *count),
        Some(_) => Ok(()),
    }
}

// An item that takes no step is done.
fn do_silent(run: &mut Run, routines: &[Routine], work: &Work) -> Result<(), Memory>
    ensures { OnOk result (DoesSilently routines.now work.now run.old run.new) }
{
    match work {
        Work::Run(frame) => pass(run, routines, *frame),
        Work::Keep(place, taken) => keep(run, *place, *taken),
        Work::Finish => run.finish(),
        Work::Enter(_, _) => Ok(()),
        Work::Ask(_, _) => Ok(()),
    }
}

// How many items can be in front that take no step.
fn enough(run: &Run) -> Result<u64, Memory>
    ensures { IfOk result (TellsEnough run.now) }
{
    match (run.work.len() as u64 + 1).checked_mul(128) {
        Some(count) => Ok(count),
        None => Err(Memory),
    }
}

// The next item is done, which takes no step.
fn do_next_silent(run: &mut Run, routines: &[Routine]) -> Result<(), Memory>
    ensures { OnOk result (DoesFirst routines.now run.old run.new) }
{
    match run.pop() {
        None => Ok(()),
        Some(work) => do_silent(run, routines, &work),
    }
}

// So many items in front that take no step are done.
fn settle(run: &mut Run, routines: &[Routine], most: u64) -> Result<(), Memory>
    ensures { OnOk result (Settles routines.now most run.old run.new) }
{
    for done in 0..most {
        if !next_is_silent(run, routines) {
            return Ok(());
        }
        do_next_silent(run, routines)?;
    }
    Ok(())
}

// An item of the work is done.
fn do_item(alloc: Global, run: &mut Run, routines: &[Routine], work: Work) -> Result<(), Memory>
    ensures { OnOk result (Does routines.now work run.old run.new) }
{
    match work {
        Work::Run(frame) => match statement_at(routines, frame) {
            None => Ok(()),
            Some(statement) => perform(alloc, run, routines, frame, statement),
        },
        Work::Enter(number, values) => {
            enter_frame(alloc, run, routines, number, values.as_slice())
        }
        Work::Ask(cell, cells) => ask(alloc, run, routines, cell, cells.as_slice()),
        Work::Keep(place, taken) => keep(run, place, taken),
        Work::Finish => run.finish(),
    }
}

// The next item of the work is done.
fn do_next(alloc: Global, run: &mut Run, routines: &[Routine]) -> Result<(), Memory>
    ensures { OnOk result (DoesNext routines.now run.old run.new) }
{
    match run.pop() {
        None => Ok(()),
        Some(work) => do_item(alloc, run, routines, work),
    }
}

/// A step of a run that goes on. What the step before said is handed on.
pub fn make_step(alloc: Global, run: &mut Run, routines: &[Routine]) -> Result<(), Memory>
    ensures { OnOk result (MakesStep routines.now run.old run.new) }
{
    run.begin_step();
    do_next(alloc, run, routines)?;
    let most = enough(run)?;
    settle(run, routines, most)
}
