// How far a run of a unit came, and one step on.

ghost use Rattle.std.specs.Prelude.{◌≡◌, ◌+◌, ◌≤◌, ◌^◌, is_some, map, IfErr, IfOk, OnOk};
ghost use Rattle.vg_base.specs.Headline.{Happens};
ghost use Rattle.vg_base.specs.World.{World};
ghost use Rattle.c_tree.specs.declared.unit.Unit.{Unit as CUnit};
ghost use Rattle.c_interpreter.specs.Course.{Advances, KeepsMore, Stands, told};

use crate::machine::Stepped;
use c_code::Routine;
use c_run_state::Run;
use c_steps::make_step;
use sqlite_items::Items;
use std::alloc::Global;
use vg_base::{Bytes, CEnd, Event, Memory};

/// A run with the code of its functions, how many steps were made, and their events where they are kept.
#[derive(Drop)]
pub struct Course {
    pub alloc: Global,
    pub routines: Items<Routine>,
    pub run: Run,
    pub done: u64,
    pub trace: Option<Vec<Event>>,
}

// The same bytes again.
fn copied(bytes: &Bytes) -> Result<Bytes, Memory>
    ensures { IfOk result (λ copy. copy ≡ bytes.now) }
{
    match bytes.list.clone() {
        Ok(list) => Ok(Bytes { list }),
        Err(_) => Err(Memory),
    }
}

// What is told of a step.
fn told(said: &[Event], ended: Option<CEnd>) -> Result<Stepped, Memory>
    ensures { IfOk result (λ answer. answer ≡ told said.now ended) }
{
    for event in said {
        if let Event::Print { stream, bytes } = event {
            return Ok(Stepped::Printed {
                stream: *stream,
                bytes: copied(bytes)?,
            });
        }
    }
    match ended {
        Some(end) => Ok(Stepped::Ended(end)),
        None => Ok(Stepped::Ran),
    }
}

// Events are kept, where any are.
fn keep(trace: &mut Option<Vec<Event>>, said: &mut Vec<Event>) -> Result<(), Memory>
    ensures more { OnOk result (KeepsMore trace.old said.old.items trace.new) }
    ensures keeps { is_some trace.new ≡ is_some trace.old }
{
    match trace {
        None => Ok(()),
        Some(events) => match events.append(said) {
            Ok(()) => Ok(()),
            Err(_) => Err(Memory),
        },
    }
}

/// One step on. At an end the end is told again.
pub fn go_on(course: &mut Course) -> Result<Stepped, Memory>
    requires { course.old.done + 1 ≤ 2 ^ 59 }
    ensures advances { IfOk result (λ answer. (unit : CUnit) (world : World) → Stands unit world course.old → Advances unit world course.old answer course.new) }
    ensures refused { IfErr result (λ e. course.new.done ≡ course.old.done) }
    ensures bound { course.new.done ≤ course.old.done + 1 }
    ensures keeps { is_some course.new.trace ≡ is_some course.old.trace }
{
    if let Some(end) = course.run.ended {
        return Ok(Stepped::Ended(end));
    }
    make_step(course.alloc, &mut course.run, course.routines.as_slice())?;
    let mut said = course.run.begin_step();
    let answer = told(said.as_slice(), course.run.ended)?;
    keep(&mut course.trace, &mut said)?;
    course.done += 1;
    Ok(answer)
}
