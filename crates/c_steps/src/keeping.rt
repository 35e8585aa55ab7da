// What was given goes to a place.

ghost use Rattle.std.specs.Prelude.{OnOk};
ghost use Rattle.std.specs.Option.{option_map};
ghost use Rattle.c_texts.specs.Answers.{Answers};
ghost use Rattle.c_code.specs.Values.{value_seen};
ghost use Rattle.c_steps.specs.Performs.{Keeps, kept};

use crate::entries::fits;
use crate::refusals::refuse;
use c_code::{Place, Taken, Value};
use c_evaluator::{converted, copy};
use c_run_state::Run;
use std::alloc::Global;
use vg_base::{Fault, Memory, UndefKind};

// What was given, as a place takes it.
fn kept(alloc: Global, taken: Taken, given: Option<&Value>) -> Result<Value, Fault<UndefKind>>
    ensures { Answers value_seen result (kept taken (option_map (λ value. value_seen value.now) given.entry)) }
{
    match given {
        None => Err(Fault::Refused(UndefKind::Unset)),
        Some(value) => {
            if !fits(taken, value) {
                return Err(Fault::Refused(UndefKind::Kind));
            }
            match copy(alloc, value) {
                Ok(same) => converted(taken.kind, same),
                Err(_) => Err(Fault::Memory),
            }
        }
    }
}

/// What was given goes to a place.
pub fn keep(run: &mut Run, place: Place, taken: Taken) -> Result<(), Memory>
    ensures { OnOk result (Keeps place taken run.old run.new) }
{
    match kept(run.alloc, taken, run.given.as_ref()) {
        Ok(value) => {
            run.store(place, &value);
            Ok(())
        }
        Err(fault) => refuse(run, fault),
    }
}
