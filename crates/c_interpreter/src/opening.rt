// A run before its first step.

ghost use Rattle.std.specs.Prelude.{◌≡◌, [], is_some, true, IfOk};
ghost use Rattle.c_resolver.specs.Routines.{items_have_code};
ghost use Rattle.c_interpreter.specs.Course.{AreKept, Stands};
ghost use Rattle.c_interpreter.specs.Kept.{world_of};

use crate::course::Course;
use c_opening::open;
use c_tree::Unit;
use std::alloc::Global;
use vg_base::{Event, Memory};

// No events yet, where any are kept.
fn no_events(alloc: Global, keep: bool) -> Option<Vec<Event>>
    ensures none { AreKept result [] }
    ensures keeps { is_some result ≡ keep }
{
    if keep { Some(Vec::new(alloc)) } else { None }
}

/// A run of a unit in front of its first step, with an input and a name.
pub fn begin(
    alloc: Global,
    unit: &Unit,
    input: Vec<u8>,
    name: &[u8],
    keep: bool,
) -> Result<Course, Memory>
    requires { items_have_code unit.now.items ≡ true }
    ensures stands { IfOk result (λ course. Stands unit.now (world_of name.now input.items) course) }
    ensures done { IfOk result (λ course. course.done ≡ 0) }
    ensures keeps { IfOk result (λ course. is_some course.trace ≡ keep) }
{
    let opened = open(alloc, unit, input, name)?;
    let mut run = opened.run;
    run.begin_step();
    Ok(Course {
        alloc,
        routines: opened.routines,
        run,
        done: 0,
        trace: no_events(alloc, keep),
    })
}
