// A machine over a unit of C.

ghost use Rattle.std.specs.Prelude.{◌≡◌, ◌+◌, ◌≤◌, ◌^◌, true, false, is_some, IfOk, IsErr, string_bytes};
ghost use Rattle.std.specs.Option.{option_copied};
ghost use Rattle.vg_base.specs.World.{IsName};
ghost use Rattle.c_meaning.specs.Blocks.{live};
ghost use Rattle.c_resolver.specs.Routines.{items_have_code};
ghost use Rattle.c_interpreter.specs.Kept.{Steps, state_of, trace_of, world_of};
ghost use Rattle.c_interpreter.specs.Runs.{Refuses, Runs};

use crate::course::{Course, go_on};
use crate::opening::begin;
use crate::run::{RunEnd, RunFault, run_steps};
use c_tree::Unit;
use std::alloc::Global;
use std::marker::Model;
use vg_base::{Bytes, CEnd, Event, LiveRow, Memory, Sink, Stream};

/// What a step did: nothing that is observed, a print, or, at an end, nothing more.
#[derive(Debug, Drop)]
pub enum Stepped {
    Ran,
    Printed { stream: Stream, bytes: Bytes },
    Ended(CEnd),
}

/// A machine that runs a unit in a world.
#[derive(Drop)]
pub struct Machine {
    alloc: Global,
    unit: Unit,
    name: String,
    input: Vec<u8>,
    course: Course,
    exhausted: bool,
}

impl Model for Machine {
    ghost use Rattle.std.specs.Prelude.{◌≡◌, false, is_some};
    ghost use Rattle.std.specs.Coded.{codes};
    ghost use Rattle.std.specs.String.{string_bytes};
    ghost use Rattle.c_tree.specs.contracts.unit.Unit as tree;
    ghost use Rattle.c_interpreter.specs.Kept.{Kept, world_of};

    ghost Value = { Kept };

    ghost coded = { Prim.hlevel (codes, tree.the_row.coded) };

    ghost use Rattle.c_interpreter.specs.Course.{Stands};

    ghost view = { λ m. record { unit = m.unit; world = world_of (string_bytes m.name) m.input.items; done = m.course.done; keeps = is_some m.course.trace; exhausted = m.exhausted } };

    ghost invariant = { λ m. m.exhausted ≡ false → Stands m.unit (world_of (string_bytes m.name) m.input.items) m.course };
}

/// A machine over the unit, in front of its first step. The world is the name and the input; the machine keeps its trace where that is asked.
pub fn load(
    alloc: Global,
    unit: Unit,
    input: Vec<u8>,
    name: String,
    keep: bool,
) -> Result<Machine, Memory>
    requires name { IsName (string_bytes name) }
    requires code { items_have_code unit.items ≡ true }
    ensures { IfOk result (λ m. m ≡ record { unit = unit; world = world_of (string_bytes name) input.items; done = 0; keeps = keep; exhausted = false }) }
{
    let Ok(read) = input.clone() else {
        return Err(Memory);
    };
    let course = begin(alloc, &unit, read, name.as_bytes(), keep)?;
    Ok(Machine {
        alloc,
        unit,
        name,
        input,
        course,
        exhausted: false,
    })
}

impl Machine {
    /// Makes one step and says what it did. At an end it answers the end again.
    pub fn step(&mut self) -> Result<Stepped, Memory>
        requires { self.old.done + 1 ≤ 2 ^ 59 }
        ensures steps { Steps self.old result self.new }
        ensures exhausted { self.old.exhausted ≡ true → IsErr result }
    {
        if self.exhausted {
            return Err(Memory);
        }
        let answer = go_on(&mut self.course);
        self.exhausted = answer.is_err();
        answer
    }

    /// Makes so many steps, or fewer where an end comes, and puts each print on its sink before the next step is made.
    pub fn run<O: Sink, E: Sink>(
        &mut self,
        steps: u64,
        out: &mut O,
        err: &mut E,
    ) -> Result<RunEnd, RunFault>
        requires { self.old.done + steps ≤ 2 ^ 59 }
        ensures runs { Runs self.old steps (record { out = O.seen out.old; err = E.seen err.old }) result self.new (record { out = O.seen out.new; err = E.seen err.new }) }
        ensures exhausted { self.old.exhausted ≡ true → Refuses self.old (record { out = O.seen out.old; err = E.seen err.old }) result self.new (record { out = O.seen out.new; err = E.seen err.new }) }
    {
        if self.exhausted {
            return Err(RunFault::Memory);
        }
        let answer = run_steps(self.alloc, self, steps, out, err);
        if let Err(RunFault::Memory) = answer {
            self.exhausted = true;
        }
        answer
    }

    /// How many steps were made.
    pub fn done(&self) -> u64
        ensures { result ≡ self.now.done }
    {
        self.course.done
    }

    /// The end, if there is one.
    pub(crate) fn end(&self) -> Option<CEnd>
        ensures { self.now.exhausted ≡ false → result ≡ (state_of self.now).ended }
    {
        self.course.run.ended
    }

    /// The events of all steps that were made, where the machine keeps them. Once memory ran out it tells none for sure.
    pub fn trace(&self) -> Option<&[Event]>
        ensures keeps { is_some result ≡ self.now.keeps }
        ensures events { self.now.exhausted ≡ false → option_copied result ≡ trace_of self.now }
    {
        match &self.course.trace {
            Some(events) => Some(events.as_slice()),
            None => None,
        }
    }

    /// What lives: each thing that is not freed, in the order of their making.
    pub fn live(&self) -> Result<Vec<LiveRow>, Memory>
        ensures rows { IfOk result (λ rows. rows.items ≡ live (state_of self.now)) }
        ensures exhausted { self.now.exhausted ≡ true → IsErr result }
    {
        if self.exhausted {
            return Err(Memory);
        }
        self.course.run.live()
    }
}
