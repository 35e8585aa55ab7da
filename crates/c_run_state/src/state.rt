// What a run is made of.

ghost use Rattle.std.specs.Prelude.{◌≡◌, []};
ghost use Rattle.vg_base.specs.World.{World};
ghost use Rattle.c_tree.specs.Env.{Env};
ghost use Rattle.c_meaning.specs.Runs.{nothing};
ghost use Rattle.c_run_state.specs.Shows.{Becomes, Shows};

use c_code::{Place, Taken, Value};
use c_meaning::Cell;
use cell_heap::CellHeap;
use glib_model::{Kinds, Quarks};
use std::alloc::Global;
use vg_base::{CEnd, Event};

/// A function that runs: its number, the place in its row of statements, and the block of its variables.
#[derive(Clone, Copy)]
pub struct Frame {
    pub routine: u64,
    pub at: u64,
    pub block: u64,
}

/// What is left to do.
#[derive(Drop)]
pub enum Work {
    /// The statement at the frame's place, and those behind it.
    Run(Frame),
    /// The entry into a function.
    Enter(u64, Vec<Value>),
    /// A call that a function of the library asks for.
    Ask(Cell, Vec<Cell>),
    /// What was given goes to a place.
    Keep(Place, Taken),
    /// `main` has returned.
    Finish,
}

/// What became of a block: it was freed, or it is no thing, or it is the thing with a serial.
#[derive(Clone, Copy)]
pub enum Standing {
    Freed,
    Plain,
    Thing(u64),
}

/// A run: the cells of its blocks, which of them are things, with which serials, and how many things were made; the texts
/// that are quarks; the input and the place up to which it was read; the work, the next item last; what the last function
/// gave; what this step said; and the end.
#[derive(Drop)]
pub struct Run {
    pub alloc: Global,
    pub heap: CellHeap,
    pub kinds: Kinds,
    pub standings: Vec<Standing>,
    pub made: u64,
    pub quarks: Quarks,
    pub input: Vec<u8>,
    pub at: usize,
    pub work: Vec<Work>,
    pub given: Option<Value>,
    pub said: Vec<Event>,
    pub ended: Option<CEnd>,
}

impl Run {
    /// A run with an input and nothing else.
    pub fn new(alloc: Global, input: Vec<u8>) -> Run
        ensures { (env : Env) (w : World) → w.input ≡ input.items → Shows env result (nothing w) }
    {
        Run {
            alloc,
            heap: CellHeap::new(alloc),
            kinds: Kinds::new(alloc),
            standings: Vec::new(alloc),
            made: 0,
            quarks: Quarks::new(alloc),
            input,
            at: 0,
            work: Vec::new(alloc),
            given: None,
            said: Vec::new(alloc),
            ended: None,
        }
    }

    /// A step begins: what was said till now is handed on.
    pub fn begin_step(&mut self) -> Vec<Event>
        ensures said { result.items ≡ self.old.said.items }
        ensures emptied { Becomes (λ s. record s { said = [] }) self.old self.new }
    {
        std::mem::replace(&mut self.said, Vec::new(self.alloc))
    }
}
