// The work, and the frames in it.

ghost use Rattle.std.specs.Prelude.{◌+◌, OnOk, suc};
ghost use Rattle.std.specs.Option.{option_map};
ghost use Rattle.c_meaning.specs.Steps.{at_place, enter_with, leave, onward};
ghost use Rattle.c_code.specs.Values.{value_seen};
ghost use Rattle.c_code.specs.Machine.{end_body};
ghost use Rattle.c_run_state.specs.Shows.{Becomes, Popped, Pushes, frame_seen};

use crate::blocks::with_unset;
use crate::lists::append;
use crate::state::{Frame, Run, Work};
use c_code::Value;
use c_meaning::Cell;
use vg_base::{Memory, UndefKind};

impl Run {
    /// An item is the next one of the work.
    pub fn push(&mut self, work: Work) -> Result<(), Memory>
        ensures { OnOk result (Pushes work self.old self.new) }
    {
        append(&mut self.work, work)
    }

    /// The next item is taken off the work.
    pub fn pop(&mut self) -> Option<Work>
        ensures { Popped result self.old self.new }
    {
        self.work.pop()
    }

    /// The frame goes on at a place of its statements.
    pub fn at_place(&mut self, frame: Frame, at: u64) -> Result<(), Memory>
        ensures { OnOk result (Becomes (λ s. at_place s (frame_seen frame) at) self.old self.new) }
    {
        self.push(Work::Run(Frame {
            routine: frame.routine,
            at,
            block: frame.block,
        }))
    }

    /// The frame goes on behind so many statements more than this one.
    pub fn skip(&mut self, frame: Frame, count: u64) -> Result<(), Memory>
        ensures { OnOk result (Becomes (λ s. at_place s (frame_seen frame) (suc frame.at + count)) self.old self.new) }
    {
        let Some(next) = frame.at.checked_add(1) else {
            return Err(Memory);
        };
        let Some(at) = next.checked_add(count) else {
            return Err(Memory);
        };
        self.at_place(frame, at)
    }

    /// The frame goes on behind this statement.
    pub fn onward(&mut self, frame: Frame) -> Result<(), Memory>
        ensures { OnOk result (Becomes (λ s. onward s (frame_seen frame)) self.old self.new) }
    {
        let Some(at) = frame.at.checked_add(1) else {
            return Err(Memory);
        };
        self.at_place(frame, at)
    }

    /// A function is entered: its frame's block has the arguments, and unset cells behind them.
    pub fn enter_with(&mut self, routine: u64, cells: u64, arguments: &[Cell]) -> Result<(), Memory>
        ensures { OnOk result (Becomes (λ s. enter_with s routine cells arguments.now) self.old self.new) }
    {
        let variables = with_unset(self.alloc, arguments, cells)?;
        let block = self.make_block(variables.as_slice())?;
        self.push(Work::Run(Frame {
            routine,
            at: 0,
            block,
        }))
    }

    /// The frame goes, and gives a value or none.
    pub fn leave(&mut self, frame: Frame, value: Option<Value>) -> Result<(), Memory>
        ensures { OnOk result (Becomes (λ s. leave s (frame_seen frame) (option_map value_seen value)) self.old self.new) }
    {
        self.free_block(frame.block)?;
        self.given = value;
        Ok(())
    }

    /// The frame is at its end. It goes, but a function that gives something must have returned.
    pub fn end_body(&mut self, frame: Frame, is_void: bool) -> Result<(), Memory>
        ensures { OnOk result (Becomes (λ s. end_body s (frame_seen frame) is_void) self.old self.new) }
    {
        if is_void {
            return self.leave(frame, None);
        }
        self.undefined(UndefKind::Unset);
        Ok(())
    }
}
