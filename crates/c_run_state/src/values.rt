// What a run gives, says and ends by.

ghost use Rattle.std.specs.Prelude.{◌≡◌, OnOk, Some};
ghost use Rattle.std.specs.Option.{option_map};
ghost use Rattle.c_meaning.specs.Blocks.{happens, stop, undefined};
ghost use Rattle.c_meaning.specs.Texts.{give_nothing};
ghost use Rattle.c_meaning.specs.Steps.{finish};
ghost use Rattle.c_code.specs.Values.{value_seen};
ghost use Rattle.c_run_state.specs.Given.{TellsNumber, number_given};
ghost use Rattle.c_run_state.specs.Shows.{Becomes, BooksBecome};

use crate::lists::append;
use crate::state::Run;
use c_code::Value;
use c_meaning::Cell;
use vg_base::{CEnd, Event, Memory, UndefKind};

// The number that was given, if an `i32` holds it.
fn status_given(given: Option<&Value>) -> Result<Option<i32>, UndefKind>
    ensures { TellsNumber result (number_given (option_map (λ value. value_seen value.now) given.entry)) }
{
    let Some(value) = given else {
        return Err(UndefKind::Unset);
    };
    let Value::Scalar(cell) = value else {
        return Err(UndefKind::Kind);
    };
    match *cell {
        Cell::Int(number) => Ok(i32::try_from(number).ok()),
        Cell::Uns(number) => Ok(i32::try_from(number).ok()),
        Cell::Null => Ok(Some(0)),
        Cell::Unset => Err(UndefKind::Unset),
        Cell::Ptr { .. } | Cell::Func(_) => Err(UndefKind::Kind),
    }
}

impl Run {
    /// A value is given.
    pub fn give(&mut self, value: Value)
        ensures heap { self.new.heap ≡ self.old.heap }
        ensures books { BooksBecome (λ s. record s { given = Some (value_seen value) }) self.old self.new }
        ensures shows { Becomes (λ s. record s { given = Some (value_seen value) }) self.old self.new }
    {
        self.given = Some(value);
    }

    /// Nothing is given.
    pub fn give_nothing(&mut self)
        ensures heap { self.new.heap ≡ self.old.heap }
        ensures books { BooksBecome give_nothing self.old self.new }
        ensures shows { Becomes give_nothing self.old self.new }
    {
        self.given = None;
    }

    /// Something is said.
    pub fn say(&mut self, event: Event) -> Result<(), Memory>
        ensures heap { self.new.heap ≡ self.old.heap }
        ensures books { OnOk result (BooksBecome (λ s. happens s event) self.old self.new) }
        ensures shows { OnOk result (Becomes (λ s. happens s event) self.old self.new) }
    {
        append(&mut self.said, event)
    }

    /// The run ends.
    pub fn stop(&mut self, end: CEnd)
        ensures heap { self.new.heap ≡ self.old.heap }
        ensures books { BooksBecome (λ s. stop s end) self.old self.new }
        ensures shows { Becomes (λ s. stop s end) self.old self.new }
    {
        self.ended = Some(end);
    }

    /// The run ends by a use without a meaning.
    pub fn undefined(&mut self, kind: UndefKind)
        ensures heap { self.new.heap ≡ self.old.heap }
        ensures books { BooksBecome (λ s. undefined s kind) self.old self.new }
        ensures shows { Becomes (λ s. undefined s kind) self.old self.new }
    {
        self.ended = Some(CEnd::Undefined(kind));
    }

    /// The run ends with the number that `main` gave. No number that an `i32` does not hold is given by a function of `int`.
    pub fn finish(&mut self) -> Result<(), Memory>
        ensures { OnOk result (Becomes (λ s. finish s s.given) self.old self.new) }
    {
        match status_given(self.given.as_ref()) {
            Ok(Some(status)) => self.stop(CEnd::Ended(status)),
            Ok(None) => return Err(Memory),
            Err(kind) => self.undefined(kind),
        }
        Ok(())
    }
}
