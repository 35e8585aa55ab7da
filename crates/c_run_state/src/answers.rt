// What a function of the library answers is done to the run.

ghost use Rattle.std.specs.Prelude.{◌≡◌, [], ◌∷◌, OnOk};
ghost use Rattle.c_meaning.specs.TypeRows.{push};
ghost use Rattle.glib_model.specs.declared.ends.LibWhat.TheVariants as what;
ghost use Rattle.glib_model.specs.Ends.{asked, finished, noted, noted_all};
ghost use Rattle.c_run_state.specs.Answers.{Applied, SliceMade};
ghost use Rattle.c_run_state.specs.Shows.{BooksBecome};

use crate::lists::append;
use crate::state::{Run, Work};
use c_code::{Sliced, Value};
use c_meaning::Cell;
use glib_model::{LibCall, LibCalls, LibEnd, LibWhat, Note, Notes};
use vg_base::{CEnd, Event, Memory, ThingKind};

impl Run {
    // What was done on the way is noted.
    fn note(&mut self, note: Note) -> Result<(), Memory>
        ensures heap { self.new.heap ≡ self.old.heap }
        ensures noted { OnOk result (BooksBecome (λ s. noted s self.old.heap note) self.old self.new) }
    {
        match note {
            Note::Made { block, kind } => {
                if block == self.standings.len() as u64 + 1 {
                    self.note_thing(kind, None, false)?;
                }
                Ok(())
            }
            Note::Freed(block) => self.note_freed(block),
            Note::Dispatch(id) => self.say(Event::Dispatch(id)),
        }
    }

    // A value is given, and nothing where it is Unset.
    fn give_cell(&mut self, cell: Cell)
        ensures heap { self.new.heap ≡ self.old.heap }
        ensures books { BooksBecome (λ s. finished s (what.Value cell)) self.old self.new }
    {
        if let Cell::Unset = cell {
            self.give_nothing();
            return;
        }
        self.give(Value::Scalar(cell));
    }

    // A call is the next item of the work.
    fn ask(&mut self, call: LibCall) -> Result<(), Memory>
        ensures heap { self.new.heap ≡ self.old.heap }
        ensures books { OnOk result (BooksBecome (λ s. push (asked (call ∷ [])) s) self.old self.new) }
    {
        let LibCall { func, args } = call;
        append(&mut self.work, Work::Ask(func, args.list))
    }

    // Calls are the next items of the work, the first one in front: the last one is put there first.
    fn ask_all(&mut self, calls: LibCalls) -> Result<(), Memory>
        ensures heap { self.new.heap ≡ self.old.heap }
        ensures books { OnOk result (BooksBecome (λ s. push (asked calls) s) self.old self.new) }
    {
        let mut left = calls.list;
        while let Some(call) = left.pop() {
            self.ask(call)?;
        }
        Ok(())
    }

    // What comes of a call is done.
    fn close(&mut self, end: LibWhat) -> Result<(), Memory>
        ensures heap { self.new.heap ≡ self.old.heap }
        ensures finished { OnOk result (BooksBecome (λ s. finished s end) self.old self.new) }
    {
        match end {
            LibWhat::Value(cell) => self.give_cell(cell),
            LibWhat::Calls(list) => self.ask_all(list.calls)?,
            LibWhat::Print { stream, bytes } => {
                self.say(Event::Print { stream, bytes })?;
                self.give_nothing();
            }
            LibWhat::Aborted(kind) => self.stop(CEnd::Aborted(kind)),
            LibWhat::Undefined(kind) => self.undefined(kind),
            LibWhat::Waiting => self.stop(CEnd::Waiting),
        }
        Ok(())
    }

    // All notes, from the first.
    fn note_all(&mut self, notes: &[Note]) -> Result<(), Memory>
        ensures heap { self.new.heap ≡ self.old.heap }
        ensures noted { OnOk result (BooksBecome (λ s. noted_all s self.old.heap notes.now) self.old self.new) }
    {
        for note in notes {
            self.note(*note)?;
        }
        Ok(())
    }

    // The same of a list of notes.
    fn note_list(&mut self, notes: &Notes) -> Result<(), Memory>
        ensures heap { self.new.heap ≡ self.old.heap }
        ensures noted { OnOk result (BooksBecome (λ s. noted_all s self.old.heap notes.now) self.old self.new) }
    {
        self.note_all(notes.list.as_slice())
    }

    /// What a function of the library answered that changed the heap is done to the run.
    pub fn apply(&mut self, answer: LibEnd) -> Result<(), Memory>
        ensures { OnOk result (Applied answer self.old self.new) }
    {
        let LibEnd { what, notes } = answer;
        self.note_list(&notes)?;
        self.close(what)
    }

    /// The block that `g_slice_new0` put into the heap is what that makes.
    pub fn slice_made(&mut self, sliced: Sliced) -> Result<(), Memory>
        ensures { OnOk result (SliceMade sliced self.old self.new) }
    {
        match sliced {
            Sliced::Scope => self.note_thing(ThingKind::Scope, Some(0), true),
            Sliced::Activation => self.note_thing(ThingKind::Activation, None, true),
            Sliced::Plain => self.note_sliced(),
        }
    }
}
