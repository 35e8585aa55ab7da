// What a function of the library answers.

ghost use Rattle.std.specs.Prelude.{◌≡◌, [], ◌∷◌, IfOk};
ghost use Rattle.c_meaning.specs.declared.cell.Cell.TheVariants.{Unset};
ghost use Rattle.glib_model.specs.declared.ends.LibWhat.TheVariants.{Undefined, Value};
ghost use Rattle.glib_model.specs.Ends.{RefusedBy};

use c_meaning::Cell;
use std::alloc::Global;
use std::marker::Model;
use vg_base::{Bytes, Fault, Memory, Stream, ThingKind, TrapKind, UndefKind};

/// What was done on the way, mostly to a block.
#[derive(Clone, Copy)]
pub enum Note {
    /// It was made, as a thing of the kind.
    Made { block: u64, kind: ThingKind },
    /// It was freed.
    Freed(u64),
    /// No block, but the source with this id: the main loop dispatches it.
    Dispatch(u64),
}

/// Notes in their order.
#[derive(Drop)]
pub struct Notes {
    pub list: Vec<Note>,
}

impl Model for Notes {
    ghost use Rattle.std.specs.Prelude.{List};
    ghost use Rattle.glib_model.specs.declared.ends.Note.{Note};

    ghost Value = { List Note };

    ghost view = { λ notes. notes.list.items };
}

/// Cells in their order.
#[derive(Drop)]
pub struct Cells {
    pub list: Vec<Cell>,
}

impl Model for Cells {
    ghost use Rattle.std.specs.Prelude.{List};
    ghost use Rattle.c_meaning.specs.declared.cell.Cell.{Cell};

    ghost Value = { List Cell };

    ghost view = { λ cells. cells.list.items };
}

/// A call that a function of the library asks for: the function of C that a cell holds, and the cells of its arguments.
#[derive(Drop)]
pub struct LibCall {
    pub func: Cell,
    pub args: Cells,
}

/// Calls in their order.
#[derive(Drop)]
pub struct LibCalls {
    pub list: Vec<LibCall>,
}

impl Model for LibCalls {
    ghost use Rattle.std.specs.Prelude.{List};
    ghost use Rattle.glib_model.specs.declared.ends.LibCall.{LibCall};

    ghost Value = { List LibCall };

    ghost view = { λ calls. calls.list.items };
}

/// Calls, and what the function has still to do behind them, in cells of its own choice.
#[derive(Drop)]
pub struct CallList {
    pub calls: LibCalls,
    pub rest: Cells,
}

/// What comes of a call.
#[derive(Drop)]
pub enum LibWhat {
    /// A value is given; Unset where the function gives nothing.
    Value(Cell),
    /// Functions of C are called, the first one first.
    Calls(CallList),
    /// Bytes are printed, and nothing is given.
    Print { stream: Stream, bytes: Bytes },
    /// The run ends by a trap.
    Aborted(TrapKind),
    /// The run ends by a use without a meaning.
    Undefined(UndefKind),
    /// The run ends with a main loop that has nothing to dispatch.
    Waiting,
}

/// What comes of a call, and what was done on the way.
#[derive(Drop)]
pub struct LibEnd {
    pub what: LibWhat,
    pub notes: Notes,
}

/// An answer with nothing to note.
pub fn quiet(alloc: Global, what: LibWhat) -> LibEnd
    ensures { result ≡ record { what = what; notes = [] } }
{
    LibEnd {
        what,
        notes: Notes {
            list: Vec::new(alloc),
        },
    }
}

/// The run ends by a use without a meaning.
pub fn undefined(alloc: Global, kind: UndefKind) -> LibEnd
    ensures { result ≡ record { what = Undefined kind; notes = [] } }
{
    quiet(alloc, LibWhat::Undefined(kind))
}

/// Nothing is given.
pub fn nothing(alloc: Global) -> LibEnd
    ensures { result ≡ record { what = Value Unset; notes = [] } }
{
    quiet(alloc, LibWhat::Value(Cell::Unset))
}

/// A value is given.
pub fn value(alloc: Global, cell: Cell) -> LibEnd
    ensures { result ≡ record { what = Value cell; notes = [] } }
{
    quiet(alloc, LibWhat::Value(cell))
}

/// A refusal ends the run; want of memory stays that.
pub fn refused(alloc: Global, fault: Fault<UndefKind>) -> Result<LibEnd, Memory>
    ensures { IfOk result (RefusedBy fault) }
{
    match fault {
        Fault::Refused(kind) => Ok(undefined(alloc, kind)),
        Fault::Memory => Err(Memory),
    }
}

/// An answer with one note.
pub fn noted(alloc: Global, note: Note, what: LibWhat) -> Result<LibEnd, Memory>
    ensures { IfOk result (λ answer. answer ≡ record { what = what; notes = note ∷ [] }) }
{
    let mut list = Vec::new(alloc);
    if list.push(note).is_err() {
        return Err(Memory);
    }
    Ok(LibEnd {
        what,
        notes: Notes { list },
    })
}
