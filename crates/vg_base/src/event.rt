// What is observed of a run, and the small types that all crates share.

use std::marker::Model;

/// Memory ran out. The one answer that no clause ties to a cause.
#[derive(Clone, Copy, Debug)]
pub struct Memory;

/// A refusal with its cause, or want of memory.
#[derive(Debug, Drop)]
pub enum Fault<R> {
    Refused(R),
    Memory,
}

/// Bytes `start` to `end` of the file with the number `file`, counted from 0.
#[derive(Clone, Copy, Debug)]
pub struct Span {
    pub file: u32,
    pub start: u32,
    pub end: u32,
}

/// A list of bytes that a value of another type holds.
#[derive(Debug, Drop)]
pub struct Bytes {
    pub list: Vec<u8>,
}

impl Model for Bytes {
    ghost use Rattle.std.specs.Prelude.{List, ℕ};

    ghost Value = { List ℕ };

    ghost view = { λ b. b.list.items };
}

/// Where a print goes.
#[derive(Clone, Copy, Debug)]
pub enum Stream {
    Out,
    Err,
}

/// What a run makes and lets go.
#[derive(Clone, Copy, Debug)]
pub enum ThingKind {
    Object,
    Text,
    Array,
    Scope,
    Error,
    Activation,
}

/// Why a run stopped itself.
#[derive(Clone, Copy, Debug)]
pub enum TrapKind {
    Null,
    Division,
    Index,
    Cast,
    Length,
    Range,
    Assert,
    Resume,
    Loop,
}

/// What a C run did that has no meaning.
#[derive(Clone, Copy, Debug)]
pub enum UndefKind {
    Freed,
    Null,
    Outside,
    Unset,
    Kind,
    Func,
    Divide,
    Overflow,
}

/// One entry of a trace.
#[derive(Debug, Drop)]
pub enum Event {
    /// Bytes were printed.
    Print { stream: Stream, bytes: Bytes },
    /// A thing was made. The n-th one made has the serial n.
    Made(ThingKind),
    /// The thing with this serial went.
    Gone(u64),
    /// The main loop dispatched the source with this id.
    Dispatch(u64),
}

/// How a run of the C ends.
#[derive(Clone, Copy, Debug)]
pub enum CEnd {
    Ended(i32),
    Aborted(TrapKind),
    Waiting,
    Undefined(UndefKind),
}

/// How a run of the Vala program ends.
#[derive(Clone, Copy, Debug)]
pub enum VEnd {
    Ended(i32),
    Trapped(TrapKind),
    Waiting,
    /// A reference was used whose thing is gone.
    Dead,
}

/// A thing that is not gone, and how many places own it.
#[derive(Clone, Copy, Debug)]
pub struct LiveRow {
    pub kind: ThingKind,
    pub serial: u64,
    pub owners: u64,
}

/// One line of a script of main-loop events.
#[derive(Clone, Copy, Debug)]
pub enum Entry {
    /// Dispatch the ready source at this place.
    Pick(u32),
    /// Let so many milliseconds pass.
    Wait(u32),
}
