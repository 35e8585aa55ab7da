// Many steps, with each print put before the next step is made.

ghost use Rattle.std.specs.Prelude.{◌≡◌, ◌+◌, ◌≤◌, ◌^◌, false};
ghost use Rattle.c_interpreter.specs.Runs.{PutsOn, PutsPiece, PutsTold, RunsSteps};

use crate::machine::{Machine, Stepped};
use std::alloc::Global;
use vg_base::{CEnd, PutFault, Sink, SinkFault, Stream, put_all};

/// How a call of `run` ended: at an end of the C run, or with its steps spent before one.
#[derive(Clone, Copy, Debug)]
pub enum RunEnd {
    Done(CEnd),
    Spent,
}

/// Why a call of `run` stopped early: a sink refused a print after it took some bytes of it, or memory ran out.
#[derive(Clone, Copy, Debug)]
pub enum RunFault {
    Out { stream: Stream, taken: usize },
    Memory,
}

// Puts bytes on the sink of a stream.
fn put_on<S: Sink>(
    alloc: Global,
    sink: &mut S,
    stream: Stream,
    bytes: &[u8],
) -> Result<(), RunFault>
    ensures { PutsPiece stream (S.seen sink.old) bytes.now result (S.seen sink.new) }
{
    match put_all(alloc, sink, bytes) {
        Ok(()) => Ok(()),
        Err(SinkFault { taken, cause }) => match cause {
            PutFault::Failed => Err(RunFault::Out { stream, taken }),
            PutFault::Memory => Err(RunFault::Memory),
        },
    }
}

// Puts bytes on the sink of a stream, of two.
fn put<O: Sink, E: Sink>(
    alloc: Global,
    out: &mut O,
    err: &mut E,
    stream: Stream,
    bytes: &[u8],
) -> Result<(), RunFault>
    ensures { PutsOn stream bytes.now (record { out = O.seen out.old; err = E.seen err.old }) result (record { out = O.seen out.new; err = E.seen err.new }) }
{
    match stream {
        Stream::Out => put_on(alloc, out, stream, bytes),
        Stream::Err => put_on(alloc, err, stream, bytes),
    }
}

// Puts what a step printed, if it printed.
fn put_told<O: Sink, E: Sink>(
    alloc: Global,
    told: &Stepped,
    out: &mut O,
    err: &mut E,
) -> Result<(), RunFault>
    ensures { PutsTold told.now (record { out = O.seen out.old; err = E.seen err.old }) result (record { out = O.seen out.new; err = E.seen err.new }) }
{
    match told {
        Stepped::Printed { stream, bytes } => put(alloc, out, err, *stream, &bytes.list),
        Stepped::Ran | Stepped::Ended(_) => Ok(()),
    }
}

/// Makes so many steps, or fewer where an end comes or a print is refused.
pub fn run_steps<O: Sink, E: Sink>(
    alloc: Global,
    machine: &mut Machine,
    steps: u64,
    out: &mut O,
    err: &mut E,
) -> Result<RunEnd, RunFault>
    requires room { machine.old.done + steps ≤ 2 ^ 59 }
    requires ready { machine.old.exhausted ≡ false }
    ensures { RunsSteps machine.old steps (record { out = O.seen out.old; err = E.seen err.old }) result machine.new (record { out = O.seen out.new; err = E.seen err.new }) }
{
    for _ in 0..steps {
        let Ok(told) = machine.step() else {
            return Err(RunFault::Memory);
        };
        put_told(alloc, &told, out, err)?;
        if let Stepped::Ended(end) = told {
            return Ok(RunEnd::Done(end));
        }
    }
    Ok(match machine.end() {
        Some(end) => RunEnd::Done(end),
        None => RunEnd::Spent,
    })
}
