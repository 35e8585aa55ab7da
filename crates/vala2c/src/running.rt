// The C that was read runs.

ghost use Rattle.std.specs.Prelude.{◌≡◌, [], true, false, IfOk};
ghost use Rattle.c_resolver.specs.Routines.{items_have_code};
ghost use Rattle.command_line.specs.Laws.{IsInBounds};
ghost use Rattle.command_line.specs.Answers.{meaning_of};
ghost use Rattle.vala2c.specs.Course.{Ran, world_of};
ghost use Rattle.vala2c.specs.Stages.{Executes, TellsEnd, end_in, is_err_stream, live_text_at, texts_at, trace_text_at};

use crate::finish::Outcome;
use crate::status::{Kind, kind_of};
use c_calls::units_have_code;
use c_interpreter::{Machine, RunEnd, RunFault, load};
use c_text_reader::read;
use c_tree::Unit as CUnit;
use command_line::Asked;
use run_texts::{live_text, trace_text};
use std::alloc::Global;
use vg_base::{Fault, Memory, Sink, Stream};

/// C is read, and runs where it is not refused.
pub fn run_c<O: Sink, E: Sink>(
    alloc: Global,
    asked: &Asked,
    bytes: &[u8],
    limit: u64,
    input: Vec<u8>,
    out: &mut O,
    err: &mut E,
) -> Outcome
    requires { IsInBounds (meaning_of asked.now) }
    ensures { Executes (meaning_of asked.now) bytes.now limit (world_of (meaning_of asked.now) input.items) (O.seen out.old) (E.seen err.old) (O.seen out.new) (E.seen err.new) result.kind result.texts.items result.muted }
{
    units_have_code();
    match read(alloc, bytes, limit) {
        Ok(unit) => run_unit(alloc, asked, unit, input, out, err),
        Err(Fault::Refused(refusal)) => Outcome::plain(alloc, Kind::CRefused(refusal)),
        Err(Fault::Memory) => Outcome::plain(alloc, Kind::Memory),
    }
}

// The unit runs for so many steps as are asked for.
fn run_unit<O: Sink, E: Sink>(
    alloc: Global,
    asked: &Asked,
    unit: CUnit,
    input: Vec<u8>,
    out: &mut O,
    err: &mut E,
) -> Outcome
    requires asked { IsInBounds (meaning_of asked.now) }
    requires code { items_have_code unit.items ≡ true }
    ensures { Ran (meaning_of asked.now) unit (world_of (meaning_of asked.now) input.items) (O.seen out.old) (O.seen out.new) (E.seen err.old) (E.seen err.new) result.kind result.texts.items result.muted }
{
    let Ok(name) = String::from_str(alloc, asked.name.as_str()) else {
        return Outcome::plain(alloc, Kind::Memory);
    };
    let Ok(mut machine) = load(alloc, unit, input, name, asked.trace) else {
        return Outcome::plain(alloc, Kind::Memory);
    };
    match machine.run(asked.steps, out, err) {
        Ok(end) => tell(alloc, asked, &machine, end),
        Err(RunFault::Out { stream, .. }) => refused(alloc, stream),
        Err(RunFault::Memory) => Outcome::plain(alloc, Kind::Memory),
    }
}

// A print was refused. Where that was on err, it takes nothing more.
fn refused(alloc: Global, stream: Stream) -> Outcome
    ensures kind { result.kind ≡ Kind.OutFault }
    ensures texts { result.texts.items ≡ [] }
    ensures muted { result.muted ≡ is_err_stream stream }
{
    Outcome {
        kind: Kind::OutFault,
        texts: Vec::new(alloc),
        muted: matches!(stream, Stream::Err),
    }
}

// How the run ended, with the texts that are asked for.
fn tell(alloc: Global, asked: &Asked, machine: &Machine, end: RunEnd) -> Outcome
    requires { machine.now.exhausted ≡ false }
    ensures { TellsEnd (meaning_of asked.now) machine.now (end_in end) result.kind result.texts.items result.muted }
{
    match texts_of(alloc, asked, machine) {
        Ok(texts) => Outcome {
            kind: kind_of(asked.command, end),
            texts,
            muted: false,
        },
        Err(_) => Outcome::plain(alloc, Kind::Memory),
    }
}

// The text of the trace and the text of what lives, where they are asked for.
fn texts_of(alloc: Global, asked: &Asked, machine: &Machine) -> Result<Vec<u8>, Memory>
    requires { machine.now.exhausted ≡ false }
    ensures { IfOk result (λ texts. texts.items ≡ texts_at (meaning_of asked.now).live machine.now) }
{
    let mut texts = text_of_trace(alloc, machine)?;
    if asked.live {
        let lives = text_of_live(alloc, machine)?;
        if texts.extend_from_slice(&lives).is_err() {
            return Err(Memory);
        }
    }
    Ok(texts)
}

// The text of what lives.
fn text_of_live(alloc: Global, machine: &Machine) -> Result<Vec<u8>, Memory>
    ensures { IfOk result (λ text. text.items ≡ live_text_at machine.now) }
{
    let rows = machine.live()?;
    live_text(alloc, &rows)
}

// The text of the trace, where it was kept.
fn text_of_trace(alloc: Global, machine: &Machine) -> Result<Vec<u8>, Memory>
    requires { machine.now.exhausted ≡ false }
    ensures { IfOk result (λ text. text.items ≡ trace_text_at machine.now) }
{
    match machine.trace() {
        Some(events) => trace_text(alloc, events),
        None => Ok(Vec::new(alloc)),
    }
}
