// Reads a text.

ghost use Rattle.std.specs.Prelude.{◌≡◌, ◌≤◌, ◌<◌, ◌^◌, ◌-◌, if◌then◌else◌, [], ◌∷◌, length, IfOk, Some, None};
ghost use Rattle.c_lexer.specs.Tokens.{all_of, next_of};
ghost use Rattle.c_tree.specs.Answers.{Reading};
ghost use Rattle.c_tree.specs.Answers as answer;
ghost use Rattle.c_tree.specs.Faults as faults;
ghost use Rattle.c_tree.specs.Unit.{unit_faults};
ghost use Rattle.vg_base.specs.declared.event.Fault.TheVariants as spec;
ghost use Rattle.c_parser.specs.Parsing.{Parses};
ghost use Rattle.c_text_reader.specs.Fronts.{chosen, first_before, stopped_first, whole_first};

use crate::laws::tokens_are_in_order;
use c_checker::{check, has_main};
use c_lexer::Lexer;
use c_parser::{NoMemory, Parsed, Stop, parse};
use c_tree::{Cause, Fault, Refusal, Unit};
use c_value_checker::keep;
use std::alloc::Global;
use vg_base::{Fault as Failure, Memory};

/// The unit that a text is, or its first refusal. A text over the limit is refused before all else. One of 2^32 - 1 bytes
/// or more within the limit is want of memory, since places are 32 bits.
pub fn read(alloc: Global, bytes: &[u8], limit: u64) -> Result<Unit, Failure<Refusal>>
    ensures { Reading bytes.now limit result }
{
    if bytes.len() as u64 > limit {
        return Err(Failure::Refused(Refusal {
            cause: Cause::Large,
            at: limit,
        }));
    }
    if bytes.len() >= u32::MAX as usize {
        return Err(Failure::Memory);
    }
    match parse(alloc, bytes) {
        Ok(parsed) => answer(alloc, bytes, limit, parsed),
        Err(NoMemory) => Err(Failure::Memory),
    }
}

// The answer of a text that was read.
fn answer(alloc: Global, bytes: &[u8], limit: u64, parsed: Parsed) -> Result<Unit, Failure<Refusal>>
    requires within { length bytes.now ≤ limit }
    requires short { length bytes.now < 2 ^ 32 - 1 }
    requires reads { Parses bytes.now parsed.unit.items parsed.stop }
    ensures { Reading bytes.now limit result }
{
    match parsed.stop {
        Some(stop) => stopped(alloc, bytes, limit, &parsed.unit, stop),
        None => whole(alloc, bytes, limit, parsed.unit),
    }
}

// The answer of a whole text: its unit, or the first of its faults.
fn whole(alloc: Global, bytes: &[u8], limit: u64, unit: Unit) -> Result<Unit, Failure<Refusal>>
    requires within { length bytes.now ≤ limit }
    requires short { length bytes.now < 2 ^ 32 - 1 }
    requires reads { Parses bytes.now unit.items None }
    ensures { Reading bytes.now limit result }
{
    tokens_are_in_order();
    match first_fault(alloc, &unit, bytes.len() as u32) {
        Ok(None) => Ok(unit),
        Ok(Some(first)) => Err(refused(first)),
        Err(Memory) => Err(Failure::Memory),
    }
}

// The answer of a text that stops: the first of what stops it and of the faults that are known in front.
fn stopped(
    alloc: Global,
    bytes: &[u8],
    limit: u64,
    unit: &Unit,
    stop: Stop,
) -> Result<Unit, Failure<Refusal>>
    requires within { length bytes.now ≤ limit }
    requires short { length bytes.now < 2 ^ 32 - 1 }
    requires reads { Parses bytes.now unit.now.items (Some stop) }
    ensures { Reading bytes.now limit result }
{
    tokens_are_in_order();
    match first_known(alloc, unit, stop, begins_before(bytes, stop.fault.place)) {
        Ok(first) => Err(refused(first)),
        Err(Memory) => Err(Failure::Memory),
    }
}

fn refused(first: Fault) -> Failure<Refusal>
    ensures { result ≡ spec.Refused (answer.refusal first) }
{
    Failure::Refused(Refusal {
        cause: first.cause,
        at: first.place as u64,
    })
}

// The first of the faults of a unit, with the end of the text where there is no `main`.
fn first_fault(alloc: Global, unit: &Unit, end: u32) -> Result<Option<Fault>, Memory>
    ensures { IfOk result (λ first. first ≡ whole_first unit.now end) }
{
    let first = check(alloc, unit, None, u32::MAX)?;
    Ok(with_end(first, has_main(unit), end))
}

fn with_end(first: Option<Fault>, has_main: bool, end: u32) -> Option<Fault>
    ensures { result ≡ faults.least first (faults.unless has_main (faults.known (2 ^ 32 - 1) (answer.syntax_at end ∷ []))) }
{
    if has_main {
        return first;
    }
    let mut all = first;
    keep(&mut all, u32::MAX, syntax(end));
    all
}

fn syntax(place: u32) -> Fault
    ensures { result ≡ answer.syntax_at place }
{
    Fault {
        place,
        cause: Cause::Syntax,
        since: place,
    }
}

// The first of what stops a text and of the faults that are known in front. Nothing is known in front of its first token.
fn first_known(alloc: Global, unit: &Unit, stop: Stop, begins: bool) -> Result<Fault, Memory>
    ensures { IfOk result (λ first. first ≡ stopped_first stop (if begins then faults.known stop.last (unit_faults unit.now) else [])) }
{
    if begins {
        let found = check(alloc, unit, Some(stop.fault), stop.last)?;
        return Ok(or_else(found, stop.fault));
    }
    Ok(stop.fault)
}

fn or_else(found: Option<Fault>, own: Fault) -> Fault
    ensures { result ≡ chosen own found }
{
    match found {
        Some(first) => first,
        None => own,
    }
}

// Whether the first token begins in front of a place.
fn begins_before(bytes: &[u8], place: u32) -> bool
    requires { length bytes.now < 2 ^ 32 }
    ensures { result ≡ first_before (next_of (all_of bytes.now)) place }
{
    match Lexer::new(bytes).peek() {
        Ok(Some(token)) => token.start < place,
        _ => false,
    }
}
