// Both texts, and the laws on them.

ghost use Rattle.std.specs.Prelude.{◌≡◌, IfOk};
ghost use Rattle.run_texts.specs.Texts.{live_text, made_by, trace_text};
ghost use Rattle.run_texts.specs.Laws.{TextsGrow, TextsOfRuns};

use crate::lines::{push_event, push_row};
use std::alloc::Global;
use vg_base::{Event, LiveRow, Memory};

// How many things an event makes.
fn made_by(event: &Event) -> u64
    ensures { result ≡ made_by event.now }
{
    match event {
        Event::Made(_) => 1,
        _ => 0,
    }
}

/// The text of a trace: a line for each event.
pub fn trace_text(alloc: Global, events: &[Event]) -> Result<Vec<u8>, Memory>
    ensures { IfOk result (λ text. text.items ≡ trace_text events.now) }
{
    let mut text = Vec::new(alloc);
    let mut made = 0;
    for event in events {
        push_event(alloc, &mut text, made, event)?;
        made += made_by(event);
    }
    Ok(text)
}

/// The text of what lives: a line for each row.
pub fn live_text(alloc: Global, rows: &[LiveRow]) -> Result<Vec<u8>, Memory>
    ensures { IfOk result (λ text. text.items ≡ live_text rows.now) }
{
    let mut text = Vec::new(alloc);
    for row in rows {
        push_row(alloc, &mut text, row)?;
    }
    Ok(text)
}

/// The texts of some runs. The body does nothing: the clause is a theorem.
pub fn texts_of_runs()
    ensures { TextsOfRuns }
{}

/// A trace that grows has a text that grows by the lines of what is new.
pub fn texts_grow()
    ensures { TextsGrow }
{}
