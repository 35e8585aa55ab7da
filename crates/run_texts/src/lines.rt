// The line of an event, and the line of a thing that lives.

ghost use Rattle.std.specs.Prelude.{◌≡◌, ◌<◌, ◌^◌, IfOk, OnOk, ◌++◌, string_bytes};
ghost use Rattle.run_texts.specs.Texts.{event_line, kind_word, live_line, stream_word};

use std::alloc::{AllocError, Global};
use vg_base::{Event, LiveRow, Memory, Stream, ThingKind};

fn kind_word(kind: ThingKind) -> &'static str
    ensures { result.now ≡ kind_word kind }
{
    match kind {
        ThingKind::Object => "object",
        ThingKind::Text => "text",
        ThingKind::Array => "array",
        ThingKind::Scope => "scope",
        ThingKind::Error => "error",
        ThingKind::Activation => "activation",
    }
}

fn stream_word(stream: Stream) -> &'static str
    ensures { result.now ≡ stream_word stream }
{
    match stream {
        Stream::Out => "out",
        Stream::Err => "err",
    }
}

// The line of an event, before which so many things were made.
fn event_line(alloc: Global, made: u64, event: &Event) -> Result<String, AllocError>
    requires { made < 2 ^ 63 }
    ensures { IfOk result (λ s. string_bytes s ≡ event_line made event.now) }
{
    match event {
        Event::Made(kind) => {
            let serial = made + 1;
            let word = kind_word(*kind);
            format!(in alloc; "made {serial} {word}\n")
        }
        Event::Gone(serial) => format!(in alloc; "gone {serial}\n"),
        Event::Dispatch(id) => format!(in alloc; "dispatch {id}\n"),
        Event::Print { stream, bytes } => {
            let word = stream_word(*stream);
            let count = bytes.list.len();
            format!(in alloc; "{word} {count}\n")
        }
    }
}

fn live_line(alloc: Global, row: &LiveRow) -> Result<String, AllocError>
    ensures { IfOk result (λ s. string_bytes s ≡ live_line row.now) }
{
    let serial = row.serial;
    let word = kind_word(row.kind);
    let owners = row.owners;
    format!(in alloc; "live {serial} {word} {owners}\n")
}

/// Appends the line of an event.
pub fn push_event(alloc: Global, text: &mut Vec<u8>, made: u64, event: &Event) -> Result<(), Memory>
    requires { made < 2 ^ 63 }
    ensures { OnOk result (text.new.items ≡ text.old.items ++ event_line made event.now) }
{
    let line = event_line(alloc, made, event).map_err(|_| Memory)?;
    text.extend_from_slice(line.as_bytes()).map_err(|_| Memory)
}

/// Appends the line of a thing that lives.
pub fn push_row(alloc: Global, text: &mut Vec<u8>, row: &LiveRow) -> Result<(), Memory>
    ensures { OnOk result (text.new.items ≡ text.old.items ++ live_line row.now) }
{
    let line = live_line(alloc, row).map_err(|_| Memory)?;
    text.extend_from_slice(line.as_bytes()).map_err(|_| Memory)
}
