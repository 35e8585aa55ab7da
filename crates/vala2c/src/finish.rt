// The end of a call: what is said on err, and the status that tells it.

ghost use Rattle.std.specs.Prelude.{◌≡◌, ◌++◌, map, [], false, IfOk};
ghost use Rattle.std.specs.String.{string_bytes};
ghost use Rattle.vala2c.specs.Status.{line_of};
ghost use Rattle.vala2c.specs.Course.{Closes, Finishes, says, says_broken, says_run};

use crate::sources::{source_at, word_at};
use crate::status::{Kind, Status, message, when_unheard};
use static_rules::Refusal;
use std::alloc::{AllocError, Global};
use vg_base::{PutFault, Sink, put_all};

const MEMORY_LINE: &[u8] = b"vala2c: out of memory\n";

/// What a stage came to, the texts that err takes in front of the message line, and whether a print on err was refused: then it
/// takes nothing more.
#[derive(Drop)]
pub struct Outcome {
    pub kind: Kind,
    pub texts: Vec<u8>,
    pub muted: bool,
}

impl Outcome {
    /// The message line alone is left to say.
    pub fn plain(alloc: Global, kind: Kind) -> Outcome
        ensures kind { result.kind ≡ kind }
        ensures texts { result.texts.items ≡ [] }
        ensures muted { result.muted ≡ false }
    {
        Outcome {
            kind,
            texts: Vec::new(alloc),
            muted: false,
        }
    }
}

/// A broken rule is said with the place in the source of its file.
pub fn finish_refused<E: Sink>(
    alloc: Global,
    refusal: Refusal,
    files: &[String],
    sources: &[Vec<u8>],
    err: &mut E,
) -> Status
    ensures { Finishes (says_broken refusal (map string_bytes files.now) (map (λ s. s.items) sources.now)) (E.seen err.old) (E.seen err.new) result }
{
    let number = refusal.span.file;
    let source = source_at(sources, number);
    let file = word_at(files, number);
    let answer = Kind::Refused(refusal);
    say(alloc, Vec::new(alloc), answer, file, source, err)
}

/// An answer that may name a file is said on err.
pub fn finish<E: Sink>(alloc: Global, answer: Kind, named: &str, err: &mut E) -> Status
    ensures { Finishes (says answer named.now) (E.seen err.old) (E.seen err.new) result }
{
    say(alloc, Vec::new(alloc), answer, named, &[], err)
}

/// What a stage came to is said on err, unless a print there was refused.
pub fn finish_outcome<E: Sink>(alloc: Global, outcome: Outcome, named: &str, err: &mut E) -> Status
    ensures { Finishes (says_run outcome.kind outcome.texts.items outcome.muted named.now) (E.seen err.old) (E.seen err.new) result }
{
    if outcome.muted {
        Status::new(outcome.kind)
    } else {
        say(alloc, outcome.texts, outcome.kind, named, &[], err)
    }
}

// All is made before the first of it is put.
fn say<E: Sink>(
    alloc: Global,
    texts: Vec<u8>,
    answer: Kind,
    named: &str,
    source: &[u8],
    err: &mut E,
) -> Status
    ensures { Finishes (record { kind = answer; texts = texts.items; muted = false; named = named.now; source = source.now }) (E.seen err.old) (E.seen err.new) result }
{
    match with_line(alloc, texts, answer, named, source) {
        Ok(bytes) => Status::new(put_last(alloc, answer, &bytes, err)),
        Err(_) => Status::new(put_last(alloc, Kind::Memory, MEMORY_LINE, err)),
    }
}

// The texts, and then the message line.
fn with_line(
    alloc: Global,
    texts: Vec<u8>,
    answer: Kind,
    named: &str,
    source: &[u8],
) -> Result<Vec<u8>, AllocError>
    ensures { IfOk result (λ all. all.items ≡ texts.items ++ line_of answer named.now source.now) }
{
    let line = message(alloc, answer, named, source)?;
    let mut all = texts;
    all.extend_from_slice(line.as_bytes())?;
    Ok(all)
}

// The last bytes that err takes.
fn put_last<E: Sink>(alloc: Global, spoken: Kind, bytes: &[u8], err: &mut E) -> Kind
    ensures { Closes bytes.now spoken (E.seen err.old) (E.seen err.new) result }
{
    match put_all(alloc, err, bytes) {
        Ok(()) => spoken,
        Err(fault) => match fault.cause {
            PutFault::Failed => when_unheard(spoken),
            PutFault::Memory => Kind::Memory,
        },
    }
}
