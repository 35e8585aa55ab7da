// The statuses of a call: exit bytes and message lines.

ghost use Rattle.std.specs.Prelude.{◌≡◌, ◌+◌, ◌==◌, [], ◌∷◌, ◌++◌, IfOk, count_by, codes};
ghost use Rattle.std.specs.Fmt.{decimal};
ghost use Rattle.std.specs.String.{string_bytes};
ghost use Rattle.vala2c.specs.Status.{cause_name as name_of_cause, cause_text as text_of_cause, line_of, exit_byte, kind_of_end as kind_of_an_end, kind_of_run as kind_of_a_run, kind_of_undefined as kind_of_meaningless, unheard, trap_word, undef_word, refusal_line, c_refusal_line, located_line, source_place as place_in};
ghost use Rattle.vala2c.specs.Stages.{end_in};

use crate::texts::{after_last_byte, front};
use c_interpreter::RunEnd;
use c_tree::{Cause, Refusal as CRefusal};
use command_line::Command;
use static_rules::{Refusal, rule_name, rule_text};
use std::alloc::{AllocError, Global};
use vg_base::{CEnd, TrapKind, UndefKind};

/// How a call of the program ended.
#[derive(Clone, Copy)]
pub enum Kind {
    /// The program ended with this code.
    Ended(i32),
    /// The words are outside the grammar.
    Usage,
    NoFile,
    ReadFault,
    WriteFault,
    OutFault,
    /// A rule of the language is broken.
    Refused(Refusal),
    /// The C that was read is outside the dialect.
    CRefused(CRefusal),
    StepsSpent,
    Waiting,
    Trapped(TrapKind),
    /// A reference was used whose thing is gone.
    Dead,
    Undefined(UndefKind),
    Memory,
}

/// A status, and the exit byte that tells it.
#[derive(Clone, Copy)]
pub struct Status {
    pub kind: Kind,
    pub code: u8,
}

impl Status {
    /// The status of this kind.
    pub fn new(kind: Kind) -> Status
        ensures kind { result.kind ≡ kind }
        ensures code { result.code ≡ exit_byte kind }
    {
        Status {
            kind,
            code: code_of(kind),
        }
    }

    /// The exit byte.
    pub fn exit_code(&self) -> u8
        ensures { result ≡ self.now.code }
    {
        self.code
    }
}

fn code_of(kind: Kind) -> u8
    ensures { result ≡ exit_byte kind }
{
    match kind {
        Kind::Ended(code) => code.rem_euclid(256) as u8,
        Kind::Usage => 2,
        Kind::NoFile => 3,
        Kind::ReadFault => 4,
        Kind::WriteFault => 5,
        Kind::OutFault => 6,
        Kind::Refused(_) => 10,
        Kind::CRefused(_) => 12,
        Kind::StepsSpent => 20,
        Kind::Waiting => 21,
        Kind::Trapped(_) => 22,
        Kind::Dead => 23,
        Kind::Undefined(_) => 24,
        Kind::Memory => 30,
    }
}

/// The status of a run that ends so, or whose steps were spent. In `exec` a use of what was freed is told as all that has no meaning.
pub fn kind_of(command: Command, end: RunEnd) -> Kind
    ensures { result ≡ kind_of_a_run command (end_in end) }
{
    match end {
        RunEnd::Done(end) => kind_of_end(command, end),
        RunEnd::Spent => Kind::StepsSpent,
    }
}

fn kind_of_end(command: Command, end: CEnd) -> Kind
    ensures { result ≡ kind_of_an_end command end }
{
    match end {
        CEnd::Ended(code) => Kind::Ended(code),
        CEnd::Aborted(kind) => Kind::Trapped(kind),
        CEnd::Waiting => Kind::Waiting,
        CEnd::Undefined(kind) => kind_of_undefined(command, kind),
    }
}

fn kind_of_undefined(command: Command, kind: UndefKind) -> Kind
    ensures { result ≡ kind_of_meaningless command kind }
{
    match kind {
        UndefKind::Freed => kind_of_freed(command),
        other => Kind::Undefined(other),
    }
}

fn kind_of_freed(command: Command) -> Kind
    ensures { result ≡ kind_of_meaningless command UndefKind.Freed }
{
    match command {
        Command::Exec => Kind::Undefined(UndefKind::Freed),
        _ => Kind::Dead,
    }
}

/// What becomes of a status whose message line could not be put.
pub fn when_unheard(kind: Kind) -> Kind
    ensures { result ≡ unheard kind }
{
    match kind {
        Kind::Ended(_) => Kind::OutFault,
        other => other,
    }
}

/// The message line of a status. `named` is the file that it names, and `source` the text that it speaks of.
pub fn message(alloc: Global, kind: Kind, named: &str, source: &[u8]) -> Result<String, AllocError>
    ensures { IfOk result (λ s. string_bytes s ≡ line_of kind named.now source.now) }
{
    match kind {
        Kind::Ended(_) => Ok(String::new(alloc)),
        Kind::Usage => format!(in alloc; "vala2c: bad command line\n"),
        Kind::NoFile => format!(in alloc; "vala2c: no file {named}\n"),
        Kind::ReadFault => format!(in alloc; "vala2c: cannot read {named}\n"),
        Kind::WriteFault => format!(in alloc; "vala2c: cannot write {named}\n"),
        Kind::OutFault => format!(in alloc; "vala2c: output failed\n"),
        Kind::Refused(refusal) => refused_message(alloc, refusal, named, source),
        Kind::CRefused(refusal) => c_refused_message(alloc, refusal, named),
        Kind::StepsSpent => format!(in alloc; "vala2c: steps spent\n"),
        Kind::Waiting => format!(in alloc; "vala2c: waiting with no source\n"),
        Kind::Trapped(kind) => trapped_message(alloc, kind),
        Kind::Dead => format!(in alloc; "vala2c: use of a reference whose thing is gone\n"),
        Kind::Undefined(kind) => undefined_message(alloc, kind),
        Kind::Memory => format!(in alloc; "vala2c: out of memory\n"),
    }
}

// `PLACE: NAME TEXT`
fn located(alloc: Global, place: &str, name: &str, text: &str) -> Result<String, AllocError>
    ensures { IfOk result (λ s. string_bytes s ≡ located_line place.now name.now text.now) }
{
    format!(in alloc; "{place}: {name} {text}\n")
}

// `FILE:LINE:COLUMN`
fn line_place(alloc: Global, file: &str, line: usize, column: usize) -> Result<String, AllocError>
    ensures { IfOk result (λ s. string_bytes s ≡ file.now ++ (codes ":" ++ (decimal line ++ (codes ":" ++ decimal column)))) }
{
    format!(in alloc; "{file}:{line}:{column}")
}

// `FILE: byte AT`
fn byte_place(alloc: Global, file: &str, at: u64) -> Result<String, AllocError>
    ensures { IfOk result (λ s. string_bytes s ≡ file.now ++ codes ": byte " ++ decimal at) }
{
    format!(in alloc; "{file}: byte {at}")
}

// The number of the line that follows these bytes.
fn line_number(before: &[u8]) -> usize
    ensures { result ≡ count_by (λ b. b == 10) before.now + 1 }
{
    before.iter().filter(|b| **b == b'\n').count() + 1
}

// The place of a byte: `FILE:LINE:COLUMN`.
fn source_place(alloc: Global, file: &str, source: &[u8], at: u32) -> Result<String, AllocError>
    ensures { IfOk result (λ s. string_bytes s ≡ place_in file.now source.now at) }
{
    let before = front(source, at as usize);
    let column = after_last_byte(before, b'\n').len() + 1;
    line_place(alloc, file, line_number(before), column)
}

fn refused_message(
    alloc: Global,
    refusal: Refusal,
    file: &str,
    source: &[u8],
) -> Result<String, AllocError>
    ensures { IfOk result (λ s. string_bytes s ≡ refusal_line file.now source.now refusal) }
{
    let place = source_place(alloc, file, source, refusal.span.start)?;
    located(
        alloc,
        place.as_str(),
        rule_name(refusal.rule),
        rule_text(refusal.rule),
    )
}

// The name of a cause for which a text of C is refused.
fn cause_name(cause: Cause) -> &'static str
    ensures { result.now ≡ name_of_cause cause }
{
    match cause {
        Cause::Token => "C1",
        Cause::Syntax => "C2",
        Cause::Undeclared => "C3",
        Cause::Misfit => "C4",
        Cause::Twice => "C5",
        Cause::Large => "C6",
    }
}

// What the cause says.
fn cause_text(cause: Cause) -> &'static str
    ensures { result.now ≡ text_of_cause cause }
{
    match cause {
        Cause::Token => "bad token",
        Cause::Syntax => "not in the dialect",
        Cause::Undeclared => "undeclared",
        Cause::Misfit => "type does not fit",
        Cause::Twice => "declared twice",
        Cause::Large => "too large",
    }
}

fn c_refused_message(alloc: Global, refusal: CRefusal, file: &str) -> Result<String, AllocError>
    ensures { IfOk result (λ s. string_bytes s ≡ c_refusal_line file.now refusal) }
{
    let place = byte_place(alloc, file, refusal.at)?;
    located(
        alloc,
        place.as_str(),
        cause_name(refusal.cause),
        cause_text(refusal.cause),
    )
}

fn trapped_message(alloc: Global, kind: TrapKind) -> Result<String, AllocError>
    ensures { IfOk result (λ s. string_bytes s ≡ line_of (Kind.Trapped kind) [] []) }
{
    let word = word_of_trap(kind);
    format!(in alloc; "vala2c: trap {word}\n")
}

fn word_of_trap(kind: TrapKind) -> &'static str
    ensures { result.now ≡ trap_word kind }
{
    match kind {
        TrapKind::Null => "null",
        TrapKind::Division => "division",
        TrapKind::Index => "index",
        TrapKind::Cast => "cast",
        TrapKind::Length => "length",
        TrapKind::Range => "range",
        TrapKind::Assert => "assert",
        TrapKind::Resume => "resume",
        TrapKind::Loop => "loop",
    }
}

fn undefined_message(alloc: Global, kind: UndefKind) -> Result<String, AllocError>
    ensures { IfOk result (λ s. string_bytes s ≡ line_of (Kind.Undefined kind) [] []) }
{
    let word = word_of_undefined(kind);
    format!(in alloc; "vala2c: undefined {word}\n")
}

fn word_of_undefined(kind: UndefKind) -> &'static str
    ensures { result.now ≡ undef_word kind }
{
    match kind {
        UndefKind::Freed => "freed",
        UndefKind::Null => "null",
        UndefKind::Outside => "outside",
        UndefKind::Unset => "unset",
        UndefKind::Kind => "kind",
        UndefKind::Func => "func",
        UndefKind::Divide => "divide",
        UndefKind::Overflow => "overflow",
    }
}
