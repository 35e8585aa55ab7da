// One call of the program: from its words, over the folder and the sinks, to its status.

ghost use Rattle.std.specs.Prelude.{◌≡◌, map, true, List};
ghost use Rattle.std.specs.String.{string_bytes};
ghost use Rattle.vg_base.specs.declared.outside.Call.{Call};
ghost use Rattle.vg_base.specs.Outside.{FolderView, SinkView};
ghost use Rattle.command_line.specs.Answers.{meaning_of};
ghost use Rattle.command_line.specs.Laws.{IsInBounds};
ghost use Rattle.command_line.specs.Meaning.{asked_of, writes};
ghost use Rattle.command_line.specs.Names.{c_file};
ghost use Rattle.vala2c.specs.Causes.{Causes, FilesTold, ProgramTold, ToldCalls};
ghost use Rattle.vala2c.specs.Course.{CallBy, Chain, Goes, IsBuilt, IsCall, most_bytes, world_of};
ghost use Rattle.vala2c.specs.Stages.{BackCalls, Stage, Written, write_kind};

use crate::finish::{Outcome, finish, finish_outcome, finish_refused};
use crate::running::run_c;
use crate::sources::{kind_of_read, read_given, source_at, word_at};
use crate::status::{Kind, Status};
use crate::texts::c_file_of;
use c_emit::programs_are_quiet;
use c_grammar::bytes_have_one_answer;
use command_line::{Asked, Command, read_words, words_ask_in_bounds};
use std::alloc::Global;
use vala_compile::{check, compile};
use vg_base::{Fault, Folder, FolderFault, Sink};

/// The most bytes of C that `exec` reads.
const MOST_C_BYTES: u64 = 67_108_864;

/// One call of the program. Its status tells what it came to; only want of memory may stand in place of any other.
pub fn vala2c<F: Folder, O: Sink, E: Sink>(
    alloc: Global,
    words: &[String],
    folder: &mut F,
    out: &mut O,
    err: &mut E,
) -> Status
    ensures call { IsCall (asked_of (map string_bytes words.now)) (F.seen folder.old) (F.seen folder.new) (O.seen out.old) (O.seen out.new) (E.seen err.old) (E.seen err.new) result }
    ensures causes { Causes (asked_of (map string_bytes words.now)) (F.seen folder.old) (F.seen folder.new) (O.seen out.old) (O.seen out.new) (E.seen err.old) (E.seen err.new) result }
    ensures told_calls { ToldCalls (asked_of (map string_bytes words.now)) (F.seen folder.old) (F.seen folder.new) (O.seen out.old) (O.seen out.new) (E.seen err.old) (E.seen err.new) result }
    ensures told_files { FilesTold (asked_of (map string_bytes words.now)) (F.seen folder.old) (F.seen folder.new) result }
    ensures program { ProgramTold (asked_of (map string_bytes words.now)) (F.seen folder.old) (O.seen out.old) (O.seen out.new) (E.seen err.old) (E.seen err.new) result.kind }
{
    bytes_have_one_answer();
    programs_are_quiet();
    words_ask_in_bounds();
    one_call(alloc, words, folder, out, err)
}

// The call, against the one relation that tells all of it.
fn one_call<F: Folder, O: Sink, E: Sink>(
    alloc: Global,
    words: &[String],
    folder: &mut F,
    out: &mut O,
    err: &mut E,
) -> Status
    ensures call { IsCall (asked_of (map string_bytes words.now)) (F.seen folder.old) (F.seen folder.new) (O.seen out.old) (O.seen out.new) (E.seen err.old) (E.seen err.new) result }
{
    words_ask_in_bounds();
    match read_words(alloc, words) {
        Ok(asked) => do_command(alloc, &asked, folder, out, err),
        Err(Fault::Refused(_)) => finish(alloc, Kind::Usage, "", err),
        Err(Fault::Memory) => finish(alloc, Kind::Memory, "", err),
    }
}

// Each command.
fn do_command<F: Folder, O: Sink, E: Sink>(
    alloc: Global,
    asked: &Asked,
    folder: &mut F,
    out: &mut O,
    err: &mut E,
) -> Status
    requires { IsInBounds (meaning_of asked.now) }
    ensures { CallBy (Goes (meaning_of asked.now) (O.seen out.old) (E.seen err.old)) (F.seen folder.old) (F.seen folder.new) (O.seen out.new) (E.seen err.new) result }
{
    match asked.command {
        Command::Check => check_files(alloc, asked, folder, err),
        Command::Emit => build_files(alloc, asked, folder, out, err),
        Command::Run => build_files(alloc, asked, folder, out, err),
        Command::Exec => exec_file(alloc, asked, folder, out, err),
    }
}

// `check FILE..`: nothing is written, and nothing runs.
fn check_files<F: Folder, E: Sink>(
    alloc: Global,
    asked: &Asked,
    folder: &mut F,
    err: &mut E,
) -> Status
    requires { asked.now.command ≡ Command.Check }
    ensures { (o : SinkView) → CallBy (Goes (meaning_of asked.now) o (E.seen err.old)) (F.seen folder.old) (F.seen folder.new) o (E.seen err.new) result }
{
    let given = match read_given(alloc, asked, folder) {
        Ok(given) => given,
        Err(unread) => return finish(alloc, unread.kind, unread.file, err),
    };
    match check(alloc, &given.sources, asked.strict_null) {
        Ok(()) => finish(alloc, Kind::Ended(0), "", err),
        Err(Fault::Refused(refusal)) => {
            finish_refused(alloc, refusal, &asked.files, &given.sources, err)
        }
        Err(Fault::Memory) => finish(alloc, Kind::Memory, "", err),
    }
}

// `emit FILE..` and `run FILE..`: the files are compiled.
fn build_files<F: Folder, O: Sink, E: Sink>(
    alloc: Global,
    asked: &Asked,
    folder: &mut F,
    out: &mut O,
    err: &mut E,
) -> Status
    requires bounds { IsInBounds (meaning_of asked.now) }
    requires writes { writes asked.now.command ≡ true }
    ensures { CallBy (Goes (meaning_of asked.now) (O.seen out.old) (E.seen err.old)) (F.seen folder.old) (F.seen folder.new) (O.seen out.new) (E.seen err.new) result }
{
    let given = match read_given(alloc, asked, folder) {
        Ok(given) => given,
        Err(unread) => return finish(alloc, unread.kind, unread.file, err),
    };
    let name = asked.name.as_str();
    match compile(alloc, &given.sources, name, asked.strict_null) {
        Ok(emitted) => deliver(alloc, asked, &emitted.c, given.input, folder, out, err),
        Err(Fault::Refused(refusal)) => {
            finish_refused(alloc, refusal, &asked.files, &given.sources, err)
        }
        Err(Fault::Memory) => finish(alloc, Kind::Memory, "", err),
    }
}

// The C goes to the file that has the program's name.
fn deliver<F: Folder, O: Sink, E: Sink>(
    alloc: Global,
    asked: &Asked,
    c: &[u8],
    input: Vec<u8>,
    folder: &mut F,
    out: &mut O,
    err: &mut E,
) -> Status
    requires bounds { IsInBounds (meaning_of asked.now) }
    requires writes { writes asked.now.command ≡ true }
    ensures { (reads : List Call) (f : FolderView) → IsBuilt (meaning_of asked.now) input.items reads c.now → Chain f reads (F.seen folder.old) → CallBy (Goes (meaning_of asked.now) (O.seen out.old) (E.seen err.old)) f (F.seen folder.new) (O.seen out.new) (E.seen err.new) result }
{
    let Ok(target) = c_file_of(alloc, asked.name.as_str()) else {
        return finish(alloc, Kind::Memory, "", err);
    };
    let file = target.as_str();
    let outcome = write_and_run(alloc, asked, file, c, input, folder, out, err);
    finish_outcome(alloc, outcome, file, err)
}

// The C file is written, and in `run` it is then run as it is read back.
fn write_and_run<F: Folder, O: Sink, E: Sink>(
    alloc: Global,
    asked: &Asked,
    target: &str,
    c: &[u8],
    input: Vec<u8>,
    folder: &mut F,
    out: &mut O,
    err: &mut E,
) -> Outcome
    requires bounds { IsInBounds (meaning_of asked.now) }
    requires writes { writes asked.now.command ≡ true }
    ensures { Stage (Written (meaning_of asked.now) target.now c.now (world_of (meaning_of asked.now) input.items) (O.seen out.old) (E.seen err.old)) (F.seen folder.old) (F.seen folder.new) (O.seen out.new) (E.seen err.new) result.kind result.texts.items result.muted }
{
    if let Err(fault) = folder.write_file(alloc, target, c) {
        return Outcome::plain(alloc, kind_of_write(fault));
    }
    match asked.command {
        Command::Run => {
            let limit = c.len() as u64;
            run_back(alloc, asked, target, limit, input, folder, out, err)
        }
        _ => Outcome::plain(alloc, Kind::Ended(0)),
    }
}

// The C file is read back and run.
fn run_back<F: Folder, O: Sink, E: Sink>(
    alloc: Global,
    asked: &Asked,
    target: &str,
    limit: u64,
    input: Vec<u8>,
    folder: &mut F,
    out: &mut O,
    err: &mut E,
) -> Outcome
    requires { IsInBounds (meaning_of asked.now) }
    ensures { Stage (BackCalls (meaning_of asked.now) target.now limit (world_of (meaning_of asked.now) input.items) (O.seen out.old) (E.seen err.old)) (F.seen folder.old) (F.seen folder.new) (O.seen out.new) (E.seen err.new) result.kind result.texts.items result.muted }
{
    match folder.read_file(alloc, target) {
        Ok(bytes) => run_c(alloc, asked, &bytes, limit, input, out, err),
        Err(fault) => Outcome::plain(alloc, kind_of_read(fault)),
    }
}

// `exec FILE`: the C of a file runs.
fn exec_file<F: Folder, O: Sink, E: Sink>(
    alloc: Global,
    asked: &Asked,
    folder: &mut F,
    out: &mut O,
    err: &mut E,
) -> Status
    requires bounds { IsInBounds (meaning_of asked.now) }
    requires command { asked.now.command ≡ Command.Exec }
    ensures { CallBy (Goes (meaning_of asked.now) (O.seen out.old) (E.seen err.old)) (F.seen folder.old) (F.seen folder.new) (O.seen out.new) (E.seen err.new) result }
{
    let given = match read_given(alloc, asked, folder) {
        Ok(given) => given,
        Err(unread) => return finish(alloc, unread.kind, unread.file, err),
    };
    let input = given.input;
    let bytes = source_at(&given.sources, 0);
    let limit = most_c_bytes();
    let outcome = run_c(alloc, asked, bytes, limit, input, out, err);
    finish_outcome(alloc, outcome, word_at(&asked.files, 0), err)
}

#[tactic(auto, unfolding(crate::specs::Course::most_bytes))]
fn most_c_bytes() -> u64
    ensures { result ≡ most_bytes }
{
    MOST_C_BYTES
}

fn kind_of_write(fault: FolderFault) -> Kind
    ensures { result ≡ write_kind fault }
{
    match fault {
        FolderFault::Missing | FolderFault::Failed => Kind::WriteFault,
        FolderFault::Memory => Kind::Memory,
    }
}
