// The library's functions of ends, of the input and of quarks.

ghost use Rattle.std.specs.Prelude.{◌≡◌, ◌≤◌, IfOk, drop, length};
ghost use Rattle.std.specs.Str.{bytes_eq};
ghost use Rattle.c_meaning.specs.Blocks.{bind};
ghost use Rattle.c_meaning.specs.BlockRows.{all_traps, g_error, trap_named};
ghost use Rattle.c_meaning.specs.Texts.{behind_line, text_of};
ghost use Rattle.c_texts.specs.Answers.{Answers, InRuns};
ghost use Rattle.glib_model.specs.Ends.{IsRow};
ghost use Rattle.glib_model.specs.Outside.{IsLine, IsQuark};

use crate::arguments::one;
use crate::ends::{LibEnd, LibWhat, quiet, refused, undefined, value};
use crate::kinds::Kinds;
use crate::making::give_text;
use crate::quarks::Quarks;
use c_meaning::Cell;
use c_texts::{before_zero, behind_line, line_of, text_of};
use cell_heap::CellHeap;
use std::alloc::Global;
use vg_base::{Fault, Memory, TrapKind, UndefKind};

fn is_word(name: &[u8], word: &[u8]) -> bool
    ensures { result ≡ bytes_eq name.now word.now }
{
    name == word
}

// The trap whose word is that text.
fn trap_named(word: &[u8]) -> Result<TrapKind, UndefKind>
    ensures { result ≡ trap_named all_traps word.now }
{
    if is_word(b"null".as_slice(), word) {
        Ok(TrapKind::Null)
    } else if is_word(b"division".as_slice(), word) {
        Ok(TrapKind::Division)
    } else if is_word(b"index".as_slice(), word) {
        Ok(TrapKind::Index)
    } else if is_word(b"cast".as_slice(), word) {
        Ok(TrapKind::Cast)
    } else if is_word(b"length".as_slice(), word) {
        Ok(TrapKind::Length)
    } else if is_word(b"range".as_slice(), word) {
        Ok(TrapKind::Range)
    } else if is_word(b"assert".as_slice(), word) {
        Ok(TrapKind::Assert)
    } else if is_word(b"resume".as_slice(), word) {
        Ok(TrapKind::Resume)
    } else if is_word(b"loop".as_slice(), word) {
        Ok(TrapKind::Loop)
    } else {
        Err(UndefKind::Kind)
    }
}

// The trap whose word is the text that a pointer leads to.
fn trap_of(alloc: Global, heap: &CellHeap, cell: Cell) -> Result<TrapKind, Fault<UndefKind>>
    ensures { InRuns heap.now (λ s. Answers (λ trap. trap) result (bind (text_of s cell) (trap_named all_traps))) }
{
    let text = text_of(alloc, heap, cell)?;
    match trap_named(text.as_slice()) {
        Ok(trap) => Ok(trap),
        Err(kind) => Err(Fault::Refused(kind)),
    }
}

/// The run ends by the trap whose word is the text.
pub fn g_error(
    alloc: Global,
    heap: &CellHeap,
    kinds: &Kinds,
    args: &[Cell],
) -> Result<LibEnd, Memory>
    ensures { IfOk result (IsRow g_error args.now heap.now kinds.now heap.now) }
{
    let Some(cell) = one(args) else {
        return Ok(undefined(alloc, UndefKind::Kind));
    };
    match trap_of(alloc, heap, cell) {
        Ok(trap) => Ok(quiet(alloc, LibWhat::Aborted(trap))),
        Err(fault) => refused(alloc, fault),
    }
}

// The place in the input behind the line that begins at a place.
fn line_end(input: &[u8], at: usize) -> usize
    requires { at ≤ length input.now }
    ensures within { result ≤ length input.now }
    ensures behind { drop result input.now ≡ behind_line (drop at input.now) }
{
    input.len() - behind_line(&input[at..]).len()
}

/// The next line of the input from a place on, cut at a zero byte, or null at the end.
pub fn vala_rt_read_line(
    alloc: Global,
    heap: &mut CellHeap,
    kinds: &Kinds,
    args: &[Cell],
    input: &[u8],
    at: &mut usize,
) -> Result<LibEnd, Memory>
    ensures within { at.old ≤ length input.now → at.new ≤ length input.now }
    ensures line { IfOk result (IsLine (drop at.old input.now) (drop at.new input.now) args.now heap.old kinds.now heap.new) }
{
    let start = *at;
    if start >= input.len() {
        return Ok(value(alloc, Cell::Null));
    }
    *at = line_end(input, start);
    give_text(alloc, heap, before_zero(line_of(&input[start..])))
}

/// The number of a text among the quarks, counted from 1.
pub fn g_quark_from_static_string(
    alloc: Global,
    heap: &CellHeap,
    args: &[Cell],
    quarks: &mut Quarks,
) -> Result<LibEnd, Memory>
    ensures { IfOk result (IsQuark quarks.old quarks.new args.now heap.now) }
{
    let Some(cell) = one(args) else {
        return Ok(undefined(alloc, UndefKind::Kind));
    };
    match text_of(alloc, heap, cell) {
        Ok(text) => {
            let number = quarks.add(text)?;
            Ok(value(alloc, Cell::Uns(number)))
        }
        Err(fault) => refused(alloc, fault),
    }
}
