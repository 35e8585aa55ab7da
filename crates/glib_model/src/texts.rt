// The library's functions of texts.

ghost use Rattle.std.specs.Prelude.{◌≡◌, ◌++◌, [], IfOk, OnOk, length};
ghost use Rattle.std.specs.Option.{option_map};
ghost use Rattle.c_meaning.specs.BlockRows.{g_ascii_strtoll, g_str_has_prefix, g_str_has_suffix, g_strcmp0, g_strconcat, g_strdup, g_strndup, g_strstr_len, give_optional, pointer_at, strlen};
ghost use Rattle.c_meaning.specs.declared.cell.Cell.TheVariants.{Int, Uns};
ghost use Rattle.c_meaning.specs.Texts.{compared_optional, give_text, number_read};
ghost use Rattle.c_texts.specs.Answers.{Answers, InRuns};
ghost use Rattle.glib_model.specs.declared.ends.LibWhat.TheVariants.{Value};
ghost use Rattle.glib_model.specs.Ends.{InRun, IsRow};
ghost use Rattle.glib_model.specs.Texts.{both_optional, both_texts, seen_optional, seen_texts};

use crate::arguments::{one, three, two};
use crate::ends::{LibEnd, refused, undefined, value};
use crate::kinds::Kinds;
use crate::making::give_text;
use crate::numbers::truth;
use c_meaning::Cell;
use c_texts::{
    compare_optional, is_back, is_front, number_read, optional_text, place_in, text_of, text_up_to,
};
use cell_heap::CellHeap;
use std::alloc::Global;
use vg_base::{Fault, Memory, UndefKind};

// A text is made and given, and null where there is none.
fn give_optional(
    alloc: Global,
    heap: &mut CellHeap,
    text: &Option<Vec<u8>>,
) -> Result<LibEnd, Memory>
    ensures { IfOk result (InRun (λ s. give_optional s (option_map (λ text. text.items) text.now)) heap.old heap.new) }
{
    match text {
        Some(text) => give_text(alloc, heap, text.as_slice()),
        None => Ok(value(alloc, Cell::Null)),
    }
}

// Two texts that pointers lead to.
#[derive(Drop)]
struct Texts {
    first: Vec<u8>,
    second: Vec<u8>,
}

// Both texts, the first before the second.
fn two_texts(
    alloc: Global,
    heap: &CellHeap,
    first: Cell,
    second: Cell,
) -> Result<Texts, Fault<UndefKind>>
    ensures { InRuns heap.now (λ s. Answers seen_texts result (both_texts s first second)) }
{
    Ok(Texts {
        first: text_of(alloc, heap, first)?,
        second: text_of(alloc, heap, second)?,
    })
}

// The same where null is none.
#[derive(Drop)]
struct OptionalTexts {
    first: Option<Vec<u8>>,
    second: Option<Vec<u8>>,
}

fn two_optional(
    alloc: Global,
    heap: &CellHeap,
    first: Cell,
    second: Cell,
) -> Result<OptionalTexts, Fault<UndefKind>>
    ensures { InRuns heap.now (λ s. Answers seen_optional result (both_optional s first second)) }
{
    Ok(OptionalTexts {
        first: optional_text(alloc, heap, first)?,
        second: optional_text(alloc, heap, second)?,
    })
}

// One text behind the other is made and given.
fn give_joined(alloc: Global, heap: &mut CellHeap, texts: &Texts) -> Result<LibEnd, Memory>
    ensures { IfOk result (InRun (λ s. give_text s (texts.now.first.items ++ texts.now.second.items)) heap.old heap.new) }
{
    let mut text = Vec::new(alloc);
    append(&mut text, texts.first.as_slice())?;
    append(&mut text, texts.second.as_slice())?;
    give_text(alloc, heap, text.as_slice())
}

fn append(text: &mut Vec<u8>, bytes: &[u8]) -> Result<(), Memory>
    ensures { OnOk result (text.new.items ≡ text.old.items ++ bytes.now) }
{
    if text.extend_from_slice(bytes).is_err() {
        Err(Memory)
    } else {
        Ok(())
    }
}

// A pointer so many bytes on, or null. No heap has a place behind the last number.
fn pointer_at(cell: Cell, place: Option<usize>) -> Result<Cell, Memory>
    ensures { IfOk result (λ pointer. pointer ≡ pointer_at cell place) }
{
    let (Cell::Ptr { block, at }, Some(on)) = (cell, place) else {
        return Ok(Cell::Null);
    };
    match at.checked_add(on as u64) {
        Some(at) => Ok(Cell::Ptr { block, at }),
        None => Err(Memory),
    }
}

// A pointer so many bytes on, or null, is given.
fn give_pointer(alloc: Global, cell: Cell, place: Option<usize>) -> Result<LibEnd, Memory>
    ensures { IfOk result (λ answer. answer ≡ record { what = Value (pointer_at cell place); notes = [] }) }
{
    let pointer = pointer_at(cell, place)?;
    Ok(value(alloc, pointer))
}

// Which text is less, as a cell.
fn compared_cell(texts: &OptionalTexts) -> Cell
    ensures { result ≡ Int (compared_optional (seen_optional texts.now).first (seen_optional texts.now).second) }
{
    Cell::Int(compare_optional(&texts.first, &texts.second))
}

// The length of a text, as a cell.
fn length_cell(text: &[u8]) -> Cell
    ensures { result ≡ Uns (length text.now) }
{
    Cell::Uns(text.len() as u64)
}

// The number that a text begins with, as a cell.
fn number_cell(text: &[u8]) -> Cell
    ensures { result ≡ Int (number_read text.now) }
{
    Cell::Int(number_read(text))
}

/// A copy of a text; null is null.
pub fn g_strdup(
    alloc: Global,
    heap: &mut CellHeap,
    kinds: &Kinds,
    args: &[Cell],
) -> Result<LibEnd, Memory>
    ensures { IfOk result (IsRow g_strdup args.now heap.old kinds.now heap.new) }
{
    let Some(cell) = one(args) else {
        return Ok(undefined(alloc, UndefKind::Kind));
    };
    match optional_text(alloc, heap, cell) {
        Ok(text) => give_optional(alloc, heap, &text),
        Err(fault) => refused(alloc, fault),
    }
}

/// The first bytes of a text, at most so many.
pub fn g_strndup(
    alloc: Global,
    heap: &mut CellHeap,
    kinds: &Kinds,
    args: &[Cell],
) -> Result<LibEnd, Memory>
    ensures { IfOk result (IsRow g_strndup args.now heap.old kinds.now heap.new) }
{
    let Some((cell, count)) = two(args) else {
        return Ok(undefined(alloc, UndefKind::Kind));
    };
    let Cell::Uns(most) = count else {
        return Ok(undefined(alloc, UndefKind::Kind));
    };
    match text_up_to(alloc, heap, cell, most) {
        Ok(text) => give_text(alloc, heap, text.as_slice()),
        Err(fault) => refused(alloc, fault),
    }
}

/// Two texts one behind the other.
pub fn g_strconcat(
    alloc: Global,
    heap: &mut CellHeap,
    kinds: &Kinds,
    args: &[Cell],
) -> Result<LibEnd, Memory>
    ensures { IfOk result (IsRow g_strconcat args.now heap.old kinds.now heap.new) }
{
    let Some((first, second, last)) = three(args) else {
        return Ok(undefined(alloc, UndefKind::Kind));
    };
    let Cell::Null = last else {
        return Ok(undefined(alloc, UndefKind::Kind));
    };
    match two_texts(alloc, heap, first, second) {
        Ok(texts) => give_joined(alloc, heap, &texts),
        Err(fault) => refused(alloc, fault),
    }
}

/// Which text is less: -1, 0 or 1; null is less than every text.
pub fn g_strcmp0(
    alloc: Global,
    heap: &CellHeap,
    kinds: &Kinds,
    args: &[Cell],
) -> Result<LibEnd, Memory>
    ensures { IfOk result (IsRow g_strcmp0 args.now heap.now kinds.now heap.now) }
{
    let Some((first, second)) = two(args) else {
        return Ok(undefined(alloc, UndefKind::Kind));
    };
    match two_optional(alloc, heap, first, second) {
        Ok(texts) => Ok(value(alloc, compared_cell(&texts))),
        Err(fault) => refused(alloc, fault),
    }
}

/// How many bytes a text has.
pub fn strlen(
    alloc: Global,
    heap: &CellHeap,
    kinds: &Kinds,
    args: &[Cell],
) -> Result<LibEnd, Memory>
    ensures { IfOk result (IsRow strlen args.now heap.now kinds.now heap.now) }
{
    let Some(cell) = one(args) else {
        return Ok(undefined(alloc, UndefKind::Kind));
    };
    match text_of(alloc, heap, cell) {
        Ok(text) => Ok(value(alloc, length_cell(text.as_slice()))),
        Err(fault) => refused(alloc, fault),
    }
}

/// Whether the first text begins with the second.
pub fn g_str_has_prefix(
    alloc: Global,
    heap: &CellHeap,
    kinds: &Kinds,
    args: &[Cell],
) -> Result<LibEnd, Memory>
    ensures { IfOk result (IsRow g_str_has_prefix args.now heap.now kinds.now heap.now) }
{
    let Some((first, second)) = two(args) else {
        return Ok(undefined(alloc, UndefKind::Kind));
    };
    match two_texts(alloc, heap, first, second) {
        Ok(texts) => Ok(value(
            alloc,
            truth(is_front(texts.second.as_slice(), texts.first.as_slice())),
        )),
        Err(fault) => refused(alloc, fault),
    }
}

/// Whether the first text ends with the second.
pub fn g_str_has_suffix(
    alloc: Global,
    heap: &CellHeap,
    kinds: &Kinds,
    args: &[Cell],
) -> Result<LibEnd, Memory>
    ensures { IfOk result (IsRow g_str_has_suffix args.now heap.now kinds.now heap.now) }
{
    let Some((first, second)) = two(args) else {
        return Ok(undefined(alloc, UndefKind::Kind));
    };
    match two_texts(alloc, heap, first, second) {
        Ok(texts) => Ok(value(
            alloc,
            truth(is_back(texts.second.as_slice(), texts.first.as_slice())),
        )),
        Err(fault) => refused(alloc, fault),
    }
}

/// A pointer to the least place at which the second text stands in the first, or null.
pub fn g_strstr_len(
    alloc: Global,
    heap: &CellHeap,
    kinds: &Kinds,
    args: &[Cell],
) -> Result<LibEnd, Memory>
    ensures { IfOk result (IsRow g_strstr_len args.now heap.now kinds.now heap.now) }
{
    let Some((first, _, second)) = three(args) else {
        return Ok(undefined(alloc, UndefKind::Kind));
    };
    match two_texts(alloc, heap, first, second) {
        Ok(texts) => {
            let place = place_in(texts.second.as_slice(), texts.first.as_slice());
            give_pointer(alloc, first, place)
        }
        Err(fault) => refused(alloc, fault),
    }
}

/// The number that a text begins with.
pub fn g_ascii_strtoll(
    alloc: Global,
    heap: &CellHeap,
    kinds: &Kinds,
    args: &[Cell],
) -> Result<LibEnd, Memory>
    ensures { IfOk result (IsRow g_ascii_strtoll args.now heap.now kinds.now heap.now) }
{
    let Some((cell, _, _)) = three(args) else {
        return Ok(undefined(alloc, UndefKind::Kind));
    };
    match text_of(alloc, heap, cell) {
        Ok(text) => Ok(value(alloc, number_cell(text.as_slice()))),
        Err(fault) => refused(alloc, fault),
    }
}
