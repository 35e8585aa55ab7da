// What a format writes.

ghost use Rattle.std.specs.Prelude.{◌∷◌, List, drop, map, OnOk};
ghost use Rattle.c_meaning.specs.Formats.{formatted, write_all, written, written_text};
ghost use Rattle.c_meaning.specs.Formats as meant;
ghost use Rattle.c_texts.specs.Answers.{Answers, InRuns};
ghost use Rattle.c_formats.specs.Seen.{Goes, RefusedBy, seen_conversion, seen_directive, seen_done, seen_piece};

use crate::arguments::match_all;
use crate::done::{Done, Draft, character, stored, writes};
use crate::filling::filled;
use crate::numbers::{written_hexadecimal, written_signed, written_unsigned};
use crate::pieces::{Conversion, Directive, Piece};
use crate::reader::pieces;
use c_meaning::Cell;
use c_texts::{low_byte, text_of};
use cell_heap::CellHeap;
use std::alloc::Global;
use vg_base::{Fault, UndefKind};

// A text, where null is written as a word.
fn written_text(
    alloc: Global,
    heap: &CellHeap,
    directive: Directive,
    cell: Cell,
) -> Result<Done, Fault<UndefKind>>
    ensures { InRuns heap.now (λ s. Answers seen_done result (written_text s (seen_directive directive) cell)) }
{
    if let Cell::Null = cell {
        return writes(filled(alloc, directive, b"(null)".as_slice()));
    }
    let text = text_of(alloc, heap, cell)?;
    writes(filled(alloc, directive, text.as_slice()))
}

// What a directive writes of a cell.
fn written(
    alloc: Global,
    heap: &CellHeap,
    directive: Directive,
    cell: Cell,
) -> Result<Done, Fault<UndefKind>>
    ensures { InRuns heap.now (λ s. Answers seen_done result (written s (seen_directive directive) (seen_conversion directive.conversion) cell)) }
{
    match (directive.conversion, cell) {
        (Conversion::Signed { .. }, Cell::Int(number)) => {
            writes(written_signed(alloc, directive, number))
        }
        (Conversion::Unsigned { .. }, Cell::Uns(number)) => {
            writes(written_unsigned(alloc, directive, number))
        }
        (Conversion::Hexadecimal { is_upper, .. }, Cell::Uns(number)) => {
            writes(written_hexadecimal(alloc, directive, is_upper, number))
        }
        (Conversion::Character, Cell::Int(number)) => character(alloc, directive, low_byte(number)),
        (Conversion::Text, _) => written_text(alloc, heap, directive, cell),
        _ => Err(Fault::Refused(UndefKind::Kind)),
    }
}

// One piece is written, with the next cell where it takes one.
fn write_piece(
    alloc: Global,
    heap: &CellHeap,
    draft: &mut Draft,
    piece: Piece,
    cells: &[Cell],
    next: &mut usize,
) -> Result<(), Fault<UndefKind>>
    ensures written { OnOk result (InRuns heap.now (λ s. (ps : List meant.Piece) → Goes draft.old draft.new (write_all s (seen_piece piece ∷ ps) (drop next.old cells.now)) (write_all s ps (drop next.new cells.now)))) }
    ensures refused { InRuns heap.now (λ s. (ps : List meant.Piece) → RefusedBy result (write_all s (seen_piece piece ∷ ps) (drop next.old cells.now))) }
{
    match piece {
        Piece::Byte(byte) => stored(draft.add(&[byte])),
        Piece::Written(directive) => {
            let Some(cell) = cells.get(*next) else {
                return Err(Fault::Refused(UndefKind::Kind));
            };
            let done = written(alloc, heap, directive, *cell)?;
            *next += 1;
            stored(draft.add_done(&done))
        }
    }
}

// The pieces are written one by one.
fn write_all(
    alloc: Global,
    heap: &CellHeap,
    pieces: &[Piece],
    cells: &[Cell],
) -> Result<Vec<u8>, Fault<UndefKind>>
    ensures { InRuns heap.now (λ s. Answers (λ text. text.items) result (write_all s (map seen_piece pieces.now) cells.now)) }
{
    let mut draft = Draft {
        text: Vec::new(alloc),
        is_open: true,
    };
    let mut next = 0;
    for piece in pieces {
        match write_piece(alloc, heap, &mut draft, *piece, cells, &mut next) {
            Ok(()) => {}
            Err(fault) => return Err(fault),
        }
    }
    Ok(draft.text)
}

/// What a format writes: it is read, then matched with all its arguments, and then their texts are read from the left.
pub fn formatted(
    alloc: Global,
    heap: &CellHeap,
    format: Cell,
    cells: &[Cell],
) -> Result<Vec<u8>, Fault<UndefKind>>
    ensures { InRuns heap.now (λ s. Answers (λ text. text.items) result (formatted s format cells.now)) }
{
    let bytes = text_of(alloc, heap, format)?;
    let Ok(found) = pieces(alloc, bytes.as_slice()) else {
        return Err(Fault::Memory);
    };
    match found {
        Some(pieces) if match_all(pieces.as_slice(), cells) => {
            write_all(alloc, heap, pieces.as_slice(), cells)
        }
        _ => Err(Fault::Refused(UndefKind::Kind)),
    }
}
