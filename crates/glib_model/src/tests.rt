// Functions of the library, one after another.

use crate::{
    Kinds, LibEnd, LibWhat, Quarks, g_free, g_quark_from_static_string, g_str_has_suffix, g_strdup,
    strlen,
};
use c_meaning::Cell;
use c_texts::push_text;
use cell_heap::CellHeap;
use std::test::Fail;
use vg_base::{ThingKind, UndefKind};

// Whether an answer gives a pointer to the start of a block.
fn gives_block(answer: &LibEnd, wanted: u64) -> bool {
    match answer.what {
        LibWhat::Value(Cell::Ptr { block, at }) => block == wanted && at == 0,
        _ => false,
    }
}

// Whether an answer gives a number without a sign.
fn gives_number(answer: &LibEnd, wanted: u64) -> bool {
    match answer.what {
        LibWhat::Value(Cell::Uns(number)) => number == wanted,
        _ => false,
    }
}

// Whether an answer ends the run by a use of a dead block.
fn is_freed(answer: &LibEnd) -> bool {
    matches!(answer.what, LibWhat::Undefined(UndefKind::Freed))
}

#[test]
fn texts_are_copied_and_freed(rt: HostRuntime) -> Result<(), Fail> {
    let alloc = rt.alloc();
    let mut heap = CellHeap::new(alloc);
    let mut kinds = Kinds::new(alloc);
    let mut cells = Vec::new(alloc);
    push_text(&mut cells, b"word".as_slice())?;
    let block = heap.make(cells.len() as u64)?;
    heap.set_cells(block, 0, cells.as_slice());
    let text = Cell::Ptr { block, at: 0 };
    let copy = g_strdup(alloc, &mut heap, &kinds, &[text])?;
    assert!(rt; gives_block(&copy, 2));
    assert_eq!(rt; copy.notes.list.len(), 1);
    kinds.add(2, Some(ThingKind::Text), None, false)?;
    let copied = Cell::Ptr { block: 2, at: 0 };
    assert!(rt; gives_number(&strlen(alloc, &heap, &kinds, &[copied])?, 4));
    let freed = g_free(alloc, &mut heap, &kinds, &[copied])?;
    assert_eq!(rt; freed.notes.list.len(), 1);
    assert!(rt; is_freed(&g_free(alloc, &mut heap, &kinds, &[copied])?));
    assert!(rt; is_freed(&strlen(alloc, &heap, &kinds, &[copied])?));
    let literal = g_free(alloc, &mut heap, &kinds, &[text])?;
    assert!(rt; matches!(literal.what, LibWhat::Undefined(UndefKind::Kind)));
    let part = Cell::Ptr { block, at: 2 };
    let ends = g_str_has_suffix(alloc, &heap, &kinds, &[text, part])?;
    assert!(rt; matches!(ends.what, LibWhat::Value(Cell::Int(1))));
    Ok(())
}

// A text in a block of its own, and a pointer to it.
fn text_in(heap: &mut CellHeap, cells: &mut Vec<Cell>, bytes: &[u8]) -> Result<Cell, Fail> {
    cells.clear();
    push_text(cells, bytes)?;
    let block = heap.make(cells.len() as u64)?;
    heap.set_cells(block, 0, cells.as_slice());
    Ok(Cell::Ptr { block, at: 0 })
}

#[test]
fn quarks_are_counted_from_one(rt: HostRuntime) -> Result<(), Fail> {
    let alloc = rt.alloc();
    let mut heap = CellHeap::new(alloc);
    let mut cells = Vec::new(alloc);
    let mut quarks = Quarks::new(alloc);
    let first = text_in(&mut heap, &mut cells, b"first".as_slice())?;
    let other = text_in(&mut heap, &mut cells, b"other".as_slice())?;
    let again = text_in(&mut heap, &mut cells, b"first".as_slice())?;
    let number = g_quark_from_static_string(alloc, &heap, &[first], &mut quarks)?;
    assert!(rt; gives_number(&number, 1));
    let number = g_quark_from_static_string(alloc, &heap, &[other], &mut quarks)?;
    assert!(rt; gives_number(&number, 2));
    let number = g_quark_from_static_string(alloc, &heap, &[again], &mut quarks)?;
    assert!(rt; gives_number(&number, 1));
    Ok(())
}
