// Blocks that are made, stored to and freed.

use c_meaning::Cell;
use cell_heap::{CellHeap, HeapFault};
use std::test::Fail;
use vg_base::{Fault, UndefKind};

// Whether a place has the number.
fn is_number(cell: Option<Cell>, number: u64) -> bool {
    match cell {
        Some(Cell::Uns(n)) => n == number,
        _ => false,
    }
}

fn is_unset(cell: Option<Cell>) -> bool {
    matches!(cell, Some(Cell::Unset))
}

// Which of the four uses without a meaning a text was.
fn refused(text: Result<Vec<u8>, Fault<UndefKind>>) -> Option<u32> {
    match text {
        Err(Fault::Refused(UndefKind::Freed)) => Some(1),
        Err(Fault::Refused(UndefKind::Outside)) => Some(2),
        Err(Fault::Refused(UndefKind::Unset)) => Some(3),
        Err(Fault::Refused(UndefKind::Kind)) => Some(4),
        _ => None,
    }
}

#[test]
fn numbers_count_from_one(rt: HostRuntime) -> Result<(), Fail> {
    let mut heap = CellHeap::new(rt.alloc());
    assert_eq!(rt; heap.make(3)?, 1);
    assert_eq!(rt; heap.make(0)?, 2);
    assert!(rt; heap.free(1));
    assert_eq!(rt; heap.make(3)?, 3);
    assert!(rt; heap.get(1, 0).is_none());
    assert!(rt; is_unset(heap.get(3, 0)));
    assert!(rt; heap.get(0, 0).is_none());
    assert!(rt; heap.get(4, 0).is_none());
    Ok(())
}

#[test]
fn cells_are_stored_where_they_are(rt: HostRuntime) -> Result<(), Fail> {
    let mut heap = CellHeap::new(rt.alloc());
    let first = heap.make(2)?;
    let second = heap.make(2)?;
    assert!(rt; heap.set(first, 1, Cell::Uns(7)));
    assert!(rt; !heap.set(first, 2, Cell::Uns(8)));
    assert!(rt; !heap.set(0, 0, Cell::Uns(8)));
    assert!(rt; !heap.set(3, 0, Cell::Uns(8)));
    assert!(rt; is_number(heap.get(first, 1), 7));
    assert!(rt; is_unset(heap.get(first, 0)));
    assert!(rt; is_unset(heap.get(second, 1)));
    assert!(rt; heap.get(first, 2).is_none());
    assert!(rt; heap.length(first) == Some(2));
    Ok(())
}

#[test]
fn freed_blocks_answer_nothing(rt: HostRuntime) -> Result<(), Fail> {
    let mut heap = CellHeap::new(rt.alloc());
    let block = heap.make(1)?;
    assert!(rt; heap.free(block));
    assert!(rt; !heap.free(block));
    assert!(rt; !heap.free(0));
    assert!(rt; !heap.free(2));
    assert!(rt; !heap.set(block, 0, Cell::Null));
    assert!(rt; heap.get(block, 0).is_none());
    assert!(rt; heap.length(block).is_none());
    Ok(())
}

#[test]
fn classes_are_powers_of_two(rt: HostRuntime) -> Result<(), Fail> {
    let mut heap = CellHeap::new(rt.alloc());
    heap.make(0)?;
    assert_eq!(rt; heap.held(), 1);
    heap.make(3)?;
    assert_eq!(rt; heap.held(), 5);
    heap.make(4)?;
    heap.make(5)?;
    assert_eq!(rt; heap.held(), 17);
    assert!(rt; heap.free(2));
    assert!(rt; heap.free(1));
    assert_eq!(rt; heap.held(), 12);
    Ok(())
}

#[test]
fn no_memory_holds_some_blocks(rt: HostRuntime) -> Result<(), Fail> {
    let mut heap = CellHeap::new(rt.alloc());
    for cells in [u64::MAX, 1 << 63, 1 << 62] {
        assert!(rt; matches!(heap.make(cells), Err(HeapFault::Memory)));
    }
    assert_eq!(rt; heap.held(), 0);
    assert_eq!(rt; heap.make(1)?, 1);
    Ok(())
}

#[test]
fn runs_of_cells_are_whole(rt: HostRuntime) -> Result<(), Fail> {
    let mut heap = CellHeap::new(rt.alloc());
    let block = heap.make(4)?;
    assert!(rt; heap.set(block, 2, Cell::Uns(7)));
    let Some(run) = heap.get_cells(block, 1, 3) else {
        return Err(Fail::new("no cells"));
    };
    assert_eq!(rt; run.len(), 3);
    assert!(rt; is_number(run.get(1).copied(), 7));
    assert!(rt; heap.get_cells(block, 4, 0).is_some());
    assert!(rt; heap.get_cells(block, 5, 0).is_none());
    assert!(rt; heap.get_cells(block, 2, 3).is_none());
    assert!(rt; heap.get_cells(block, u64::MAX, u64::MAX).is_none());
    assert!(rt; heap.get_cells(2, 0, 0).is_none());
    Ok(())
}

#[test]
fn runs_of_cells_are_stored_whole_or_not_at_all(rt: HostRuntime) -> Result<(), Fail> {
    let mut heap = CellHeap::new(rt.alloc());
    let block = heap.make(4)?;
    let run = [Cell::Uns(1), Cell::Uns(2)];
    assert!(rt; heap.set_cells(block, 2, run.as_slice()));
    assert!(rt; is_number(heap.get(block, 3), 2));
    assert!(rt; !heap.set_cells(block, 3, run.as_slice()));
    assert!(rt; is_number(heap.get(block, 3), 2));
    assert!(rt; is_unset(heap.get(block, 1)));
    assert!(rt; heap.set_cells(block, 4, &[]));
    assert!(rt; !heap.set_cells(block, 5, &[]));
    assert!(rt; !heap.set_cells(2, 0, &[]));
    Ok(())
}

#[test]
fn texts_end_at_a_zero(rt: HostRuntime) -> Result<(), Fail> {
    let mut heap = CellHeap::new(rt.alloc());
    let block = heap.make(5)?;
    for (at, number) in [(0, 353), (1, -155), (2, 0), (3, 104)] {
        assert!(rt; heap.set(block, at, Cell::Int(number)));
    }
    assert!(rt; heap.text(rt.alloc(), block, 0)?.as_slice() == b"ae".as_slice());
    assert!(rt; heap.text(rt.alloc(), block, 2)?.as_slice() == b"".as_slice());
    assert!(rt; refused(heap.text(rt.alloc(), block, 3)) == Some(3));
    assert!(rt; heap.set(block, 4, Cell::Func(1)));
    assert!(rt; refused(heap.text(rt.alloc(), block, 3)) == Some(4));
    assert!(rt; heap.set(block, 4, Cell::Uns(256)));
    assert!(rt; heap.text(rt.alloc(), block, 3)?.as_slice() == b"h".as_slice());
    assert!(rt; refused(heap.text(rt.alloc(), block, 5)) == Some(2));
    assert!(rt; refused(heap.text(rt.alloc(), block, 6)) == Some(2));
    assert!(rt; heap.free(block));
    assert!(rt; refused(heap.text(rt.alloc(), block, 0)) == Some(1));
    Ok(())
}
