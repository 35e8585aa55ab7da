// Formats, by what they write.

use crate::formatted;
use c_meaning::Cell;
use c_texts::push_text;
use cell_heap::CellHeap;
use std::alloc::Global;
use std::test::Fail;
use vg_base::{Fault, UndefKind};

// A block with the cells of a text.
fn text(alloc: Global, heap: &mut CellHeap, bytes: &[u8]) -> Result<Cell, Fail> {
    let mut cells = Vec::new(alloc);
    push_text(&mut cells, bytes)?;
    let block = heap.make(cells.len() as u64)?;
    heap.set_cells(block, 0, cells.as_slice());
    Ok(Cell::Ptr { block, at: 0 })
}

#[test]
fn formats_are_written(rt: HostRuntime) -> Result<(), Fail> {
    let alloc = rt.alloc();
    let mut heap = CellHeap::new(alloc);
    let word = text(alloc, &mut heap, b"ab".as_slice())?;
    let cells = [
        Cell::Int(-7),
        Cell::Uns(255),
        word,
        Cell::Null,
        Cell::Int(65),
    ];
    let format = text(alloc, &mut heap, b"%05d|%-4x|%4s|%s|%c%%".as_slice())?;
    let written = formatted(alloc, &heap, format, cells.as_slice())?;
    assert!(rt; written.as_slice() == b"-0007|ff  |  ab|(null)|A%".as_slice());
    let ended = text(alloc, &mut heap, b"a%3cb%d".as_slice())?;
    let zero = [Cell::Int(0), Cell::Int(5)];
    assert!(rt; formatted(alloc, &heap, ended, zero.as_slice())?.as_slice() == b"a  ".as_slice());
    Ok(())
}

#[test]
fn misfits_are_refused(rt: HostRuntime) -> Result<(), Fail> {
    let alloc = rt.alloc();
    let mut heap = CellHeap::new(alloc);
    let format = text(alloc, &mut heap, b"%d".as_slice())?;
    for cell in [Cell::Uns(5), Cell::Int(1 << 31), Cell::Null] {
        let written = formatted(alloc, &heap, format, &[cell]);
        assert!(rt; matches!(written, Err(Fault::Refused(UndefKind::Kind))));
    }
    let wide = text(alloc, &mut heap, b"%1000d".as_slice())?;
    let written = formatted(alloc, &heap, wide, &[Cell::Int(1)]);
    assert!(rt; matches!(written, Err(Fault::Refused(UndefKind::Kind))));
    Ok(())
}
