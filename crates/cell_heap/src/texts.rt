// Texts in blocks: the bytes up to a zero cell.

ghost use Rattle.std.specs.Prelude.{◌≡◌, drop, Ok, IfOk, IfErr};
ghost use Rattle.c_tree.specs.Constants.{modulo};
ghost use Rattle.c_meaning.specs.Texts.{bytes_in};
ghost use Rattle.cell_heap.specs.Texts.{byte_of, text_at, Refuses};

use crate::heap::CellHeap;
use c_meaning::Cell;
use std::alloc::Global;
use vg_base::{Fault, UndefKind};

/// A number modulo 256.
fn low_byte(number: i64) -> u8
    ensures { result ≡ modulo number 256 }
{
    if number >= 0 {
        (number as u64 % 256) as u8
    } else {
        255 - (-(number + 1) as u64 % 256) as u8
    }
}

/// The byte that a cell stands for in a text, or why it stands for none.
fn byte_of(cell: Cell) -> Result<u8, UndefKind>
    ensures { result ≡ byte_of cell }
{
    match cell {
        Cell::Int(number) => Ok(low_byte(number)),
        Cell::Uns(number) => Ok((number % 256) as u8),
        Cell::Null => Ok(0),
        Cell::Unset => Err(UndefKind::Unset),
        _ => Err(UndefKind::Kind),
    }
}

/// The cells from a place on, and none where it is past the end.
fn cells_from(cells: &[Cell], at: u64) -> &[Cell]
    ensures { result.now ≡ drop at cells.now }
{
    match cells.get(at as usize..) {
        Some(rest) => rest,
        None => &[],
    }
}

/// The bytes of cells up to the first that is zero.
fn bytes_in(alloc: Global, cells: &[Cell]) -> Result<Vec<u8>, Fault<UndefKind>>
    ensures read { IfOk result (λ text. bytes_in cells.now ≡ Ok text.items) }
    ensures refused { IfErr result (λ fault. Refuses fault (bytes_in cells.now)) }
{
    let mut text = Vec::new(alloc);
    for cell in cells {
        match byte_of(*cell) {
            Ok(0) => return Ok(text),
            Ok(byte) => {
                if text.push(byte).is_err() {
                    return Err(Fault::Memory);
                }
            }
            Err(kind) => return Err(Fault::Refused(kind)),
        }
    }
    Err(Fault::Refused(UndefKind::Outside))
}

impl CellHeap {
    /// The text at a place of a block: its bytes, or the first use of it that has no meaning.
    pub fn text(&self, alloc: Global, block: u64, at: u64) -> Result<Vec<u8>, Fault<UndefKind>>
        ensures read { IfOk result (λ text. text_at self.now block at ≡ Ok text.items) }
        ensures refused { IfErr result (λ fault. Refuses fault (text_at self.now block at)) }
    {
        let Some(cells) = self.cells(block) else {
            return Err(Fault::Refused(UndefKind::Freed));
        };
        let rest = cells_from(cells.as_slice(), at);
        bytes_in(alloc, rest)
    }
}
