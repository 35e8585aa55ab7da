// Bytes as cells, and cells as bytes.

ghost use Rattle.std.specs.Prelude.{◌≡◌, ◌++◌, [], ◌∷◌, OnOk};
ghost use Rattle.c_tree.specs.Constants.{modulo, signed};
ghost use Rattle.c_meaning.specs.declared.cell.Cell.TheVariants.{Int};
ghost use Rattle.c_meaning.specs.Texts.{text_cells};
ghost use Rattle.cell_heap.specs.Texts.{byte_of};

use c_meaning::Cell;
use vg_base::{Memory, UndefKind};

/// A number modulo 256.
pub fn low_byte(number: i64) -> u8
    ensures { result ≡ modulo number 256 }
{
    if number >= 0 {
        (number as u64 % 256) as u8
    } else {
        255 - (-(number + 1) as u64 % 256) as u8
    }
}

/// The byte that a cell stands for in a text, or why it stands for none.
pub fn byte_of(cell: Cell) -> Result<u8, UndefKind>
    ensures { result ≡ byte_of cell }
{
    match cell {
        Cell::Int(number) => Ok(low_byte(number)),
        Cell::Uns(number) => Ok((number % 256) as u8),
        Cell::Null => Ok(0),
        Cell::Unset => Err(UndefKind::Unset),
        _ => Err(UndefKind::Kind),
    }
}

// A byte as a number with a sign.
fn byte_cell(byte: u8) -> Cell
    ensures { result ≡ Int (signed 8 byte) }
{
    if byte < 128 {
        Cell::Int(byte as i64)
    } else {
        Cell::Int(byte as i64 - 256)
    }
}

// One more cell stands last.
fn push_cell(cells: &mut Vec<Cell>, cell: Cell) -> Result<(), Memory>
    ensures { OnOk result (cells.new.items ≡ cells.old.items ++ cell ∷ []) }
{
    if cells.push(cell).is_err() {
        Err(Memory)
    } else {
        Ok(())
    }
}

/// Appends the cells of a text: its bytes, and a zero.
pub fn push_text(cells: &mut Vec<Cell>, bytes: &[u8]) -> Result<(), Memory>
    ensures { OnOk result (cells.new.items ≡ cells.old.items ++ text_cells bytes.now) }
{
    for byte in bytes {
        push_cell(cells, byte_cell(*byte))?;
    }
    push_cell(cells, Cell::Int(0))
}
