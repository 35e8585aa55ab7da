// Cells as numbers.

ghost use Rattle.std.specs.Prelude.{◌≡◌, ◌<◌, ◌^◌};
ghost use Rattle.c_tree.specs.Constants.{modulo, signed};
ghost use Rattle.c_tree.specs.Kinds.{int, uint};
ghost use Rattle.c_meaning.specs.Numbers.{as_kind, number_of, truth};

use c_meaning::Cell;
use vg_base::UndefKind;

// A number modulo 2 ^ 32.
fn low_word(number: i64) -> u64
    ensures { result ≡ modulo number (2 ^ 32) }
{
    if number >= 0 {
        number as u64 % (1 << 32)
    } else {
        (1 << 32) - 1 - -(number + 1) as u64 % (1 << 32)
    }
}

// The number with a sign that has these bits.
fn signed_word(number: u64) -> i64
    requires { number < 2 ^ 32 }
    ensures { result ≡ signed 32 number }
{
    if number < 1 << 31 {
        number as i64
    } else {
        number as i64 - (1 << 32)
    }
}

/// A cell as a number of 32 bits without a sign.
pub fn as_uint(cell: Cell) -> Result<Cell, UndefKind>
    ensures { result ≡ as_kind uint cell }
{
    match cell {
        Cell::Int(number) => Ok(Cell::Uns(low_word(number))),
        Cell::Uns(number) => Ok(Cell::Uns(number % (1 << 32))),
        Cell::Null => Ok(Cell::Uns(0)),
        Cell::Unset => Err(UndefKind::Unset),
        _ => Err(UndefKind::Kind),
    }
}

/// A cell as a number of 32 bits with a sign.
pub fn as_int(cell: Cell) -> Result<Cell, UndefKind>
    ensures { result ≡ as_kind int cell }
{
    match cell {
        Cell::Int(number) => Ok(Cell::Int(signed_word(low_word(number)))),
        Cell::Uns(number) => Ok(Cell::Int(signed_word(number % (1 << 32)))),
        Cell::Null => Ok(Cell::Int(0)),
        Cell::Unset => Err(UndefKind::Unset),
        _ => Err(UndefKind::Kind),
    }
}

/// The number in a cell: null is 0.
pub fn number_of(cell: Cell) -> Result<i128, UndefKind>
    ensures { result ≡ number_of cell }
{
    match cell {
        Cell::Int(number) => Ok(number as i128),
        Cell::Uns(number) => Ok(number as i128),
        Cell::Null => Ok(0),
        Cell::Unset => Err(UndefKind::Unset),
        _ => Err(UndefKind::Kind),
    }
}

/// A truth as a number.
pub fn truth(holds: bool) -> Cell
    ensures { result ≡ truth holds }
{
    if holds { Cell::Int(1) } else { Cell::Int(0) }
}
