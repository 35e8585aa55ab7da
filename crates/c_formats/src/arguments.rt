// Which arguments fit.

ghost use Rattle.std.specs.Prelude.{◌≡◌, map};
ghost use Rattle.c_meaning.specs.Formats.{fits_signed, fits_unsigned, match_all, takes};
ghost use Rattle.c_formats.specs.Seen.{seen_conversion, seen_piece};

use crate::pieces::{Conversion, Piece};
use c_meaning::Cell;

fn fits_signed(is_long: bool, number: i64) -> bool
    ensures { result ≡ fits_signed is_long number }
{
    is_long || (number >= -(1 << 31) && number < 1 << 31)
}

fn fits_unsigned(is_long: bool, number: u64) -> bool
    ensures { result ≡ fits_unsigned is_long number }
{
    is_long || number < 1 << 32
}

// Whether a directive takes a cell.
fn takes(conversion: Conversion, cell: Cell) -> bool
    ensures { result ≡ takes (seen_conversion conversion) cell }
{
    match (conversion, cell) {
        (Conversion::Signed { is_long }, Cell::Int(number)) => fits_signed(is_long, number),
        (Conversion::Unsigned { is_long }, Cell::Uns(number)) => fits_unsigned(is_long, number),
        (Conversion::Hexadecimal { is_long, .. }, Cell::Uns(number)) => fits_unsigned(
            is_long, number,
        ),
        (Conversion::Character, Cell::Int(_)) => true,
        (Conversion::Text, Cell::Ptr { .. } | Cell::Null) => true,
        _ => false,
    }
}

/// Whether there is one fitting argument for each directive, in order.
pub fn match_all(pieces: &[Piece], cells: &[Cell]) -> bool
    ensures { result ≡ match_all (map seen_piece pieces.now) cells.now }
{
    let mut next = 0;
    for piece in pieces {
        if let Piece::Written(directive) = piece {
            let Some(cell) = cells.get(next) else {
                return false;
            };
            if !takes(directive.conversion, *cell) {
                return false;
            }
            next += 1;
        }
    }
    next == cells.len()
}
