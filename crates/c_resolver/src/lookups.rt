// What names stand for.

ghost use Rattle.std.specs.Prelude.{◌≡◌, [], map};
ghost use Rattle.c_meaning.specs.Values as meaning;
ghost use Rattle.c_code.specs.Resolved as spec;
ghost use Rattle.c_resolver.specs.Shown.{fixed_seen, named_alone, standing_seen, tables_seen};

use crate::tables::{Fixed, Standing, Tables};
use c_code::{Code, Start};
use c_meaning::Cell;
use sqlite_items::Items;
use std::alloc::Global;

/// Code without moves.
pub fn code(alloc: Global, start: Start) -> Code
    ensures { result ≡ spec.code start [] }
{
    Code {
        start,
        moves: Items::new(alloc),
    }
}

/// The code of what has no meaning.
pub fn nothing(alloc: Global) -> Code
    ensures { result ≡ spec.nothing }
{
    code(alloc, Start::Nothing)
}

/// The code of a cell that is known.
pub fn cell(alloc: Global, known: Cell) -> Code
    ensures { result ≡ spec.cell known }
{
    code(alloc, Start::Cell(known))
}

/// The first place of a static variable.
pub fn static_place(alloc: Global, statics: &[Fixed], name: &[u8]) -> Code
    ensures { result ≡ spec.static_start (meaning.static_in (map fixed_seen statics.now) name.now) }
{
    for fixed in statics {
        if fixed.name.as_slice() == name {
            return code(alloc, Start::Block(fixed.block));
        }
    }
    nothing(alloc)
}

/// The pointer to a text literal.
pub fn literal_cell(alloc: Global, literals: &[Standing], start: u32) -> Code
    ensures { result ≡ spec.cell_if (meaning.literal_in (map standing_seen literals.now) start) }
{
    for literal in literals {
        if literal.start == start {
            return cell(
                alloc,
                Cell::Ptr {
                    block: literal.block,
                    at: 0,
                },
            );
        }
    }
    nothing(alloc)
}

// The cell of a function among others.
fn routine_among(alloc: Global, routines: &[Items<u8>], name: &[u8]) -> Code
    ensures { result ≡ spec.cell_if (meaning.routine_in 0 (map named_alone routines.now) name.now) }
{
    for number in 0..routines.len() {
        if routines[number].as_slice() == name {
            return cell(alloc, Cell::Func(number as u64));
        }
    }
    nothing(alloc)
}

/// The cell of a function.
pub fn routine_cell(alloc: Global, tables: &Tables, name: &[u8]) -> Code
    ensures { result ≡ spec.cell_if (meaning.routine_in 0 (tables_seen tables.now).routines name.now) }
{
    routine_among(alloc, tables.routines.as_slice(), name)
}
