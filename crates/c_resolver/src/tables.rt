// Blocks and functions by what names them.

ghost use Rattle.std.specs.Prelude.{◌≡◌};
ghost use Rattle.c_meaning.specs.Code.{program_by, reading};
ghost use Rattle.c_resolver.specs.Names.{names_of};

use c_tree::Unit;
use sqlite_items::Items;

/// A text literal, by where it stands.
#[derive(Drop)]
pub struct Literal {
    pub start: u32,
    pub bytes: Items<u8>,
}

/// The block of the text literal that stands there.
#[derive(Clone, Copy)]
pub struct Standing {
    pub start: u32,
    pub block: u64,
}

/// The block of a static variable.
#[derive(Drop)]
pub struct Fixed {
    pub name: Items<u8>,
    pub block: u64,
}

/// The blocks of the text literals and static variables of a unit, and the names of its functions by their numbers.
#[derive(Drop)]
pub struct Tables<'u> {
    pub unit: &'u Unit,
    pub literals: Items<Standing>,
    pub statics: Items<Fixed>,
    pub routines: Items<Items<u8>>,
    pub ghost numbered: { routines ≡ names_of (program_by reading unit.now).routines },
}
