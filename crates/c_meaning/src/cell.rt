// What a block is made of.

/// A cell: a number of a type with a sign or without one, a pointer to a place of a block, a function by its number,
/// null, or nothing that was stored yet.
#[derive(Clone, Copy)]
pub enum Cell {
    Int(i64),
    Uns(u64),
    Ptr { block: u64, at: u64 },
    Func(u64),
    Null,
    Unset,
}
