// Values and places of a run.

use c_meaning::Cell;

/// A place of a block. Blocks are counted from 1.
#[derive(Clone, Copy)]
pub struct Place {
    pub block: u64,
    pub at: u64,
}

/// A value: one cell, or the cells of a struct.
#[derive(Drop)]
pub enum Value {
    Scalar(Cell),
    Struct(Vec<Cell>),
}
