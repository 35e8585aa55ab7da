// The blocks of cells that a run of C makes and frees, by their numbers.
#![tactic(auto)]

mod block;
mod fault;
mod heap;
mod laws;
mod runs;
mod texts;

pub use fault::HeapFault;
pub use heap::CellHeap;
pub use laws::{
    blocks_are_added, blocks_are_found, blocks_are_freed, blocks_are_made, cells_are_found,
    cells_are_stored, freed_blocks_stay, runs_are_found, runs_are_stored, texts_are_read,
};
