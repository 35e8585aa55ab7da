// What a unit of the C dialect means: its blocks and cells, its steps, the functions of the library, and its runs.
#![tactic(auto)]

mod cell;
mod laws;

pub use cell::Cell;
pub use laws::{blocks_are_numbered, freed_blocks_stay, runs_go_on};
