// Evaluates the code of values over the blocks of a run of C.
#![tactic(auto)]

mod arguments;
mod evaluate;
mod looks;
mod moves;
mod numbers;
mod operations;
mod value;

pub use arguments::{cells_of, values_of};
pub use evaluate::{cell_of, place_of, value_of};
pub use looks::{get, pointed};
pub use numbers::{as_kind, converted, is_false, number_of};
pub use value::{copy, scalar};
