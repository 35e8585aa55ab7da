// Numbers of a kind of C, and the operators on two of them.
#![tactic(auto)]

mod kinds;
mod numbers;

pub use kinds::{common, is_integer, is_struct, widened};
pub use numbers::{NumberWorth, combine_numbers, complement, modulo, negated, result, truth, wrap};
