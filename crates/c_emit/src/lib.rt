//! The C of a program that prints, and that it runs as the program does.
#![tactic(auto)]

mod laws;
mod program;
#[cfg(test)]
mod tests;
mod tree;

pub use laws::{emitted_units_run, emitted_units_stay_within, programs_are_quiet};
pub use program::emit;
