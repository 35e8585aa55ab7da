// The state of a run of C, and each change of it.
#![tactic(auto)]

mod answers;
mod blocks;
mod books;
mod frames;
mod lists;
mod rows;
mod state;
#[cfg(test)]
mod tests;
mod values;

pub use state::{Frame, Run, Standing, Work};
