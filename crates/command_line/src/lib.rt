// The words of a call: their grammar, and what they ask for.
#![tactic(auto)]

mod asked;
mod choice;
mod given;
mod laws;
mod line;
mod name;
#[cfg(test)]
mod tests;

pub use asked::{Asked, read_words};
pub use choice::{Command, Usage};
pub use laws::words_ask_in_bounds;
