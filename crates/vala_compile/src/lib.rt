// Compiles Vala to C.
#![tactic(auto)]

mod checker;
mod compiler;
mod laws;
mod quoted;
mod read;
mod reader;
mod role;
#[cfg(test)]
mod tests;

pub use checker::check;
pub use compiler::{Emitted, compile};
pub use laws::{breaks_are_determined, one_program};
