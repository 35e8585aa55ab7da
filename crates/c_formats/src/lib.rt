// Formats: what they are made of, which arguments they take, and what they write.
#![tactic(auto)]

mod arguments;
mod done;
mod filling;
mod modes;
mod numbers;
mod pieces;
mod reader;
#[cfg(test)]
mod tests;
mod writing;

pub use writing::formatted;
