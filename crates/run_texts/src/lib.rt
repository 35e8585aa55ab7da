// The texts of a run: that of its trace, and that of what lives.
#![tactic(auto)]

mod lines;
mod texts;

pub use texts::{live_text, texts_grow, texts_of_runs, trace_text};

#[cfg(test)]
mod tests;
