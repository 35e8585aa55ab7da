//! Runs units of C: each step is a step of what the unit means.
#![tactic(auto)]

mod calls;
mod entries;
mod keeping;
mod laws;
mod perform;
mod refusals;
mod steps;
#[cfg(test)]
mod tests;

pub use laws::code_is_sized;
pub use steps::make_step;
