//! Runs a unit of C step by step, and puts what it prints.
#![tactic(auto)]

mod course;
mod laws;
mod machine;
mod opening;
mod run;

pub use laws::{counts_each_step, prints_grow};
pub use machine::{Machine, Stepped, load};
pub use run::{RunEnd, RunFault};
