//! Reads a text of the C dialect: its unit, or the first refusal.
#![tactic(auto)]

mod laws;
mod reader;

pub use laws::{faults_are_known, tokens_are_in_order};
pub use reader::read;
