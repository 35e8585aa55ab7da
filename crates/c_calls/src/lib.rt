//! What is known of the calls of a unit that was read.
#![tactic(auto)]

mod laws;

pub use laws::units_have_code;
