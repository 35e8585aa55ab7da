//! A text of C that is printed from a unit is read as that unit.
#![tactic(auto)]

mod laws;

pub use laws::printed_texts_are_read;
