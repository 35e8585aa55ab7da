//! Where the parts of a unit that was read stand: text literals, and the locals of a body, have places of their own.
#![tactic(auto)]

mod laws;

pub use laws::{locals_stand_apart, texts_stand_apart};
