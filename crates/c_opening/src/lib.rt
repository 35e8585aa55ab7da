//! The state before the first step: the text literals, the static variables and the library's types have blocks, and `main` is to be entered.
#![tactic(auto)]

mod entry;
mod literals;
mod opening;
mod statics;

pub use opening::{Opened, open};
