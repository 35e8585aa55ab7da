//! Copies of trees: a tree that is equal to another and shares nothing with it.
#![tactic(auto)]

mod code;
mod member;
mod names;

pub use member::clone_in;
