//! The nodes of the tree of a C text, made from their tokens and parts as the grammar says.
#![tactic(auto)]

pub mod chains;
pub mod code;
pub mod items;
mod laws;
pub mod names;
pub mod operands;
pub mod operators;
mod role;
mod token;
pub mod types;

pub use laws::types_are_in_rows;
pub use role::{Meaning, Role};
pub use token::{IncludedFile, Terminal, Token};
