//! The nodes of the tree of a Vala file, made from their parts as the grammar says.
#![tactic(auto)]

pub mod brackets;
pub mod chains;
pub mod lists;
pub mod names;
pub mod operands;
pub mod statements;
