//! The reader of a C text: a tree for every text, and where the text stops being one of the dialect.
#![tactic(auto)]

mod asks;
mod bodies;
mod calls;
mod declarations;
mod items;
mod operands;
mod parameters;
mod prefixes;
mod reader;
mod statements;
mod statics;
mod suffixes;
mod typedefs;
mod types;
mod unit;
mod values;

pub use c_cursor::NoMemory;
pub use unit::{Parsed, Stop, parse};
