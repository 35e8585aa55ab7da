//! The parser of whole Vala files, which answers what the grammar of files says.
#![tactic(auto)]

mod accessors;
mod attributes;
mod bodies;
mod classes;
mod code;
mod declarations;
mod enums;
mod fields;
mod files;
mod heads;
mod lists;
mod members;
mod names;
mod next;
mod parameters;
mod parse;
mod places;
mod signals;
mod typed;
mod words;

pub use parse::parse_file;
