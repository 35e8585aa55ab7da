//! The tokens of a C text as its grammar takes them, the names in scope, and the reader that stops and makes up what is missing.
#![tactic(auto)]

mod cursor;
mod cuts;
mod front;
mod included;
mod includes;
mod library;
mod made;
mod names;
mod no_memory;
mod parser;
mod places;
mod sets;

pub use cursor::Cursor;
pub use names::Names;
pub use no_memory::NoMemory;
pub use parser::Parser;
pub use sets::{Set, can_be_type, is_info, is_main};
