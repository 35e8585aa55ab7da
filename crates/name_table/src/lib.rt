// A table of names for one pass over a program: what each name stands for, in scopes that end.
#![tactic(auto)]

mod entry;
mod found;
mod index;
mod key;
mod table;

pub use found::Found;
pub use table::NameTable;
