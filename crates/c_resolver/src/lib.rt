// The code of units of C: names become places, kinds what the moves need, and labels places of a row of statements.
#![tactic(auto)]

mod blocks;
mod bodies;
mod calls;
mod chains;
mod constants;
mod found;
mod functions;
mod kinds;
mod labels;
mod library;
mod locals;
mod lookups;
mod missing;
mod names;
mod prefixes;
mod scope;
mod statements;
mod suffixes;
mod tables;
mod texts;
mod value_texts;
mod values;

pub use functions::{Fault, initial, routines, tables_of};
pub use scope::Scope;
pub use tables::{Fixed, Literal, Standing, Tables};
pub use texts::literals;
