// The checker of units of C: the first fault that is known of their items.
#![tactic(auto)]

mod items;
mod library_types;
mod signatures;
mod start;
mod tables;
mod types;
mod unit;

pub use signatures::declare_parameters;
pub use start::library;
pub use unit::{check, declared, has_main};
