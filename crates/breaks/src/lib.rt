//! Which rules of the language the files of a program break, and in which order.
#![tactic(auto)]

mod laws;

pub use laws::{first_is_earliest, one_list_is_broken};
