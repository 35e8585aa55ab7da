// What constants come to: the numbers, texts and functions of initialisers, and where computing one would end the run.
#![tactic(auto)]

mod constants;
mod layout;
mod literals;
mod numbers;
mod operands;
mod operators;
mod worth;

pub use constants::worth_of;
pub use numbers::member_value;
pub use worth::{Datum, Worth};
