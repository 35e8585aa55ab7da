// The parsers of names, types and expressions on the tokens ahead. What stands one level deeper is asked for through a function value.
#![tactic(auto)]

mod arguments;
mod asks;
mod brackets;
mod chains;
mod choices;
mod expressions;
mod lambdas;
mod lists;
pub mod names;
mod openings;
mod operands;
mod signed;
mod suffixes;
mod tiers;
mod type_tests;

pub use asks::{Ask, Grammar, Reply};
