// How many cells the types of a unit take. The table of the unit is made once; after that no question takes memory or looks at the unit.
#![tactic(auto)]

mod layouts;
#[cfg(test)]
mod tests;

pub use layouts::Layouts;
