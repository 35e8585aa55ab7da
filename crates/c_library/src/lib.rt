// The functions of the library, called on a run of C: each does to it what its row of the meaning says.
#![tactic(auto)]

mod calls;
mod outside;
mod rows;
#[cfg(test)]
mod tests;

pub use calls::call;
