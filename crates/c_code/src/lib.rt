// The code of units of C as they run: trees in which names are resolved, and what they mean.
#![tactic(auto)]

mod code;
mod laws;
mod program;
mod value;

pub use code::{Alternative, Code, Move, Operation, Sign, Start};
pub use laws::{code_means_the_same, heaps_are_seen, steps_are_steady, steps_are_the_same};
pub use program::{
    Body, Call, Callee, Case, Figure, LibraryFunction, Routine, Sliced, Statement, Taken,
    TypeArgument,
};
pub use value::{Place, Value};
