// The types of the language, which values go into which places, and what happens to the ownership of a value on the way.
#![tactic(auto)]

mod fitting;
mod laws;
mod owners;
mod ties;
mod types;
mod walk;

pub use fitting::fits;
pub use laws::{
    bases_are_found, copies_are_things, each_type_fits_itself, fits_do_not_always_go_on,
    fits_go_on, nothing_else_fits, one_answer, one_change, owners_are_right,
};
pub use owners::{Change, owner_change};
pub use ties::{Bases, MOST_ROWS, Rows, Ties};
pub use types::{IntKind, Item, ItemShape, Shape, VType};
