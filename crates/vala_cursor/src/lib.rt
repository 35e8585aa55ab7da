// The tokens of a file with the next one at hand, and why a part could not be read: what every parser is made of.
#![tactic(auto)]

mod cursor;
mod faults;
mod stop;

pub use cursor::{Cursor, is_one_of, same_sort};
pub use stop::{Flaw, Stop};
