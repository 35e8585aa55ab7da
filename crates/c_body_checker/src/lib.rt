// The checker of the bodies of functions of C: calls, statements and labels, and the functions of the library.
#![tactic(auto)]

mod bodies;
mod calls;
mod labels;
mod library;
mod statements;

pub use bodies::check_body;
pub use calls::{Argument, check_fit};
pub use library::{LibraryRow, RowParameter, present_rows};
pub use statements::{declare_locals, judge};
