// The checker of the values of C: what kinds give, and the kinds and faults of values.
#![tactic(auto)]

mod environment;
mod faults;
mod fields;
mod judged;
mod kinds;
mod layout;
mod operations;
mod outcome;
mod prefixes;
mod scopes;
mod signatures;
mod singles;
mod structures;
mod takes;
mod values;

pub use environment::Environment;
pub use faults::{Findings, is_before, keep};
pub use judged::{Judged, Literal};
pub use kinds::{
    GPOINTER, INT, LONG, TEXT, UINT, ULONG, VOID, applied, casts, choose, common, fits,
    is_argument, is_function, is_integer, is_pointer, is_pointer_or_function, is_scalar, is_struct,
    is_void, level_of, same, widened,
};
pub use layout::target;
pub use operations::{chosen, joined, operand_if};
pub use prefixes::prefixed;
pub use signatures::Signatures;
pub use structures::{Field, Structure, Structures};
pub use takes::Takes;
pub use values::{check_value, judge, kind_of_value};
