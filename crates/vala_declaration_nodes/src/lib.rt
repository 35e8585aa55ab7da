//! The declarations of the tree of a Vala file, made from their parts as the grammar says.
#![tactic(auto)]

mod accessors;
mod fronts;
mod members;
mod parameters;
mod parts;
mod types;

pub use accessors::{default_value, getter, setter};
pub use fronts::{attribute, attribute_argument, member, modifier};
pub use members::{
    constant, construction, creation, delegate, destructor, field, method, property, signal,
};
pub use parameters::{parameter, parameter_with, signature};
pub use parts::{Closed, Declared, Ending};
pub use types::{
    class, enum_member, enum_member_with, enumeration, error_domain, interface, namespace,
    structure,
};
