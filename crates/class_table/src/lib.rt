//! What classes and interfaces are derived from, their virtual members, and the member that a call reaches.
#![tactic(auto)]

mod laws;

pub use laws::{
    accepted_slots_have_bodies, base_classes_end, most_derived_is_reached, slots_are_inherited,
};
