// The grammar of Vala files, as data: for each part of a file its form, which one token of lookahead reads.
#![tactic(auto)]

mod laws;
mod parts;
mod sort;

pub use laws::{texts_are_read_exactly, texts_have_one_tree};
pub use parts::{
    Arguments, Beginning, Bracketed, Branches, Chain, Context, Ended, ForHead, Last, Lead, Listed,
    Opening, Signs, Tested, Tier, TypeName,
};
pub use sort::{Sort, sort_of};
