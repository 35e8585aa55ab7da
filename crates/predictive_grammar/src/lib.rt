// Grammars as data, and how one token of lookahead reads those that fit.
#![tactic(auto)]

mod laws;

pub use laws::{
    small_texts_are_read_exactly, small_texts_have_one_answer, small_texts_have_one_tree,
};
