// The grammar of whole Vala files, as data: declarations around the parts of vala_grammar, which one token of lookahead reads.
#![tactic(auto)]

mod kind;
mod laws;

pub use kind::{Special, is_c_identifier, letters, same_letters, special_of};
pub use laws::{
    code_is_read_as_before, files_are_read_exactly, files_have_an_answer, files_have_one_answer,
    files_have_one_tree,
};
