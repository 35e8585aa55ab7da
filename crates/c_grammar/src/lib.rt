// The grammar of the C dialect, as data: for each part of a text its form, which one token of lookahead reads.
#![tactic(auto)]

mod laws;

pub use laws::{
    bytes_have_one_answer, fronts_are_completed, items_are_told, levels_are_counted,
    statements_are_told, texts_are_mended, texts_are_read_exactly, texts_have_one_tree,
    tokens_are_one_unit, values_are_told,
};
