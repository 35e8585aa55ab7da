// Readers that always give a tree: at the first token that cannot stand they stop, and make up what is missing.
#![tactic(auto)]

mod laws;

pub use laws::small_texts_are_mended;
