// What is declared in the files of a program, and what a name means at a place.
#![tactic(auto)]

mod built_in;
mod declarations;
mod find;
mod kinds;
mod laws;
mod lookup;
mod table;
mod types;

pub use built_in::{BUILT_IN_COUNT, BuiltInSort};
pub use kinds::{Access, Decl, SymbolKind};
pub use laws::{accepted_names_differ, inner_names_stay, names_mean_the_nearest, words_are_split};
pub use table::Names;
