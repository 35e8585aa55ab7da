// What is declared, as the checker keeps it.

ghost use Rattle.std.specs.Prelude.{◌≡◌, [], ◌∷◌, map};
ghost use Rattle.c_value_checker.specs.Seen.{seen, takes_seen};

use crate::signatures::Signatures;
use crate::structures::Structures;
use c_tree::Sort;
use name_table::NameTable;
use std::alloc::Global;

/// The names in scope, and the structs and the signatures by their numbers. A name is borrowed from what declares it.
#[derive(Drop)]
pub struct Environment<'n> {
    pub names: NameTable<'n, Sort>,
    /// How many of the names each scope has but the outermost, the innermost scope last.
    pub counts: Vec<usize>,
    pub structs: Structures<'n>,
    pub signatures: Signatures,
}

impl<'n> Environment<'n> {
    /// One scope without names.
    pub fn new(alloc: Global, structs: Structures<'n>, signatures: Signatures) -> Environment<'n>
        ensures { seen result ≡ record { scopes = [] ∷ []; structs = structs.entry; signatures = map takes_seen signatures } }
    {
        Environment {
            names: NameTable::new(alloc),
            counts: Vec::new(alloc),
            structs,
            signatures,
        }
    }
}
