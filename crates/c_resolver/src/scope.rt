// What a statement sees.

ghost use Rattle.std.specs.Prelude.{◌≡◌, []};

use c_value_checker::Environment;
use name_table::NameTable;
use std::alloc::Global;

/// What is declared, and the places of a function's variables in a frame.
#[derive(Drop)]
pub struct Scope<'n> {
    pub environment: Environment<'n>,
    pub variables: NameTable<'n, u64>,
}

impl<'n> Scope<'n> {
    /// A scope without variables of a function.
    pub fn new(alloc: Global, environment: Environment<'n>) -> Scope<'n>
        ensures { result ≡ record { environment = environment.entry; variables = [] } }
    {
        Scope {
            environment,
            variables: NameTable::new(alloc),
        }
    }
}
