// The names in scope.

ghost use Rattle.std.specs.Prelude.{◌≡◌, ◌-◌, ◌≤◌, ◌∷◌, length, drop, OnOk, OnErr, IfOk};
ghost use Rattle.c_tree.specs.Names as names;
ghost use Rattle.c_nodes.specs.Roles.{role_of};
ghost use Rattle.c_cursor.specs.Scopes.{declared, names_of};

use crate::library::LIBRARY;
use crate::no_memory::NoMemory;
use c_nodes::Role;
use name_table::NameTable;
use std::alloc::Global;

/// A name, and what it is.
#[derive(Clone, Copy)]
pub struct Declared<'t> {
    pub name: &'t [u8],
    pub role: Role,
}

/// The names in scope: the last that was declared counts.
#[derive(Drop)]
pub struct Names<'t> {
    table: NameTable<'t, Role>,
}

impl<'t> Names<'t> {
    /// The names of the library.
    pub fn new(alloc: Global) -> Result<Names<'t>, NoMemory>
        ensures { IfOk result (λ n. names_of n ≡ names.library_names) }
    {
        let mut names = Names {
            table: NameTable::new(alloc),
        };
        for declared in LIBRARY.iter() {
            names.declare(declared.name, declared.role)?;
        }
        Ok(names)
    }

    /// A name is this from now on.
    pub fn declare(&mut self, name: &'t [u8], role: Role) -> Result<(), NoMemory>
        ensures { OnOk result (names_of self.new ≡ declared (name.now, role) ∷ names_of self.old) }
    {
        self.table.push(name, role)?;
        Ok(())
    }

    /// What a name is.
    #[tactic(auto, using(crate::proofs::RoleLaws::role_laws))]
    pub fn role(&self, name: &[u8]) -> Role
        ensures { role_of result ≡ names.role_of (names_of self.now) name.now }
    {
        match self.table.find(name) {
            Some(found) => found.meaning,
            None => Role::Unknown,
        }
    }

    /// How many names there are.
    #[tactic(auto, using(crate::proofs::RoleLaws::role_laws))]
    pub fn len(&self) -> usize
        ensures { result ≡ length (names_of self.now) }
    {
        self.table.length()
    }

    #[tactic(auto, using(crate::proofs::RoleLaws::role_laws))]
    /// Drops the last ones until so many are left: a scope ends.
    pub fn truncate(&mut self, len: usize)
        ensures { names_of self.new ≡ drop (length (names_of self.old) - len) (names_of self.old) }
    {
        self.table.truncate(len);
    }
}
