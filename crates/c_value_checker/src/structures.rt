// The structs of a unit.

ghost use Rattle.std.specs.Prelude.{◌≡◌, ◌++◌, [], ◌∷◌, length, map, MatchOption, None, Some, OnErr, OnOk};
ghost use Rattle.c_tree.specs.Env.{structure_at, structure_named};
ghost use Rattle.c_tree.specs.Unit.{with_fields};
ghost use Rattle.c_value_checker.specs.Structures.{field_seen, structure_seen};

use c_tree::Kind;
use name_table::NameTable;
use sqlite_items::Items;
use std::alloc::Global;
use std::marker::Model;
use vg_base::Memory;

#[derive(Drop)]
pub struct Field {
    pub name: Items<u8>,
    /// It has none where its type is undeclared.
    pub kind: Option<Kind>,
}

/// A struct. It has fields where it is defined.
#[derive(Drop)]
pub struct Structure<'n> {
    pub name: &'n [u8],
    pub fields: Option<Items<Field>>,
    pub cells: u64,
}

/// Structs by their numbers, with an index of their names.
#[derive(Drop)]
pub struct Structures<'n> {
    rows: Items<Structure<'n>>,
    /// The number of the first struct with each name.
    numbers: NameTable<'n, usize>,
}

impl<'n> Model for Structures<'n> {
    ghost use Rattle.std.specs.Prelude.{List, map};
    ghost use Rattle.c_tree.specs.Library.{Structure};
    ghost use Rattle.c_value_checker.specs.Structures.{IsNumbered, structure_seen};

    ghost Value = { List Structure };

    ghost view = { λ s. map structure_seen s.rows };

    ghost invariant = { λ s. IsNumbered s.numbers (map structure_seen s.rows) };
}

impl<'n> Structures<'n> {
    /// No structs.
    pub fn new(alloc: Global) -> Structures<'n>
        ensures { result ≡ [] }
    {
        Structures {
            rows: Items::new(alloc),
            numbers: NameTable::new(alloc),
        }
    }

    /// How many structs there are.
    pub fn len(&self) -> usize
        ensures { result ≡ length self.now }
    {
        self.rows.len()
    }

    /// The struct with a number.
    #[tactic(auto, using(crate::proofs::StructLemmas::structure_number))]
    pub fn get(&self, number: u32) -> Option<&Structure<'n>>
        ensures { MatchOption result (structure_at self.now number ≡ None) (λ found. structure_at self.now number ≡ Some (structure_seen found.now)) }
    {
        self.rows.get(number as usize)
    }

    /// The number of the first struct with a name.
    pub fn number(&self, name: &[u8]) -> Option<usize>
        ensures { result ≡ structure_named 0 self.now name.now }
    {
        match self.numbers.find(name) {
            None => None,
            Some(found) => Some(found.meaning),
        }
    }

    /// One more struct.
    pub fn push(&mut self, structure: Structure<'n>) -> Result<(), Memory>
        ensures { OnOk result (self.new ≡ self.old ++ structure_seen structure.entry ∷ []) }
    {
        let name = structure.name;
        let number = self.rows.len();
        if self.numbers.find(name).is_some() {
            push_row(&mut self.rows, structure)?;
            return Ok(());
        }
        let count = self.numbers.length();
        self.numbers.push(name, number)?;
        match push_row(&mut self.rows, structure) {
            Ok(()) => Ok(()),
            Err(Memory) => {
                self.numbers.truncate(count);
                Err(Memory)
            }
        }
    }

    /// The struct with a number gets fields and cells.
    pub fn define(&mut self, number: usize, fields: Items<Field>, cells: u64)
        ensures { self.new ≡ with_fields self.old number (map field_seen fields) cells }
    {
        let Some(structure) = self.rows.get(number) else {
            return;
        };
        let name = structure.name;
        self.rows.set(
            number,
            Structure {
                name,
                fields: Some(fields),
                cells,
            },
        );
    }
}

fn push_row<'n>(rows: &mut Items<Structure<'n>>, one: Structure<'n>) -> Result<(), Memory>
    ensures pushed { OnOk result (rows.new ≡ rows.old ++ one.entry ∷ []) }
    ensures unchanged { OnErr result (rows.new ≡ rows.old) }
{
    match rows.push(one) {
        Ok(()) => Ok(()),
        Err(_) => Err(Memory),
    }
}
