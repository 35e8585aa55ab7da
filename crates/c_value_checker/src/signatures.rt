// The signatures of a unit.

ghost use Rattle.std.specs.Prelude.{◌≡◌, ◌++◌, [], ◌∷◌, is_some, length, map, OnErr, OnOk};
ghost use Rattle.std.specs.HashMap.{get_by};
ghost use Rattle.c_tree.specs.Env.{same_takes, signature_number};
ghost use Rattle.c_value_checker.specs.Takes.{takes_seen};

use crate::takes::{Takes, copy_takes};
use sqlite_items::Items;
use std::alloc::Global;
use std::collections::HashMap;
use std::hash::{BuildHasherDefault, FoldHasher};
use std::marker::Model;
use vg_base::Memory;

// The number of the first of each signature.
type Index = HashMap<Takes, usize, BuildHasherDefault<FoldHasher>>;

/// Signatures by their numbers, with an index of them.
#[derive(Drop)]
pub struct Signatures {
    rows: Items<Takes>,
    numbers: Index,
}

impl Model for Signatures {
    ghost use Rattle.std.specs.Prelude.{List, map};
    ghost use Rattle.c_value_checker.specs.declared.takes.Takes.{Takes};
    ghost use Rattle.c_value_checker.specs.Signatures.{IsIndexed};
    ghost use Rattle.c_value_checker.specs.Takes.{takes_seen};

    ghost Value = { List Takes };

    ghost view = { λ s. s.rows };

    ghost invariant = { λ s. IsIndexed s.numbers (map takes_seen s.rows) };
}

impl Signatures {
    /// No signatures.
    pub fn new(alloc: Global) -> Signatures
        ensures { result ≡ [] }
    {
        Signatures {
            rows: Items::new(alloc),
            numbers: HashMap::with_hasher(alloc, BuildHasherDefault::new()),
        }
    }

    /// How many signatures there are.
    pub fn len(&self) -> usize
        ensures { result ≡ length self.now }
    {
        self.rows.len()
    }

    /// The signatures by their numbers.
    pub fn as_slice(&self) -> &[Takes]
        ensures { result.now ≡ self.now }
    {
        self.rows.as_slice()
    }

    /// The number of the first signature that equals this one, or the next number.
    pub fn number(&self, takes: &Takes) -> usize
        ensures { result ≡ signature_number 0 (map takes_seen self.now) (takes_seen takes.now) }
    {
        match self.numbers.get(takes) {
            None => self.rows.len(),
            Some(number) => *number,
        }
    }

    /// One more signature.
    pub fn push(&mut self, alloc: Global, takes: Takes) -> Result<(), Memory>
        ensures { OnOk result (self.new ≡ self.old ++ takes ∷ []) }
    {
        let number = self.rows.len();
        if is_indexed(&self.numbers, &takes) {
            push_row(&mut self.rows, takes)?;
            return Ok(());
        }
        let key = copy_takes(alloc, &takes)?;
        push_row(&mut self.rows, takes)?;
        match self.numbers.insert(key, number) {
            Ok(_) => Ok(()),
            Err(_) => {
                self.rows.pop();
                Err(Memory)
            }
        }
    }
}

fn is_indexed(numbers: &Index, takes: &Takes) -> bool
    ensures { result ≡ is_some (get_by (λ k. same_takes (takes_seen takes.now) (takes_seen k)) numbers.now) }
{
    numbers.get(takes).is_some()
}

fn push_row(rows: &mut Items<Takes>, one: Takes) -> Result<(), Memory>
    ensures pushed { OnOk result (rows.new ≡ rows.old ++ one ∷ []) }
    ensures unchanged { OnErr result (rows.new ≡ rows.old) }
{
    match rows.push(one) {
        Ok(()) => Ok(()),
        Err(_) => Err(Memory),
    }
}
