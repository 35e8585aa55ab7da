// The table.

ghost use Rattle.std.specs.Prelude.{◌≡◌, [], ◌∷◌, length, drop, OnOk, OnErr};
ghost use Rattle.name_table.specs.Names.{latest, oldest, changed};

use crate::entry::Entry;
use crate::found::Found;
use crate::index::{Index, cover, uncover};
use crate::key::Key;
use std::alloc::Global;
use std::collections::HashMap;
use std::hash::BuildHasherDefault;
use std::marker::Model;
use vg_base::Memory;

/// Names with what they stand for, the latest first where a clause speaks of them. A name is borrowed from the text.
#[derive(Drop)]
pub struct NameTable<'n, T> {
    entries: Vec<Entry<'n, T>>,
    index: Index<'n>,
}

impl<'n, T> Model for NameTable<'n, T> {
    ghost use Rattle.std.specs.Prelude.{List, ℕ, reverse};

    ghost Value = { List (List ℕ × T) };

    ghost use Rattle.name_table.specs.Index.{listed, IsLinked, IsIndexed};

    ghost view = { λ t. listed t.entries.items };

    ghost invariant = { λ t. IsLinked (reverse t.entries.items) × IsIndexed t.index (listed t.entries.items) };
}

impl<'n, T: Copy> NameTable<'n, T> {
    /// A table with no names.
    pub fn new(alloc: Global) -> NameTable<'n, T>
        ensures { result ≡ [] }
    {
        NameTable {
            entries: Vec::new(alloc),
            index: HashMap::with_hasher(alloc, BuildHasherDefault::new()),
        }
    }

    /// How many entries there are.
    pub fn length(&self) -> usize
        ensures { result ≡ length self.now }
    {
        self.entries.len()
    }

    /// A name stands for something from now on, until its entry is dropped.
    pub fn push(&mut self, name: &'n [u8], meaning: T) -> Result<(), Memory>
        ensures pushed { OnOk result (self.new ≡ (name.now, meaning) ∷ self.old) }
        ensures unchanged { OnErr result (self.new ≡ self.old) }
    {
        let hidden = cover(&mut self.index, name, self.entries.len())?;
        let entry = Entry {
            name,
            meaning,
            hidden,
        };
        match self.entries.push(entry) {
            Ok(()) => Ok(()),
            Err(_) => {
                uncover(&mut self.index, name, hidden);
                Err(Memory)
            }
        }
    }

    /// What a name stands for now, and how many entries are older than the one that says so.
    pub fn find(&self, name: &[u8]) -> Option<Found<T>>
        ensures { result ≡ latest name.now self.now }
    {
        let position = *self.index.get(&Key { name })?;
        let entry = self.entries.get(position)?;
        Some(Found {
            meaning: entry.meaning,
            position,
        })
    }

    // Drops the latest entry.
    fn pop(&mut self)
        ensures { self.new ≡ drop 1 self.old }
    {
        if let Some(entry) = self.entries.pop() {
            uncover(&mut self.index, entry.name, entry.hidden);
        }
    }

    /// Drops the latest entries until no more than `length` are left.
    pub fn truncate(&mut self, length: usize)
        ensures { self.new ≡ oldest length self.old }
    {
        for _ in length..self.length() {
            self.pop();
        }
    }

    /// The entry that has `position` older ones stands for `meaning` from now on.
    pub fn set(&mut self, position: usize, meaning: T)
        ensures { self.new ≡ changed position meaning self.old }
    {
        let Some(entry) = self.entries.get_mut(position) else {
            return;
        };
        entry.meaning = meaning;
    }
}
