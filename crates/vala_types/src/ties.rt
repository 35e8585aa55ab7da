// The classes and interfaces, and what they are derived from.

ghost use Rattle.std.specs.Prelude.{◌≡◌, ◌≤◌, length, true};
ghost use Rattle.vala_types.specs.Tests.{has_base as leads};
ghost use Rattle.vala_types.specs.Ties.{HasBase, bases_of};

use crate::walk::Found;
use std::marker::Model;

/// How many rows of bases there can be. A program declares at most 100,000 symbols; the rest is for the built-in ones.
pub const MOST_ROWS: usize = 131_072;

/// How far the first bases are followed before the walk. It is a constant, since a circle of them has no end.
const NEAR_STEPS: u32 = 32;

/// The numbers of the direct bases of one class or interface: the base class and the listed interfaces.
#[derive(Debug, Drop)]
pub struct Bases {
    pub list: Vec<u32>,
}

impl Model for Bases {
    ghost use Rattle.std.specs.Prelude.{List, ℕ};

    ghost Value = { List ℕ };

    ghost view = { λ b. b.list.items };
}

/// The direct bases by number, `MOST_ROWS` rows at most.
#[derive(Debug, Drop)]
pub struct Rows {
    pub list: Vec<Bases>,
}

impl Model for Rows {
    ghost use Rattle.std.specs.Prelude.{List, ℕ, ◌≤◌, length};

    ghost Value = { List (List ℕ) };

    ghost view = { λ r. r.list.items };

    ghost invariant = { λ r. length r.list.items ≤ 131072 };
}

impl Rows {
    /// How many rows there are.
    pub fn count(&self) -> usize
        ensures exact { result ≡ length self.now }
        ensures bounded { result ≤ MOST_ROWS }
    {
        self.list.len()
    }
}

/// The direct bases of all classes and interfaces, which share one numbering.
#[derive(Debug, Drop)]
pub struct Ties {
    /// The number of the class `Object`.
    pub object: u32,
    /// The row `n` lists the direct bases of the class or interface `n`. A number without a row has none.
    pub rows: Rows,
}

impl Ties {
    pub(crate) fn bases_of(&self, number: u32) -> &[u32]
        ensures { result.now ≡ bases_of self.now number }
    {
        match self.rows.list.get(number as usize) {
            Some(bases) => &bases.list,
            None => &[],
        }
    }

    /// Whether the base is found along the first bases, a few steps far. That is the common case, and needs no table.
    fn is_near(&self, number: u32, base: u32) -> bool
        ensures { result ≡ true → HasBase self.now number base }
    {
        let mut at = number;
        for _ in 0..NEAR_STEPS {
            let bases = self.bases_of(at);
            if bases.contains(&base) {
                return true;
            }
            let Some((first, _others)) = bases.split_first() else {
                return false;
            };
            at = *first;
        }
        false
    }

    /// Whether a chain of direct bases leads from one number to the other. The walk looks at each number on the way once.
    fn is_reached(&self, number: u32, base: u32) -> bool
        ensures { result ≡ leads self.now number base }
    {
        if number as usize >= self.rows.count() {
            return false;
        }
        let mut found = Found::new();
        found.add(number);
        for at in 0..MOST_ROWS {
            if at >= found.list.len() {
                return false;
            }
            let bases = self.bases_of(found.list[at]);
            if bases.contains(&base) {
                return true;
            }
            found.add_all(bases);
        }
        false
    }

    /// Whether the one is a base of the other at any depth.
    pub(crate) fn has_base(&self, number: u32, base: u32) -> bool
        ensures { result ≡ leads self.now number base }
    {
        self.is_near(number, base) || self.is_reached(number, base)
    }
}
