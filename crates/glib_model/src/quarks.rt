// The texts that were made quarks.

ghost use Rattle.std.specs.Prelude.{◌≡◌, ◌++◌, ◌^◌, ◌%◌, [], ◌∷◌, IfOk, OnOk};
ghost use Rattle.c_meaning.specs.BlockRows.{quark_in, with_quark};

use std::alloc::Global;
use std::marker::Model;
use vg_base::Memory;

/// The texts given so far, in the order of their first use.
#[derive(Drop)]
pub struct Quarks {
    texts: Vec<Vec<u8>>,
}

impl Model for Quarks {
    ghost use Rattle.std.specs.Prelude.{List, map, ℕ};

    ghost Value = { List (List ℕ) };

    ghost view = { λ quarks. map (λ text. text.items) quarks.texts.items };
}

// One more text stands last.
fn push_text(texts: &mut Vec<Vec<u8>>, text: Vec<u8>) -> Result<(), Memory>
    ensures { OnOk result (texts.new.items ≡ texts.old.items ++ text ∷ []) }
{
    if texts.push(text).is_err() {
        Err(Memory)
    } else {
        Ok(())
    }
}

impl Quarks {
    /// No texts.
    pub fn new(alloc: Global) -> Quarks
        ensures { result ≡ [] }
    {
        Quarks {
            texts: Vec::new(alloc),
        }
    }

    // The place of a text, counted from 1, which is behind all others where it is new.
    fn place(&self, text: &[u8]) -> u64
        ensures { result ≡ quark_in 1 self.now text.now }
    {
        for (at, quark) in self.texts.iter().enumerate() {
            if quark.as_slice() == text {
                return at as u64 + 1;
            }
        }
        self.texts.len() as u64 + 1
    }

    /// Adds a text, if it is new, and says its place, counted from 1 and modulo 2 ^ 32.
    pub fn add(&mut self, text: Vec<u8>) -> Result<u64, Memory>
        ensures place { IfOk result (λ place. place ≡ quark_in 1 self.old text.items % 2 ^ 32) }
        ensures added { OnOk result (self.new ≡ with_quark self.old text.items) }
    {
        let place = self.place(text.as_slice());
        if place <= self.texts.len() as u64 {
            return Ok(place % (1 << 32));
        }
        push_text(&mut self.texts, text)?;
        Ok(place % (1 << 32))
    }
}
