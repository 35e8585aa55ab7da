// A name as a key of the index.

ghost use Rattle.std.specs.Prelude.{[], ◌∷◌};
ghost use Rattle.std.specs.Str.{bytes_eq};
ghost use Rattle.std.specs.Cmp.Rules.{comparing, hashing};
ghost use Rattle.std.proofs.Common.{rules};

use std::hash::{Hash, Hasher};

/// A name, whose bytes are given to the hasher at once, where a slice gives them one by one.
#[derive(Clone, Copy)]
pub struct Key<'n> {
    pub name: &'n [u8],
}

impl<'n> PartialEq for Key<'n> {
    ghost eq = { λ x y. bytes_eq x.name.now y.name.now };

    ghost laws = { Prim.search (comparing, rules) };

    fn eq(&self, other: &Key<'n>) -> bool {
        self.name == other.name
    }
}

impl<'n> Eq for Key<'n> {
    ghost laws = { Prim.search (comparing, rules) };
}

impl<'n> Hash for Key<'n> {
    ghost hash_input = { λ x. x.name.now ∷ [] };

    ghost respects_eq = { Prim.search (hashing, rules) };

    fn hash<H: Hasher>(&self, state: &mut H) {
        state.write(self.name);
    }
}
