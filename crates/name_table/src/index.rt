// The position of the latest entry of each name.

ghost use Rattle.std.specs.Prelude.{◌≡◌, ℕ, List, Option, Some, IsSome, IfOk, OnErr, if◌then◌else◌};
ghost use Rattle.std.specs.Str.{bytes_eq};
ghost use Rattle.std.specs.HashMap.{get_by};

use crate::key::Key;
use std::collections::HashMap;
use std::hash::{BuildHasherDefault, FoldHasher};
use vg_base::Memory;

/// The position of the latest entry of each name. The hash is the library's fast one, with a known seed.
pub type Index<'n> = HashMap<Key<'n>, usize, BuildHasherDefault<FoldHasher>>;

/// The entry at `position` is the latest of its name now: the one that it hides, if any.
pub fn cover<'n>(
    index: &mut Index<'n>,
    name: &'n [u8],
    position: usize,
) -> Result<Option<usize>, Memory>
    ensures hidden { IfOk result (λ h. h ≡ get_by (λ k. bytes_eq name.now k.name.now) index.old) }
    ensures put { IfOk result (λ _. (other : List ℕ) → get_by (λ k. bytes_eq other k.name.now) index.new ≡ (if bytes_eq name.now other then Some position else get_by (λ k. bytes_eq other k.name.now) index.old)) }
    ensures err { OnErr result ((other : List ℕ) → get_by (λ k. bytes_eq other k.name.now) index.new ≡ get_by (λ k. bytes_eq other k.name.now) index.old) }
{
    match index.insert(Key { name }, position) {
        Ok(hidden) => Ok(hidden),
        Err(_) => Err(Memory),
    }
}

/// The latest entry of a name goes, and the one that it hid, if any, is the latest again.
pub fn uncover<'n>(index: &mut Index<'n>, name: &'n [u8], hidden: Option<usize>)
    requires { IsSome (get_by (λ k. bytes_eq name.now k.name.now) index.old) }
    ensures { (other : List ℕ) → get_by (λ k. bytes_eq other k.name.now) index.new ≡ (if bytes_eq name.now other then hidden else get_by (λ k. bytes_eq other k.name.now) index.old) }
{
    let Some(position) = hidden else {
        index.remove(&Key { name });
        return;
    };
    if let Some(latest) = index.get_mut(&Key { name }) {
        *latest = position;
    }
}
