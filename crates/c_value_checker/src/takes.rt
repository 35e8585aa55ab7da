// What a function takes and gives.

ghost use Rattle.std.specs.Prelude.{◌≡◌, ◌++◌, IfOk, fold};
ghost use Rattle.std.specs.List.{flat_map};
ghost use Rattle.c_tree.specs.Env.{same_takes};
ghost use Rattle.c_tree.specs.Kinds.{same_known, same_list};
ghost use Rattle.c_value_checker.specs.Takes.{base_fed, kind_fed, takes_seen};
ghost use Rattle.c_value_checker.specs.TakesLaws.{takes_equal, takes_equal_in_part, takes_fed};

use crate::kinds::{bits, same};
use c_tree::{Kind, KindBase};
use sqlite_items::{Items, at};
use std::alloc::Global;
use std::hash::{Hash, Hasher};
use vg_base::Memory;

/// What a function takes and gives.
#[derive(Drop)]
pub struct Takes {
    pub result: Option<Kind>,
    pub parameters: Items<Option<Kind>>,
}

// 1. Equality

fn same_known(a: Option<Kind>, b: Option<Kind>) -> bool
    ensures { result ≡ same_known a b }
{
    match (a, b) {
        (Some(a), Some(b)) => same(a, b),
        (None, None) => true,
        _ => false,
    }
}

fn same_list(a: &[Option<Kind>], b: &[Option<Kind>]) -> bool
    ensures { result ≡ same_list a.now b.now }
{
    let mut index = 0;
    for kind in a {
        let Some(other) = at(b, index) else {
            return false;
        };
        if !same_known(*kind, *other) {
            return false;
        }
        index += 1;
    }
    index == b.len()
}

impl PartialEq for Takes {
    ghost eq = { λ x y. same_takes (takes_seen x) (takes_seen y) };

    ghost laws = { takes_equal_in_part };

    fn eq(&self, other: &Takes) -> bool {
        same_known(self.result, other.result)
            && same_list(self.parameters.as_slice(), other.parameters.as_slice())
    }
}

impl Eq for Takes {
    ghost laws = { takes_equal };
}

// 2. Hashes

fn hash_base<H: Hasher>(base: KindBase, state: &mut H)
    ensures { state.new ≡ fold H.write state.old (base_fed base) }
{
    match base {
        KindBase::Void => state.write_u8(1),
        KindBase::Integer(width, signed) => {
            state.write_u8(2);
            state.write_u32(bits(width));
            signed.hash(state);
        }
        KindBase::Struct(number) => {
            state.write_u8(3);
            state.write_u32(number);
        }
        KindBase::Function(number) => {
            state.write_u8(4);
            state.write_u32(number);
        }
    }
}

fn hash_kind<H: Hasher>(kind: Option<Kind>, state: &mut H)
    ensures { state.new ≡ fold H.write state.old (kind_fed kind) }
{
    match kind {
        None => state.write_u8(0),
        Some(kind) => {
            hash_base(kind.base, state);
            state.write_u32(kind.stars);
        }
    }
}

fn hash_kinds<H: Hasher>(kinds: &[Option<Kind>], state: &mut H)
    ensures { state.new ≡ fold H.write state.old (flat_map kind_fed kinds.now) }
{
    for kind in kinds {
        hash_kind(*kind, state);
    }
}

impl Hash for Takes {
    ghost hash_input = { λ x. kind_fed x.result ++ flat_map kind_fed x.parameters };

    ghost respects_eq = { takes_fed };

    fn hash<H: Hasher>(&self, state: &mut H) {
        hash_kind(self.result, state);
        hash_kinds(self.parameters.as_slice(), state);
    }
}

// 3. Copies

/// The same signature once more.
pub fn copy_takes(alloc: Global, takes: &Takes) -> Result<Takes, Memory>
    ensures { IfOk result (λ copy. copy ≡ takes.now) }
{
    match Items::from_slice(alloc, takes.parameters.as_slice()) {
        Err(_) => Err(Memory),
        Ok(parameters) => Ok(Takes {
            result: takes.result,
            parameters,
        }),
    }
}
