// The layouts of a unit.

ghost use Rattle.std.specs.Prelude.{◌≡◌, ◌<◌, ◌^◌, true, IfOk};
ghost use Rattle.c_tree.specs.Env.{base_kind as kind_of_base};
ghost use Rattle.c_meaning.specs.Layout.{cells, is_laid_out};
ghost use Rattle.c_value_checker.specs.Seen.{seen};

use c_checker::declared;
use c_tree::{Base, CType, Kind, KindBase, Sort, Unit, Width};
use c_value_checker::Environment;
use std::alloc::Global;
use std::marker::Model;
use vg_base::Memory;

/// What the types of a unit mean at its end.
#[derive(Drop)]
pub struct Layouts<'u> {
    unit: &'u Unit,
    environment: Environment<'u>,
}

impl<'u> Model for Layouts<'u> {
    ghost use Rattle.std.specs.Prelude.{◌≡◌};
    ghost use Rattle.std.specs.Coded.{codes};
    ghost use Rattle.c_tree.specs.contracts.unit.Unit as tree;
    ghost use Rattle.c_tree.specs.declared.unit.Unit.{Unit as CUnit};
    ghost use Rattle.c_meaning.specs.Layout.{declared};
    ghost use Rattle.c_value_checker.specs.Seen.{seen};

    ghost Value = { CUnit };

    ghost coded = { Prim.hlevel (codes, tree.the_row.coded) };

    ghost view = { λ l. l.unit.now };

    ghost invariant = { λ l. seen l.environment ≡ declared l.unit.now };
}

// What the base of a type means.
fn base_kind(environment: &Environment, base: &Base) -> Option<Kind>
    ensures { result ≡ kind_of_base (seen environment.now) base.now }
{
    let (base, stars) = match base {
        Base::Void => (KindBase::Void, 0),
        Base::Int => (KindBase::Integer(Width::ThirtyTwo, true), 0),
        Base::Char => (KindBase::Integer(Width::Eight, true), 0),
        Base::Named(name) => match environment.find(name) {
            Some(Sort::Type(kind)) => (kind.base, kind.stars),
            _ => return None,
        },
    };
    Some(Kind { base, stars })
}

impl<'u> Layouts<'u> {
    /// The layouts of a unit.
    pub fn new(alloc: Global, unit: &'u Unit) -> Result<Layouts<'u>, Memory>
        ensures { IfOk result (λ layouts. layouts ≡ unit.now) }
    {
        let environment = declared(alloc, unit.items.as_slice())?;
        Ok(Layouts { unit, environment })
    }

    /// Whether a type is laid out: known, and with fewer than 2^62 cells.
    pub fn laid_out(&self, declared: &CType) -> bool
        ensures { result ≡ is_laid_out self.now declared.now }
    {
        match base_kind(&self.environment, &declared.base) {
            None => false,
            Some(kind) => declared.stars > 0 || self.environment.is_laid_out(kind),
        }
    }

    /// The cells of a type that is laid out.
    pub fn cells_of(&self, declared: &CType) -> u64
        requires { is_laid_out self.now declared.now ≡ true }
        ensures cells { result ≡ cells self.now declared.now }
        ensures few { result < 2 ^ 62 }
    {
        match base_kind(&self.environment, &declared.base) {
            Some(kind) if declared.stars == 0 => self.environment.cells_of(kind),
            _ => 1,
        }
    }
}
