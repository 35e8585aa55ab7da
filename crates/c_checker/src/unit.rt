// Whole units.

ghost use Rattle.std.specs.Prelude.{◌≡◌, IfOk, OnOk};
ghost use Rattle.c_tree.specs.Checks.{checked};
ghost use Rattle.c_tree.specs.Env as env;
ghost use Rattle.c_tree.specs.Faults as faults;
ghost use Rattle.c_tree.specs.Rules.{checked_block};
ghost use Rattle.c_tree.specs.Unit as spec;
ghost use Rattle.c_checker.specs.Behind.{behind};
ghost use Rattle.c_value_checker.specs.Noted.{noted};
ghost use Rattle.c_value_checker.specs.Seen.{seen};

use crate::items::check_item;
use crate::start::library;
use c_tree::{Fault, Item, Unit};
use c_value_checker::{Environment, Findings};
use std::alloc::Global;
use vg_base::Memory;

// The faults of items, each behind those before it.
fn check_items<'n>(
    alloc: Global,
    environment: &mut Environment<'n>,
    findings: &mut Findings,
    items: &'n [Item],
) -> Result<(), Memory>
    ensures { OnOk result (findings.new ≡ noted findings.old (spec.items_faults checked (checked_block checked) (seen environment.old) items.now)) }
{
    for item in items {
        check_item(alloc, environment, findings, item)?;
    }
    Ok(())
}

fn declare_items<'n>(
    alloc: Global,
    environment: &mut Environment<'n>,
    items: &'n [Item],
) -> Result<(), Memory>
    ensures { OnOk result (seen environment.new ≡ behind (seen environment.old) items.now) }
{
    let mut ignored = Findings::new(None, 0);
    for item in items {
        check_item(alloc, environment, &mut ignored, item)?;
    }
    Ok(())
}

/// What is declared at the end of a unit.
pub fn declared<'n>(alloc: Global, items: &'n [Item]) -> Result<Environment<'n>, Memory>
    ensures { IfOk result (λ environment. seen environment ≡ behind env.library items.now) }
{
    let mut environment = library(alloc)?;
    declare_items(alloc, &mut environment, items)?;
    Ok(environment)
}

/// The first of what is there and of the faults of a unit that are known once the token at `last` was taken.
pub fn check(
    alloc: Global,
    unit: &Unit,
    least: Option<Fault>,
    last: u32,
) -> Result<Option<Fault>, Memory>
    ensures { IfOk result (λ first. first ≡ faults.least least (faults.known last (spec.unit_faults unit.now))) }
{
    let mut environment = library(alloc)?;
    let mut findings = Findings::new(least, last);
    check_items(
        alloc,
        &mut environment,
        &mut findings,
        unit.items.as_slice(),
    )?;
    Ok(findings.first)
}

fn is_main(item: &Item) -> bool
    ensures { result ≡ spec.is_main item.now }
{
    match item {
        Item::Function(function) => function.signature.name.text.as_slice() == b"main".as_slice(),
        _ => false,
    }
}

/// Whether a unit defines `main`.
pub fn has_main(unit: &Unit) -> bool
    ensures { result ≡ spec.has_main unit.now }
{
    let items = unit.items.as_slice();
    for item in items {
        if is_main(item) {
            return true;
        }
    }
    false
}
