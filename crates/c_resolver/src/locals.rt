// The places of the locals of a body.

ghost use Rattle.std.specs.Prelude.{◌≡◌, ◌+◌, [], ◌∷◌, ◌++◌, map, IfOk, OnOk};
ghost use Rattle.std.specs.Option.{option_map};
ghost use Rattle.c_meaning.specs.Code as spec;
ghost use Rattle.c_meaning.specs.Layout.{kind};
ghost use Rattle.c_value_checker.specs.Seen.{seen};
ghost use Rattle.c_resolver.specs.Plans.{locals_in, slot_seen};

use crate::chains::push;
use crate::found::known;
use c_tree::{Block, CType, Kind, Local, Stmt};
use c_value_checker::Environment;
use sqlite_items::Items;
use std::alloc::Global;
use vg_base::Memory;

/// The place of a local in a frame, by where its name stands.
#[derive(Clone, Copy)]
pub struct Slot {
    pub start: u32,
    pub at: u64,
}

/// The kind of what is declared.
pub fn kind_of(environment: &Environment, declared: &CType) -> Result<Kind, Memory>
    ensures { IfOk result (λ found. found ≡ kind (seen environment.now) declared.now) }
{
    Ok(known(environment.kind_of(declared)?))
}

/// So many cells more.
pub fn sum(a: u64, b: u64) -> Result<u64, Memory>
    ensures { IfOk result (λ sum. sum ≡ a + b) }
{
    match a.checked_add(b) {
        None => Err(Memory),
        Some(sum) => Ok(sum),
    }
}

fn add_local(
    environment: &Environment,
    slots: &mut Items<Slot>,
    at: u64,
    local: &Local,
) -> Result<u64, Memory>
    ensures slots { OnOk result (map slot_seen slots.new ≡ map slot_seen slots.old ++ spec.slots (seen environment.now) at (local.now ∷ [])) }
    ensures cells { IfOk result (λ next. next ≡ at + spec.locals_cells (seen environment.now) (local.now ∷ [])) }
{
    let kind = kind_of(environment, &local.declared)?;
    let slot = Slot {
        start: local.name.span.start,
        at,
    };
    push(slots, slot)?;
    sum(at, environment.cells_of(kind))
}

fn add_locals(
    environment: &Environment,
    slots: &mut Items<Slot>,
    mut at: u64,
    locals: &[Local],
) -> Result<u64, Memory>
    ensures slots { OnOk result (map slot_seen slots.new ≡ map slot_seen slots.old ++ spec.slots (seen environment.now) at (locals.now)) }
    ensures cells { IfOk result (λ next. next ≡ at + spec.locals_cells (seen environment.now) (locals.now)) }
{
    for local in locals {
        at = add_local(environment, slots, at, local)?;
    }
    Ok(at)
}

/// The slots of the locals of a block and of the blocks in it, from a place on, and the place behind them.
#[cycle(locals)]
pub fn add_block(
    environment: &Environment,
    slots: &mut Items<Slot>,
    at: u64,
    block: &Block,
) -> Result<u64, Memory>
    ensures slots { OnOk result (map slot_seen slots.new ≡ map slot_seen slots.old ++ spec.slots (seen environment.now) at (spec.locals_of block.now)) }
    ensures cells { IfOk result (λ next. next ≡ at + spec.locals_cells (seen environment.now) (spec.locals_of block.now)) }
{
    let next = add_locals(environment, slots, at, block.locals.as_slice())?;
    add_stmts(environment, slots, next, block.body.as_slice())
}

#[cycle(locals)]
fn add_stmts(
    environment: &Environment,
    slots: &mut Items<Slot>,
    mut at: u64,
    stmts: &[Stmt],
) -> Result<u64, Memory>
    ensures slots { OnOk result (map slot_seen slots.new ≡ map slot_seen slots.old ++ spec.slots (seen environment.now) at (spec.flat_locals (map locals_in stmts.now))) }
    ensures cells { IfOk result (λ next. next ≡ at + spec.locals_cells (seen environment.now) (spec.flat_locals (map locals_in stmts.now))) }
{
    for stmt in stmts {
        at = add_stmt(environment, slots, at, stmt)?;
    }
    Ok(at)
}

#[cycle(locals)]
fn add_stmt(
    environment: &Environment,
    slots: &mut Items<Slot>,
    at: u64,
    stmt: &Stmt,
) -> Result<u64, Memory>
    ensures slots { OnOk result (map slot_seen slots.new ≡ map slot_seen slots.old ++ spec.slots (seen environment.now) at (locals_in stmt.now)) }
    ensures cells { IfOk result (λ next. next ≡ at + spec.locals_cells (seen environment.now) (locals_in stmt.now)) }
{
    match stmt {
        Stmt::If(_, block, other) => {
            let next = add_block(environment, slots, at, block)?;
            add_else(environment, slots, next, other)
        }
        Stmt::Block(block) => add_block(environment, slots, at, block),
        _ => Ok(at),
    }
}

#[cycle(locals)]
fn add_else(
    environment: &Environment,
    slots: &mut Items<Slot>,
    at: u64,
    block: &Option<Block>,
) -> Result<u64, Memory>
    ensures slots { OnOk result (map slot_seen slots.new ≡ map slot_seen slots.old ++ spec.slots (seen environment.now) at (spec.else_locals (option_map spec.locals_of block.now))) }
    ensures cells { IfOk result (λ next. next ≡ at + spec.locals_cells (seen environment.now) (spec.else_locals (option_map spec.locals_of block.now))) }
{
    match block {
        None => Ok(at),
        Some(block) => add_block(environment, slots, at, block),
    }
}

/// The place of the local whose name stands there.
pub fn slot_at(slots: &[Slot], start: u32) -> u64
    ensures { result ≡ spec.slot_at (map slot_seen slots.now) start }
{
    for slot in slots {
        if slot.start == start {
            return slot.at;
        }
    }
    0
}
