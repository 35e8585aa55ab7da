// The code of blocks.

ghost use Rattle.std.specs.Prelude.{◌≡◌, map, IfOk, OnOk};
ghost use Rattle.std.specs.Option.{option_map};
ghost use Rattle.c_tree.specs.declared.code.Block.{out-Block};
ghost use Rattle.c_tree.specs.Rules.{with_locals};
ghost use Rattle.c_meaning.specs.Code as meaning;
ghost use Rattle.c_resolver.specs.Plans.{code_at, code_in, slot_seen};
ghost use Rattle.c_resolver.specs.Shown.{scope_seen, tables_seen, variable_seen};

use crate::calls::value_of;
use crate::locals::{Slot, slot_at};
use crate::scope::Scope;
use crate::statements::{
    Plan, append, assign, before, call_alone, gives_back, jump, onward, store, switch, test_jump,
    tested,
};
use crate::tables::Tables;
use c_body_checker::declare_locals;
use c_code::Statement;
use c_tree::{Block, Local, Stmt};
use name_table::NameTable;
use sqlite_items::Items;
use std::alloc::Global;
use vg_base::Memory;

// 1. Scopes

fn add_variables<'n>(
    variables: &mut NameTable<'n, u64>,
    slots: &[Slot],
    locals: &'n [Local],
) -> Result<(), Memory>
    ensures { OnOk result (map variable_seen variables.new ≡ meaning.with_variables (map slot_seen slots.now) (map variable_seen variables.old) locals.now) }
{
    for local in locals {
        let at = slot_at(slots, local.name.span.start);
        variables.push(local.name.text.as_slice(), at)?;
    }
    Ok(())
}

fn declare<'n>(scope: &mut Scope<'n>, slots: &[Slot], locals: &'n [Local]) -> Result<(), Memory>
    ensures { OnOk result (scope_seen scope.new ≡ record { env = with_locals (scope_seen scope.old).env locals.now; variables = meaning.with_variables (map slot_seen slots.now) (scope_seen scope.old).variables locals.now }) }
{
    declare_locals(&mut scope.environment, locals)?;
    add_variables(&mut scope.variables, slots, locals)
}

// 2. Blocks

/// A block in a scope that is open already. Its names stay.
#[cycle(statement)]
pub fn block<'n>(
    alloc: Global,
    scope: &mut Scope<'n>,
    tables: &Tables,
    plan: &Plan,
    block: &'n Block,
) -> Result<Items<Statement>, Memory>
    ensures code { IfOk result (λ row. row ≡ map (code_at plan.now.gives plan.now.labels (tables_seen tables.now)) (meaning.code_of block.now (map slot_seen plan.now.slots) (scope_seen scope.old))) }
    ensures names { OnOk result (scope_seen scope.new ≡ record { env = with_locals (scope_seen scope.old).env (out-Block block.now).locals; variables = meaning.with_variables (map slot_seen plan.now.slots) (scope_seen scope.old).variables (out-Block block.now).locals }) }
{
    declare(scope, plan.slots.as_slice(), block.locals.as_slice())?;
    stmts(alloc, scope, tables, plan, block.body.as_slice())
}

// A block in a scope of its own.
#[cycle(statement)]
fn inner<'n>(
    alloc: Global,
    scope: &mut Scope<'n>,
    tables: &Tables,
    plan: &Plan,
    inside: &'n Block,
) -> Result<Items<Statement>, Memory>
    ensures code { IfOk result (λ row. row ≡ map (code_at plan.now.gives plan.now.labels (tables_seen tables.now)) (meaning.code_of inside.now (map slot_seen plan.now.slots) (meaning.inner (scope_seen scope.old)))) }
    ensures names { OnOk result (scope_seen scope.new ≡ scope_seen scope.old) }
{
    let count = scope.variables.length();
    scope.environment.open()?;
    let row = block(alloc, scope, tables, plan, inside)?;
    scope.environment.close();
    scope.variables.truncate(count);
    Ok(row)
}

#[cycle(statement)]
fn stmts<'n>(
    alloc: Global,
    scope: &mut Scope<'n>,
    tables: &Tables,
    plan: &Plan,
    body: &'n [Stmt],
) -> Result<Items<Statement>, Memory>
    ensures code { IfOk result (λ row. row ≡ map (code_at plan.now.gives plan.now.labels (tables_seen tables.now)) (meaning.all_code (map code_in body.now) (map slot_seen plan.now.slots) (scope_seen scope.old))) }
    ensures names { OnOk result (scope_seen scope.new ≡ scope_seen scope.old) }
{
    let mut row = Items::new(alloc);
    for stmt in body {
        let more = statement(alloc, scope, tables, plan, stmt)?;
        append(&mut row, more)?;
    }
    Ok(row)
}

#[cycle(statement)]
fn statement<'n>(
    alloc: Global,
    scope: &mut Scope<'n>,
    tables: &Tables,
    plan: &Plan,
    stmt: &'n Stmt,
) -> Result<Items<Statement>, Memory>
    ensures code { IfOk result (λ row. row ≡ map (code_at plan.now.gives plan.now.labels (tables_seen tables.now)) (code_in stmt.now (map slot_seen plan.now.slots) (scope_seen scope.old))) }
    ensures names { OnOk result (scope_seen scope.new ≡ scope_seen scope.old) }
{
    match stmt {
        Stmt::If(value, first, second) => {
            let test = value_of(alloc, scope, tables, value)?;
            let row = inner(alloc, scope, tables, plan, first)?;
            let other = otherwise(alloc, scope, tables, plan, second)?;
            tested(alloc, test, row, other)
        }
        Stmt::Block(inside) => {
            let row = inner(alloc, scope, tables, plan, inside)?;
            before(alloc, Statement::Onward, row)
        }
        Stmt::Assign(place, value) => assign(alloc, scope, tables, plan, place, value),
        Stmt::Call(called) => call_alone(alloc, scope, tables, plan, called),
        Stmt::Store(place, called) => store(alloc, scope, tables, plan, place, called),
        Stmt::IfGoto(value, label) => {
            test_jump(alloc, scope, tables, plan, value, label.text.as_slice())
        }
        Stmt::Goto(label) => jump(alloc, scope, tables, plan, label.text.as_slice()),
        Stmt::Label(label) => onward(alloc, scope, tables, plan, label.text.as_slice()),
        Stmt::Switch(value, choices, label) => switch(
            alloc,
            scope,
            tables,
            plan,
            value,
            choices.as_slice(),
            label.text.as_slice(),
        ),
        Stmt::Return(_, value) => gives_back(alloc, scope, tables, plan, value),
    }
}

// The block behind `else`, if there is one.
#[cycle(statement)]
fn otherwise<'n>(
    alloc: Global,
    scope: &mut Scope<'n>,
    tables: &Tables,
    plan: &Plan,
    other: &'n Option<Block>,
) -> Result<Option<Items<Statement>>, Memory>
    ensures code { IfOk result (λ row. row ≡ option_map (map (code_at plan.now.gives plan.now.labels (tables_seen tables.now))) (meaning.else_code (option_map meaning.code_of other.now) (map slot_seen plan.now.slots) (scope_seen scope.old))) }
    ensures names { OnOk result (scope_seen scope.new ≡ scope_seen scope.old) }
{
    match other {
        None => Ok(None),
        Some(inside) => {
            let row = inner(alloc, scope, tables, plan, inside)?;
            Ok(Some(row))
        }
    }
}
