// The text literals of statements and of a unit.

ghost use Rattle.std.specs.Prelude.{◌≡◌, ◌++◌, map, IfOk, OnOk};
ghost use Rattle.std.specs.Option.{option_map};
ghost use Rattle.c_meaning.specs.Code as spec;
ghost use Rattle.c_resolver.specs.Shown.{literal_seen};
ghost use Rattle.c_resolver.specs.Texts.{stmt_literals};

use crate::tables::Literal;
use crate::value_texts::add_value;
use c_tree::{Block, Call, Callee, Expr, Item, Stmt, Unit};
use sqlite_items::Items;
use std::alloc::Global;
use vg_base::Memory;

fn add_values(alloc: Global, literals: &mut Items<Literal>, values: &[Expr]) -> Result<(), Memory>
    ensures { OnOk result (map literal_seen literals.new ≡ map literal_seen literals.old ++ spec.all_texts spec.texts_of values.now) }
{
    for value in values {
        add_value(alloc, literals, value)?;
    }
    Ok(())
}

fn add_callee(alloc: Global, literals: &mut Items<Literal>, callee: &Callee) -> Result<(), Memory>
    ensures { OnOk result (map literal_seen literals.new ≡ map literal_seen literals.old ++ spec.callee_texts spec.texts_of callee.now) }
{
    match callee {
        Callee::Value(value) => add_value(alloc, literals, value),
        Callee::Row(_) => Ok(()),
    }
}

fn add_call(alloc: Global, literals: &mut Items<Literal>, call: &Call) -> Result<(), Memory>
    ensures { OnOk result (map literal_seen literals.new ≡ map literal_seen literals.old ++ spec.call_texts spec.texts_of call.now) }
{
    add_callee(alloc, literals, &call.callee)?;
    add_values(alloc, literals, call.arguments.as_slice())
}

fn add_optional(
    alloc: Global,
    literals: &mut Items<Literal>,
    value: &Option<Expr>,
) -> Result<(), Memory>
    ensures { OnOk result (map literal_seen literals.new ≡ map literal_seen literals.old ++ spec.optional_texts spec.texts_of value.now) }
{
    match value {
        None => Ok(()),
        Some(value) => add_value(alloc, literals, value),
    }
}

#[cycle(texts)]
fn add_block(alloc: Global, literals: &mut Items<Literal>, block: &Block) -> Result<(), Memory>
    ensures { OnOk result (map literal_seen literals.new ≡ map literal_seen literals.old ++ spec.block_texts spec.texts_of block.now) }
{
    add_stmts(alloc, literals, block.body.as_slice())
}

#[cycle(texts)]
fn add_stmts(alloc: Global, literals: &mut Items<Literal>, stmts: &[Stmt]) -> Result<(), Memory>
    ensures { OnOk result (map literal_seen literals.new ≡ map literal_seen literals.old ++ spec.link_texts (map stmt_literals stmts.now)) }
{
    for stmt in stmts {
        add_stmt(alloc, literals, stmt)?;
    }
    Ok(())
}

#[cycle(texts)]
fn add_stmt(alloc: Global, literals: &mut Items<Literal>, stmt: &Stmt) -> Result<(), Memory>
    ensures { OnOk result (map literal_seen literals.new ≡ map literal_seen literals.old ++ stmt_literals stmt.now) }
{
    match stmt {
        Stmt::Assign(place, value) => {
            add_value(alloc, literals, place)?;
            add_value(alloc, literals, value)
        }
        Stmt::Call(call) => add_call(alloc, literals, call),
        Stmt::Store(place, call) => {
            add_value(alloc, literals, place)?;
            add_call(alloc, literals, call)
        }
        Stmt::If(value, block, other) => {
            add_value(alloc, literals, value)?;
            add_block(alloc, literals, block)?;
            add_else(alloc, literals, other)
        }
        Stmt::IfGoto(value, _) | Stmt::Switch(value, _, _) => { add_value(alloc, literals, value) }
        Stmt::Return(_, value) => add_optional(alloc, literals, value),
        Stmt::Block(block) => add_block(alloc, literals, block),
        Stmt::Goto(_) | Stmt::Label(_) => Ok(()),
    }
}

#[cycle(texts)]
fn add_else(
    alloc: Global,
    literals: &mut Items<Literal>,
    block: &Option<Block>,
) -> Result<(), Memory>
    ensures { OnOk result (map literal_seen literals.new ≡ map literal_seen literals.old ++ spec.else_texts (option_map (spec.block_texts spec.texts_of) block.now)) }
{
    match block {
        None => Ok(()),
        Some(block) => add_block(alloc, literals, block),
    }
}

fn add_item(alloc: Global, literals: &mut Items<Literal>, item: &Item) -> Result<(), Memory>
    ensures { OnOk result (map literal_seen literals.new ≡ map literal_seen literals.old ++ spec.item_texts spec.reading item.now) }
{
    match item {
        Item::Variable(variable) => add_value(alloc, literals, &variable.value),
        Item::Function(function) => add_block(alloc, literals, &function.body),
        _ => Ok(()),
    }
}

fn add_items(alloc: Global, literals: &mut Items<Literal>, items: &[Item]) -> Result<(), Memory>
    ensures { OnOk result (map literal_seen literals.new ≡ map literal_seen literals.old ++ spec.literals_of spec.reading items.now) }
{
    for item in items {
        add_item(alloc, literals, item)?;
    }
    Ok(())
}

/// The text literals of a unit, in the order of the text.
pub fn literals(alloc: Global, unit: &Unit) -> Result<Items<Literal>, Memory>
    ensures { IfOk result (λ found. map literal_seen found ≡ spec.literals_of spec.reading unit.now.items) }
{
    let mut literals = Items::new(alloc);
    add_items(alloc, &mut literals, unit.items.as_slice())?;
    Ok(literals)
}
