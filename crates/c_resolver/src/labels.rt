// The labels of a body, by the places of its statements.

ghost use Rattle.std.specs.Prelude.{◌≡◌, [], ◌∷◌, ◌++◌, map, Some, IfOk, OnOk};
ghost use Rattle.std.specs.Option.{option_map};
ghost use Rattle.c_meaning.specs.Steps.{is_label, label_place};
ghost use Rattle.c_resolver.specs.Plans as spec;

use crate::chains::push;
use c_tree::{Block, Name, Stmt};
use sqlite_items::Items;
use std::alloc::Global;
use vg_base::Memory;

/// A copy of a text.
pub fn copied(alloc: Global, text: &[u8]) -> Result<Items<u8>, Memory>
    ensures { IfOk result (λ copy. copy ≡ text.now) }
{
    match Items::from_slice(alloc, text) {
        Ok(copy) => Ok(copy),
        Err(_) => Err(Memory),
    }
}

fn add_label(
    alloc: Global,
    labels: &mut Items<Option<Items<u8>>>,
    name: &Name,
) -> Result<(), Memory>
    ensures { OnOk result (labels.new ≡ labels.old ++ Some name.now.text ∷ []) }
{
    let text = copied(alloc, name.text.as_slice())?;
    push(labels, Some(text))
}

/// The label at each place of the code of a block, if there is one.
#[cycle(labels)]
pub fn add_block_labels(
    alloc: Global,
    labels: &mut Items<Option<Items<u8>>>,
    block: &Block,
) -> Result<(), Memory>
    ensures { OnOk result (labels.new ≡ labels.old ++ spec.labels_of block.now) }
{
    add_labels(alloc, labels, block.body.as_slice())
}

#[cycle(labels)]
fn add_labels(
    alloc: Global,
    labels: &mut Items<Option<Items<u8>>>,
    stmts: &[Stmt],
) -> Result<(), Memory>
    ensures { OnOk result (labels.new ≡ labels.old ++ spec.all_labels (map spec.labels_in stmts.now)) }
{
    for stmt in stmts {
        add_stmt_labels(alloc, labels, stmt)?;
    }
    Ok(())
}

#[cycle(labels)]
fn add_stmt_labels(
    alloc: Global,
    labels: &mut Items<Option<Items<u8>>>,
    stmt: &Stmt,
) -> Result<(), Memory>
    ensures { OnOk result (labels.new ≡ labels.old ++ spec.labels_in stmt.now) }
{
    match stmt {
        Stmt::Label(name) => add_label(alloc, labels, name),
        Stmt::If(_, block, other) => {
            push(labels, None)?;
            add_block_labels(alloc, labels, block)?;
            add_else_labels(alloc, labels, other)
        }
        Stmt::Block(block) => {
            push(labels, None)?;
            add_block_labels(alloc, labels, block)
        }
        _ => push(labels, None),
    }
}

#[cycle(labels)]
fn add_else_labels(
    alloc: Global,
    labels: &mut Items<Option<Items<u8>>>,
    block: &Option<Block>,
) -> Result<(), Memory>
    ensures { OnOk result (labels.new ≡ labels.old ++ spec.else_labels (option_map spec.labels_of block.now)) }
{
    match block {
        None => Ok(()),
        Some(block) => {
            push(labels, None)?;
            add_block_labels(alloc, labels, block)
        }
    }
}

fn is_label(label: &Option<Items<u8>>, name: &[u8]) -> bool
    ensures { result ≡ is_label name.now (spec.act_alone label.now) }
{
    match label {
        None => false,
        Some(text) => text.as_slice() == name,
    }
}

/// The place of the first label of a name, or the place behind all statements.
pub fn label_place(labels: &[Option<Items<u8>>], name: &[u8]) -> u64
    ensures { result ≡ label_place 0 name.now (map spec.label_alone labels.now) }
{
    for place in 0..labels.len() {
        if is_label(&labels[place], name) {
            return place as u64;
        }
    }
    labels.len() as u64
}
