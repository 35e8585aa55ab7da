// The labels of a function, and what goes to them.

ghost use Rattle.std.specs.Prelude.{◌≡◌, ◌++◌, ◌∷◌, [], map, IfOk, OnOk, not, reverse};
ghost use Rattle.c_tree.specs.Checks.{checked};
ghost use Rattle.c_tree.specs.Rules as spec;
ghost use Rattle.c_tree.specs.declared.kinds.Cause.TheVariants.{Twice};
ghost use Rattle.c_tree.specs.Faults.{fault, unless};
ghost use Rattle.c_tree.specs.Unit.{has_name, label_faults, target_faults};
ghost use Rattle.c_body_checker.specs.Bodies.{else_body, labels_of, of_statement};
ghost use Rattle.c_value_checker.specs.Noted.{noted};

use c_tree::{Block, Case, Cause, Name, Span, Stmt};
use c_value_checker::Findings;
use name_table::NameTable;
use sqlite_items::Items;
use std::alloc::Global;
use vg_base::Memory;

/// The labels of a function, and the labels that it goes to, in their order.
#[derive(Drop)]
pub struct Labels {
    pub labels: Vec<Name>,
    pub targets: Vec<Name>,
}

fn add(alloc: Global, names: &mut Vec<Name>, name: &Name) -> Result<(), Memory>
    ensures { OnOk result (names.new.items ≡ names.old.items ++ name.now ∷ []) }
{
    let Ok(text) = Items::from_slice(alloc, name.text.as_slice()) else {
        return Err(Memory);
    };
    let copy = Name {
        text,
        span: name.span,
    };
    match names.push(copy) {
        Ok(()) => Ok(()),
        Err(_) => Err(Memory),
    }
}

fn add_cases(alloc: Global, names: &mut Vec<Name>, cases: &[Case]) -> Result<(), Memory>
    ensures { OnOk result (names.new.items ≡ names.old.items ++ spec.case_targets cases.now) }
{
    for case in cases {
        add(alloc, names, &case.label)?;
    }
    Ok(())
}

fn add_switch(
    alloc: Global,
    names: &mut Vec<Name>,
    cases: &[Case],
    other: &Name,
) -> Result<(), Memory>
    ensures { OnOk result (names.new.items ≡ names.old.items ++ (spec.case_targets cases.now ++ other.now ∷ [])) }
{
    add_cases(alloc, names, cases)?;
    add(alloc, names, other)
}

#[cycle(labels)]
fn add_else(alloc: Global, found: &mut Labels, block: &Option<Block>) -> Result<(), Memory>
    ensures labels { OnOk result (found.new.labels.items ≡ found.old.labels.items ++ spec.else_labels (else_body block.now)) }
    ensures targets { OnOk result (found.new.targets.items ≡ found.old.targets.items ++ spec.else_targets (else_body block.now)) }
{
    match block {
        None => Ok(()),
        Some(block) => add_block(alloc, found, block),
    }
}

#[cycle(labels)]
fn add_stmt(alloc: Global, found: &mut Labels, stmt: &Stmt) -> Result<(), Memory>
    ensures labels { OnOk result (found.new.labels.items ≡ found.old.labels.items ++ (of_statement stmt.now).labels) }
    ensures targets { OnOk result (found.new.targets.items ≡ found.old.targets.items ++ (of_statement stmt.now).targets) }
{
    match stmt {
        Stmt::Assign(_, _) | Stmt::Call(_) | Stmt::Store(_, _) | Stmt::Return(_, _) => Ok(()),
        Stmt::If(_, block, other) => {
            add_block(alloc, found, block)?;
            add_else(alloc, found, other)
        }
        Stmt::IfGoto(_, label) | Stmt::Goto(label) => add(alloc, &mut found.targets, label),
        Stmt::Label(label) => add(alloc, &mut found.labels, label),
        Stmt::Switch(_, cases, other) => {
            add_switch(alloc, &mut found.targets, cases.as_slice(), other)
        }
        Stmt::Block(block) => add_block(alloc, found, block),
    }
}

/// Adds the labels of a block, and those that it goes to.
#[cycle(labels)]
pub fn add_block(alloc: Global, found: &mut Labels, block: &Block) -> Result<(), Memory>
    ensures labels { OnOk result (found.new.labels.items ≡ found.old.labels.items ++ (spec.checked_block checked block.now).labels) }
    ensures targets { OnOk result (found.new.targets.items ≡ found.old.targets.items ++ (spec.checked_block checked block.now).targets) }
{
    add_stmts(alloc, found, block.body.as_slice())
}

#[cycle(labels)]
fn add_stmts(alloc: Global, found: &mut Labels, stmts: &[Stmt]) -> Result<(), Memory>
    ensures labels { OnOk result (found.new.labels.items ≡ found.old.labels.items ++ spec.all_labels (map of_statement stmts.now)) }
    ensures targets { OnOk result (found.new.targets.items ≡ found.old.targets.items ++ spec.all_targets (map of_statement stmts.now)) }
{
    for stmt in stmts {
        add_stmt(alloc, found, stmt)?;
    }
    Ok(())
}

/// Labels by their names, and where each stands.
pub type Table<'l> = NameTable<'l, Span>;

#[tactic(auto, using(crate::proofs::LabelLemmas::has_latest))]
fn has_name(table: &Table, name: &Name) -> bool
    ensures { result ≡ has_name name.now.text (labels_of table.now) }
{
    table.find(name.text.as_slice()).is_some()
}

// A label that stands twice.
fn check_label(findings: &mut Findings, before: &Table, label: &Name)
    ensures { findings.new ≡ noted findings.old (unless (not (has_name label.now.text (labels_of before.now))) (fault Twice label.now.span.start label.now.span.end)) }
{
    if has_name(before, label) {
        findings.note(label.span.start, Cause::Twice, label.span.end);
    }
}

/// Notes labels that stand twice. Gives them all, the last one first.
pub fn check_labels<'l>(
    alloc: Global,
    findings: &mut Findings,
    labels: &'l [Name],
) -> Result<Table<'l>, Memory>
    ensures labels { IfOk result (λ table. labels_of table ≡ reverse labels.now) }
    ensures faults { OnOk result (findings.new ≡ noted findings.old (label_faults [] labels.now)) }
{
    let mut table = NameTable::new(alloc);
    for label in labels {
        check_label(findings, &table, label);
        table.push(label.text.as_slice(), label.span)?;
    }
    Ok(table)
}

// A label that is nowhere in the function, which is known at its end.
fn check_target(findings: &mut Findings, labels: &Table, end: u32, target: &Name)
    ensures { findings.new ≡ noted findings.old (target_faults (labels_of labels.now) end (target.now ∷ [])) }
{
    if !has_name(labels, target) {
        findings.note(target.span.start, Cause::Undeclared, end);
    }
}

/// Notes what goes to labels that are nowhere in a function that ends there.
pub fn check_targets(findings: &mut Findings, labels: &Table, end: u32, targets: &[Name])
    ensures { findings.new ≡ noted findings.old (target_faults (labels_of labels.now) end targets.now) }
{
    for target in targets {
        check_target(findings, labels, end, target);
    }
}
