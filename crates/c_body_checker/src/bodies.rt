// The bodies of functions: their statements and their labels.

ghost use Rattle.std.specs.Prelude.{◌≡◌, IfOk, OnOk};
ghost use Rattle.c_tree.specs.Checks.{checked};
ghost use Rattle.c_tree.specs.declared.code.Block.{out-Block};
ghost use Rattle.c_tree.specs.Rules.{checked_block, with_locals};
ghost use Rattle.c_tree.specs.Unit.{block_end};
ghost use Rattle.c_body_checker.specs.Bodies.{jump_faults, whole_body};
ghost use Rattle.c_value_checker.specs.Noted.{noted};
ghost use Rattle.c_value_checker.specs.Seen.{seen};

use crate::labels::{Labels, add_block, check_labels, check_targets};
use crate::statements::check_block;
use c_tree::{Block, Kind};
use c_value_checker::{Environment, Findings};
use std::alloc::Global;
use vg_base::Memory;

// Where the bracket that ends a block stands.
fn block_end(block: &Block) -> u32
    ensures { result ≡ block_end block.now }
{
    block.span.end.saturating_sub(1)
}

fn find_labels(alloc: Global, body: &Block) -> Result<Labels, Memory>
    ensures labels { IfOk result (λ found. found.labels.items ≡ (checked_block checked body.now).labels) }
    ensures targets { IfOk result (λ found. found.targets.items ≡ (checked_block checked body.now).targets) }
{
    let mut found = Labels {
        labels: Vec::new(alloc),
        targets: Vec::new(alloc),
    };
    add_block(alloc, &mut found, body)?;
    Ok(found)
}

// Labels that stand twice, and what goes to labels that are nowhere.
fn check_jumps(alloc: Global, findings: &mut Findings, body: &Block) -> Result<(), Memory>
    ensures { OnOk result (findings.new ≡ noted findings.old (jump_faults body.now)) }
{
    let found = find_labels(alloc, body)?;
    let table = check_labels(alloc, findings, &found.labels)?;
    check_targets(findings, &table, block_end(body), &found.targets);
    Ok(())
}

/// The body of a function, in the scope of its parameters. Its names stay.
pub fn check_body<'n>(
    alloc: Global,
    environment: &mut Environment<'n>,
    findings: &mut Findings,
    gives: Option<Kind>,
    body: &'n Block,
) -> Result<(), Memory>
    ensures names { OnOk result (seen environment.new ≡ with_locals (seen environment.old) (out-Block body.now).locals) }
    ensures faults { OnOk result (findings.new ≡ noted findings.old (whole_body (seen environment.old) gives body.now)) }
{
    check_block(alloc, environment, findings, gives, body)?;
    check_jumps(alloc, findings, body)
}
