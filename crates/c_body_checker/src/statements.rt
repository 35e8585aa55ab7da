// Statements and declarations: their faults.

ghost use Rattle.std.specs.Prelude.{◌≡◌, ◌++◌, map, IfOk, OnOk};
ghost use Rattle.std.specs.Option.{option_map};
ghost use Rattle.c_tree.specs.Checks as checks;
ghost use Rattle.c_tree.specs.declared.code.Block.{out-Block};
ghost use Rattle.c_tree.specs.Env.{kind_of};
ghost use Rattle.c_tree.specs.Faults.{behind_first};
ghost use Rattle.c_tree.specs.Kinds as kinds;
ghost use Rattle.c_tree.specs.Make.{span_of};
ghost use Rattle.c_tree.specs.Rules as spec;
ghost use Rattle.c_body_checker.specs.Bodies.{context, else_body, of_statement, returned};
ghost use Rattle.c_value_checker.specs.Noted.{noted};
ghost use Rattle.c_body_checker.specs.Rows.{argument};
ghost use Rattle.c_value_checker.specs.Seen.{seen};

use crate::calls::{Argument, check_call, check_fit, check_integer, check_scalar, note_unless};
use c_tree::{Block, Call, Cause, Expr, Kind, Local, Sort, Span, Stmt};
use c_value_checker::{Environment, Findings, check_value, fits, is_void};
use std::alloc::Global;
use vg_base::Memory;

/// A value, as an argument is kept.
pub fn judge(
    alloc: Global,
    environment: &Environment,
    findings: &mut Findings,
    value: &Expr,
) -> Result<Argument, Memory>
    ensures value { IfOk result (λ found. found ≡ argument (seen environment.now) (checks.checked value.now)) }
    ensures faults { OnOk result (findings.new ≡ noted findings.old ((checks.checked value.now).value.faults (seen environment.now))) }
{
    let found = check_value(alloc, environment, findings, value)?;
    Ok(Argument {
        span: value.span,
        found,
    })
}

fn check_condition(
    alloc: Global,
    environment: &Environment,
    findings: &mut Findings,
    value: &Expr,
) -> Result<(), Memory>
    ensures { OnOk result (findings.new ≡ noted findings.old (spec.condition (seen environment.now) (checks.checked value.now))) }
{
    let found = judge(alloc, environment, findings, value)?;
    check_scalar(findings, &found);
    Ok(())
}

fn check_switch(
    alloc: Global,
    environment: &Environment,
    findings: &mut Findings,
    value: &Expr,
) -> Result<(), Memory>
    ensures { OnOk result (findings.new ≡ noted findings.old ((checks.checked value.now).value.faults (seen environment.now) ++ spec.must_be (seen environment.now) kinds.is_integer (checks.checked value.now))) }
{
    let found = judge(alloc, environment, findings, value)?;
    check_integer(findings, &found);
    Ok(())
}

fn check_assigned(
    alloc: Global,
    environment: &Environment,
    findings: &mut Findings,
    place: &Expr,
    value: &Expr,
) -> Result<(), Memory>
    ensures { OnOk result (findings.new ≡ noted findings.old ((checks.checked place.now).value.faults (seen environment.now) ++ (checks.checked value.now).value.faults (seen environment.now)
        ++ spec.fit (seen environment.now) ((checks.checked place.now).value.kind (seen environment.now)) (checks.checked value.now))) }
{
    let wanted = judge(alloc, environment, findings, place)?;
    let found = judge(alloc, environment, findings, value)?;
    check_fit(findings, wanted.found.kind, &found);
    Ok(())
}

fn check_assign(
    alloc: Global,
    environment: &Environment,
    findings: &mut Findings,
    place: &Expr,
    value: &Expr,
) -> Result<(), Memory>
    ensures { OnOk result (findings.new ≡ noted findings.old (behind_first (span_of place.now).start ((checks.checked place.now).value.faults (seen environment.now) ++ (checks.checked value.now).value.faults (seen environment.now)
        ++ spec.fit (seen environment.now) ((checks.checked place.now).value.kind (seen environment.now)) (checks.checked value.now)))) }
{
    let floor = findings.begin(place.span.start);
    check_assigned(alloc, environment, findings, place, value)?;
    findings.floor = floor;
    Ok(())
}

fn check_call_alone(
    alloc: Global,
    environment: &Environment,
    findings: &mut Findings,
    call: &Call,
) -> Result<(), Memory>
    ensures { OnOk result (findings.new ≡ noted findings.old (behind_first call.now.span.start (spec.call checks.checked (seen environment.now) call.now).faults)) }
{
    let floor = findings.begin(call.span.start);
    check_call(alloc, environment, findings, call)?;
    findings.floor = floor;
    Ok(())
}

// The result of a call goes to a place.
fn check_result(findings: &mut Findings, place: Option<Kind>, gives: Option<Kind>, span: Span)
    ensures { findings.new ≡ noted findings.old (spec.result_fit place gives span) }
{
    if let (Some(place), Some(gives)) = (place, gives) {
        note_unless(findings, fits(place, gives, false), span);
    }
}

fn check_stored(
    alloc: Global,
    environment: &Environment,
    findings: &mut Findings,
    place: &Expr,
    call: &Call,
) -> Result<(), Memory>
    ensures { OnOk result (findings.new ≡ noted findings.old ((checks.checked place.now).value.faults (seen environment.now) ++ (spec.call checks.checked (seen environment.now) call.now).faults
        ++ spec.result_fit ((checks.checked place.now).value.kind (seen environment.now)) (spec.call checks.checked (seen environment.now) call.now).result call.now.span)) }
{
    let wanted = judge(alloc, environment, findings, place)?;
    let gives = check_call(alloc, environment, findings, call)?;
    check_result(findings, wanted.found.kind, gives, call.span);
    Ok(())
}

fn check_store(
    alloc: Global,
    environment: &Environment,
    findings: &mut Findings,
    place: &Expr,
    call: &Call,
) -> Result<(), Memory>
    ensures { OnOk result (findings.new ≡ noted findings.old (behind_first (span_of place.now).start ((checks.checked place.now).value.faults (seen environment.now) ++ (spec.call checks.checked (seen environment.now) call.now).faults
        ++ spec.result_fit ((checks.checked place.now).value.kind (seen environment.now)) (spec.call checks.checked (seen environment.now) call.now).result call.now.span))) }
{
    let floor = findings.begin(place.span.start);
    check_stored(alloc, environment, findings, place, call)?;
    findings.floor = floor;
    Ok(())
}

fn return_value(findings: &mut Findings, gives: Option<Kind>, word: Span, value: &Argument)
    ensures { findings.new ≡ noted findings.old (returned gives word value.now) }
{
    if let Some(kind) = gives {
        if is_void(kind) {
            findings.note(word.start, Cause::Misfit, value.span.end);
        } else {
            check_fit(findings, Some(kind), value);
        }
    }
}

fn return_nothing(findings: &mut Findings, gives: Option<Kind>, word: Span)
    ensures { findings.new ≡ noted findings.old (spec.return_empty gives word) }
{
    if let Some(kind) = gives {
        note_unless(findings, is_void(kind), word);
    }
}

fn check_return(
    alloc: Global,
    environment: &Environment,
    findings: &mut Findings,
    gives: Option<Kind>,
    word: Span,
    value: &Option<Expr>,
) -> Result<(), Memory>
    ensures { OnOk result (findings.new ≡ noted findings.old (spec.return_faults (context (seen environment.now) gives) word (option_map checks.checked value.now))) }
{
    match value {
        None => {
            return_nothing(findings, gives, word);
            Ok(())
        }
        Some(value) => {
            let found = judge(alloc, environment, findings, value)?;
            return_value(findings, gives, word, &found);
            Ok(())
        }
    }
}

fn declare_local<'n>(environment: &mut Environment<'n>, local: &'n Local) -> Result<(), Memory>
    ensures { OnOk result (seen environment.new ≡ spec.with_local (seen environment.old) local.now) }
{
    let kind = environment.kind_of(&local.declared)?;
    environment.declare(&local.name, Sort::Variable(kind))
}

/// The names of declarations, in a scope that is open already.
pub fn declare_locals<'n>(
    environment: &mut Environment<'n>,
    locals: &'n [Local],
) -> Result<(), Memory>
    ensures { OnOk result (seen environment.new ≡ spec.with_locals (seen environment.old) locals.now) }
{
    for local in locals {
        declare_local(environment, local)?;
    }
    Ok(())
}

// The faults of a declaration, and the kind of what it declares.
fn judge_local(
    environment: &Environment,
    findings: &mut Findings,
    local: &Local,
) -> Result<Option<Kind>, Memory>
    ensures kind { IfOk result (λ kind. kind ≡ kind_of (seen environment.now) local.now.declared) }
    ensures faults { OnOk result (findings.new ≡ noted findings.old (checks.type_faults (seen environment.now) local.now.declared ++ spec.twice_here (seen environment.now) local.now.name
        ++ spec.not_laid_out (seen environment.now) (kind_of (seen environment.now) local.now.declared) local.now.name)) }
{
    let kind = environment.kind_of(&local.declared)?;
    environment.check_type(findings, &local.declared);
    environment.check_new(findings, &local.name);
    environment.check_laid_out(findings, kind, &local.name);
    Ok(kind)
}

fn check_local<'n>(
    environment: &mut Environment<'n>,
    findings: &mut Findings,
    local: &'n Local,
) -> Result<(), Memory>
    ensures names { OnOk result (seen environment.new ≡ spec.with_local (seen environment.old) local.now) }
    ensures faults { OnOk result (findings.new ≡ noted findings.old (spec.local_faults (seen environment.old) local.now)) }
{
    let floor = findings.begin(local.declared.span.start);
    let kind = judge_local(environment, findings, local)?;
    findings.floor = floor;
    environment.declare(&local.name, Sort::Variable(kind))
}

fn check_locals<'n>(
    environment: &mut Environment<'n>,
    findings: &mut Findings,
    locals: &'n [Local],
) -> Result<(), Memory>
    ensures names { OnOk result (seen environment.new ≡ spec.with_locals (seen environment.old) locals.now) }
    ensures faults { OnOk result (findings.new ≡ noted findings.old (spec.locals_faults (seen environment.old) locals.now)) }
{
    for local in locals {
        check_local(environment, findings, local)?;
    }
    Ok(())
}

/// A block in a scope that is open already. Its names stay.
#[cycle(statement)]
pub fn check_block<'n>(
    alloc: Global,
    environment: &mut Environment<'n>,
    findings: &mut Findings,
    gives: Option<Kind>,
    block: &'n Block,
) -> Result<(), Memory>
    ensures names { OnOk result (seen environment.new ≡ spec.with_locals (seen environment.old) (out-Block block.now).locals) }
    ensures faults { OnOk result (findings.new ≡ noted findings.old ((spec.checked_block checks.checked block.now).faults (context (seen environment.old) gives))) }
{
    check_locals(environment, findings, block.locals.as_slice())?;
    check_stmts(alloc, environment, findings, gives, block.body.as_slice())
}

// A block in a scope of its own.
#[cycle(statement)]
fn check_inner<'n>(
    alloc: Global,
    environment: &mut Environment<'n>,
    findings: &mut Findings,
    gives: Option<Kind>,
    block: &'n Block,
) -> Result<(), Memory>
    ensures names { OnOk result (seen environment.new ≡ seen environment.old) }
    ensures faults { OnOk result (findings.new ≡ noted findings.old (spec.inner (spec.checked_block checks.checked block.now) (context (seen environment.old) gives))) }
{
    environment.open()?;
    check_block(alloc, environment, findings, gives, block)?;
    environment.close();
    Ok(())
}

#[cycle(statement)]
fn check_else<'n>(
    alloc: Global,
    environment: &mut Environment<'n>,
    findings: &mut Findings,
    gives: Option<Kind>,
    block: &'n Option<Block>,
) -> Result<(), Memory>
    ensures names { OnOk result (seen environment.new ≡ seen environment.old) }
    ensures faults { OnOk result (findings.new ≡ noted findings.old (spec.else_faults (else_body block.now) (context (seen environment.old) gives))) }
{
    match block {
        None => Ok(()),
        Some(block) => check_inner(alloc, environment, findings, gives, block),
    }
}

#[cycle(statement)]
fn check_stmt<'n>(
    alloc: Global,
    environment: &mut Environment<'n>,
    findings: &mut Findings,
    gives: Option<Kind>,
    stmt: &'n Stmt,
) -> Result<(), Memory>
    ensures names { OnOk result (seen environment.new ≡ seen environment.old) }
    ensures faults { OnOk result (findings.new ≡ noted findings.old ((of_statement stmt.now).faults (context (seen environment.old) gives))) }
{
    match stmt {
        Stmt::Assign(place, value) => check_assign(alloc, environment, findings, place, value),
        Stmt::Call(call) => check_call_alone(alloc, environment, findings, call),
        Stmt::Store(place, call) => check_store(alloc, environment, findings, place, call),
        Stmt::If(value, block, other) => {
            check_condition(alloc, environment, findings, value)?;
            check_inner(alloc, environment, findings, gives, block)?;
            check_else(alloc, environment, findings, gives, other)
        }
        Stmt::IfGoto(value, _) => check_condition(alloc, environment, findings, value),
        Stmt::Goto(_) | Stmt::Label(_) => Ok(()),
        Stmt::Switch(value, _, _) => check_switch(alloc, environment, findings, value),
        Stmt::Return(word, value) => {
            check_return(alloc, environment, findings, gives, *word, value)
        }
        Stmt::Block(block) => check_inner(alloc, environment, findings, gives, block),
    }
}

#[cycle(statement)]
fn check_stmts<'n>(
    alloc: Global,
    environment: &mut Environment<'n>,
    findings: &mut Findings,
    gives: Option<Kind>,
    stmts: &'n [Stmt],
) -> Result<(), Memory>
    ensures names { OnOk result (seen environment.new ≡ seen environment.old) }
    ensures faults { OnOk result (findings.new ≡ noted findings.old (spec.all_faults (context (seen environment.old) gives) (map of_statement stmts.now))) }
{
    for stmt in stmts {
        check_stmt(alloc, environment, findings, gives, stmt)?;
    }
    Ok(())
}
