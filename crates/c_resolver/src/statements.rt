// Statements without blocks in them, and rows of statements.

ghost use Rattle.std.specs.Prelude.{◌≡◌, suc, [], ◌∷◌, ◌++◌, length, map, IfOk, OnOk};
ghost use Rattle.c_tree.specs.Constants.{signed_value, wrap};
ghost use Rattle.c_meaning.specs.Code as meaning;
ghost use Rattle.c_meaning.specs.State as state;
ghost use Rattle.c_code.specs.Statements as spec;
ghost use Rattle.c_code.specs.declared.program.Statement.TheVariants as statement;
ghost use Rattle.c_value_checker.specs.Seen.{seen};
ghost use Rattle.c_resolver.specs.Plans.{code_at, label_alone, tested_rows};
ghost use Rattle.c_resolver.specs.Shown.{scope_seen, tables_seen};

use crate::calls::{call, kind_and_value, place_of, value_in, value_of};
use crate::chains::push;
use crate::labels::label_place;
use crate::locals::Slot;
use crate::scope::Scope;
use crate::tables::Tables;
use c_code::{Case as CaseCode, Code, Figure, Statement, Taken};
use c_numbers::wrap;
use c_tree::{Call, Case, Expr, Kind, SignedNumber};
use c_value_checker::{Environment, widened};
use sqlite_items::Items;
use std::alloc::Global;
use vg_base::Memory;

/// What is known of a body before its statements: the kind of its function, the places of its locals, and the label at
/// each place of its code, if there is one.
#[derive(Drop)]
pub struct Plan {
    pub gives: Kind,
    pub slots: Items<Slot>,
    pub labels: Items<Option<Items<u8>>>,
}

// 1. Rows of statements

/// A row of one statement.
pub fn one(alloc: Global, statement: Statement) -> Result<Items<Statement>, Memory>
    ensures { IfOk result (λ row. row ≡ statement ∷ []) }
{
    let mut row = Items::new(alloc);
    push(&mut row, statement)?;
    Ok(row)
}

/// Statements behind a row.
pub fn append(row: &mut Items<Statement>, more: Items<Statement>) -> Result<(), Memory>
    ensures { OnOk result (row.new ≡ row.old ++ more) }
{
    match row.append(more) {
        Ok(()) => Ok(()),
        Err(_) => Err(Memory),
    }
}

/// A statement before a row.
pub fn before(
    alloc: Global,
    statement: Statement,
    more: Items<Statement>,
) -> Result<Items<Statement>, Memory>
    ensures { IfOk result (λ row. row ≡ statement ∷ more) }
{
    let mut row = one(alloc, statement)?;
    append(&mut row, more)?;
    Ok(row)
}

// A test before a block.
fn tested_one(
    alloc: Global,
    value: Code,
    first: Items<Statement>,
) -> Result<Items<Statement>, Memory>
    ensures { IfOk result (λ row. row ≡ statement.Test value (length first) ∷ first) }
{
    let count = first.len() as u64;
    before(alloc, Statement::Test(value, count), first)
}

// A test before two blocks: behind the first one the second is passed over.
fn tested_both(
    alloc: Global,
    value: Code,
    first: Items<Statement>,
    second: Items<Statement>,
) -> Result<Items<Statement>, Memory>
    ensures { IfOk result (λ row. row ≡ statement.Test value (suc (length first)) ∷ first ++ statement.Pass (length second) ∷ second) }
{
    let Some(count) = (first.len() as u64).checked_add(1) else {
        return Err(Memory);
    };
    let passed = second.len() as u64;
    let mut row = before(alloc, Statement::Test(value, count), first)?;
    push(&mut row, Statement::Pass(passed))?;
    append(&mut row, second)?;
    Ok(row)
}

/// A test before a block, or before two.
pub fn tested(
    alloc: Global,
    value: Code,
    first: Items<Statement>,
    second: Option<Items<Statement>>,
) -> Result<Items<Statement>, Memory>
    ensures { IfOk result (λ row. row ≡ tested_rows value first second) }
{
    match second {
        None => tested_one(alloc, value, first),
        Some(second) => tested_both(alloc, value, first, second),
    }
}

// 2. Statements without blocks in them

/// What a place of a kind takes.
pub fn taken(environment: &Environment, kind: Kind) -> Taken
    ensures { result ≡ spec.taken (seen environment.now) kind }
{
    Taken {
        kind,
        cells: environment.cells_of(kind),
    }
}

/// `place = value;`
pub fn assign(
    alloc: Global,
    scope: &Scope,
    tables: &Tables,
    plan: &Plan,
    place: &Expr,
    value: &Expr,
) -> Result<Items<Statement>, Memory>
    ensures { IfOk result (λ row. row ≡ map (code_at plan.now.gives plan.now.labels (tables_seen tables.now)) (meaning.one (state.Assign place.now value.now) [] (scope_seen scope.now))) }
{
    let (place, kind) = place_of(alloc, scope, tables, place)?;
    let value = value_in(alloc, scope, tables, kind, value)?;
    one(alloc, Statement::Assign(place, value))
}

/// `place = call;`
pub fn store(
    alloc: Global,
    scope: &Scope,
    tables: &Tables,
    plan: &Plan,
    place: &Expr,
    called: &Call,
) -> Result<Items<Statement>, Memory>
    ensures { IfOk result (λ row. row ≡ map (code_at plan.now.gives plan.now.labels (tables_seen tables.now)) (meaning.one (state.Store place.now called.now) [] (scope_seen scope.now))) }
{
    let (place, kind) = place_of(alloc, scope, tables, place)?;
    let called = call(alloc, scope, tables, called)?;
    let taken = taken(&scope.environment, kind);
    one(alloc, Statement::Store(place, taken, called))
}

/// `if (value) goto L;`
pub fn test_jump(
    alloc: Global,
    scope: &Scope,
    tables: &Tables,
    plan: &Plan,
    value: &Expr,
    label: &[u8],
) -> Result<Items<Statement>, Memory>
    ensures { IfOk result (λ row. row ≡ map (code_at plan.now.gives plan.now.labels (tables_seen tables.now)) (meaning.one (state.TestGoto value.now label.now) [] (scope_seen scope.now))) }
{
    let value = value_of(alloc, scope, tables, value)?;
    let target = label_place(plan.labels.as_slice(), label);
    one(alloc, Statement::TestJump(value, target))
}

/// `goto L;`
pub fn jump(
    alloc: Global,
    scope: &Scope,
    tables: &Tables,
    plan: &Plan,
    label: &[u8],
) -> Result<Items<Statement>, Memory>
    ensures { IfOk result (λ row. row ≡ map (code_at plan.now.gives plan.now.labels (tables_seen tables.now)) (meaning.one (state.Goto label.now) [] (scope_seen scope.now))) }
{
    let target = label_place(plan.labels.as_slice(), label);
    one(alloc, Statement::Jump(target))
}

/// `L: ;`
pub fn onward(
    alloc: Global,
    scope: &Scope,
    tables: &Tables,
    plan: &Plan,
    label: &[u8],
) -> Result<Items<Statement>, Memory>
    ensures { IfOk result (λ row. row ≡ map (code_at plan.now.gives plan.now.labels (tables_seen tables.now)) (meaning.one (state.Label label.now) [] (scope_seen scope.now))) }
{
    one(alloc, Statement::Onward)
}

/// `call;`
pub fn call_alone(
    alloc: Global,
    scope: &Scope,
    tables: &Tables,
    plan: &Plan,
    called: &Call,
) -> Result<Items<Statement>, Memory>
    ensures { IfOk result (λ row. row ≡ map (code_at plan.now.gives plan.now.labels (tables_seen tables.now)) (meaning.one (state.CallOf called.now) [] (scope_seen scope.now))) }
{
    let code = call(alloc, scope, tables, called)?;
    one(alloc, Statement::Call(code))
}

// A number in a kind.
fn figure(kind: Kind, number: SignedNumber) -> Figure
    ensures { result ≡ spec.figure_of (wrap kind (signed_value number)) }
{
    let value = number.number.value as i128;
    let value = wrap(kind, if number.is_negative { -value } else { value });
    Figure {
        is_negative: value < 0,
        size: value.unsigned_abs() as u64,
    }
}

fn cases(
    alloc: Global,
    kind: Kind,
    labels: &[Option<Items<u8>>],
    cases: &[Case],
) -> Result<Items<CaseCode>, Memory>
    ensures { IfOk result (λ codes. codes ≡ spec.case_codes kind (map label_alone labels.now) cases.now) }
{
    let mut codes = Items::new(alloc);
    for case in cases {
        let code = CaseCode {
            number: figure(kind, case.number),
            target: label_place(labels, case.label.text.as_slice()),
        };
        push(&mut codes, code)?;
    }
    Ok(codes)
}

/// `switch (value) { case n: goto L; default: goto L; }`
pub fn switch(
    alloc: Global,
    scope: &Scope,
    tables: &Tables,
    plan: &Plan,
    value: &Expr,
    choices: &[Case],
    label: &[u8],
) -> Result<Items<Statement>, Memory>
    ensures { IfOk result (λ row. row ≡ map (code_at plan.now.gives plan.now.labels (tables_seen tables.now)) (meaning.one (state.Switch value.now choices.now label.now) [] (scope_seen scope.now))) }
{
    let (value, kind) = kind_and_value(alloc, scope, tables, value)?;
    let choices = cases(alloc, widened(kind), plan.labels.as_slice(), choices)?;
    let target = label_place(plan.labels.as_slice(), label);
    one(alloc, Statement::Switch(value, choices, target))
}

/// `return value;`
pub fn gives_back(
    alloc: Global,
    scope: &Scope,
    tables: &Tables,
    plan: &Plan,
    value: &Option<Expr>,
) -> Result<Items<Statement>, Memory>
    ensures { IfOk result (λ row. row ≡ map (code_at plan.now.gives plan.now.labels (tables_seen tables.now)) (meaning.one (state.Return value.now) [] (scope_seen scope.now))) }
{
    match value {
        None => one(alloc, Statement::Return(None)),
        Some(value) => {
            let code = value_in(alloc, scope, tables, plan.gives, value)?;
            one(alloc, Statement::Return(Some(code)))
        }
    }
}
