// Chains of operators between operands, and choices.

ghost use Rattle.std.specs.Prelude.{◌≡◌, [], ◌∷◌, ◌++◌, false, reverse, IfOk, OnOk};
ghost use Rattle.c_tree.specs.Checks as checks;
ghost use Rattle.c_tree.specs.Env.{Env};
ghost use Rattle.c_tree.specs.Faults.{outcome_kind};
ghost use Rattle.c_meaning.specs.Values.{kind_operand};
ghost use Rattle.c_code.specs.declared.code.Alternative.{roll-Alternative};
ghost use Rattle.c_code.specs.declared.code.Start.TheVariants as start;
ghost use Rattle.c_code.specs.Resolved as spec;
ghost use Rattle.c_value_checker.specs.Seen.{seen};
ghost use Rattle.c_resolver.specs.Shown.{found_seen};
ghost use Rattle.c_resolver.specs.Steps.{operation_of};

use crate::found::{Found, Reached, known, operand, value_reached};
use crate::kinds::operand_kind;
use crate::lookups::code;
use c_code::{Alternative, Code, Operation, Start};
use c_tree::{BinaryOperator, Kind, Operand};
use c_value_checker::{Environment, chosen, joined, target};
use sqlite_items::{Boxed, Items};
use std::alloc::Global;
use vg_base::Memory;

/// The operations of a chain, and what the whole is.
#[derive(Drop)]
pub struct Chained {
    pub operations: Items<Operation>,
    pub operand: Option<Operand>,
}

/// An operation, and what the chain is up to its end.
#[derive(Drop)]
pub struct Linked {
    pub operation: Operation,
    pub operand: Option<Operand>,
}

/// Alternatives, the last one first, and what the whole is.
#[derive(Drop)]
pub struct Chosen {
    pub alternatives: Vec<Alternative>,
    pub operand: Option<Operand>,
}

/// An alternative, and what the whole is from it on.
#[derive(Drop)]
pub struct Picked {
    pub alternative: Alternative,
    pub operand: Option<Operand>,
}

/// One item more.
pub fn push<T: Drop>(items: &mut Items<T>, one: T) -> Result<(), Memory>
    ensures { OnOk result (items.new ≡ items.old ++ one ∷ []) }
{
    match items.push(one) {
        Ok(()) => Ok(()),
        Err(_) => Err(Memory),
    }
}

/// One item more of a vector.
pub fn add<T: Drop>(items: &mut Vec<T>, one: T) -> Result<(), Memory>
    ensures { OnOk result (items.new.items ≡ items.old.items ++ one ∷ []) }
{
    match items.push(one) {
        Ok(()) => Ok(()),
        Err(_) => Err(Memory),
    }
}

// The kind of an operand.
fn kind_of(operand: Option<Operand>) -> Kind
    ensures { result ≡ kind_operand operand }
{
    known(operand_kind(operand))
}

/// An operator between an operand and a value.
pub fn join(
    environment: &Environment,
    operator: BinaryOperator,
    left: Option<Operand>,
    value: Found,
) -> Result<Linked, Memory>
    ensures operation { IfOk result (λ linked. linked.operation ≡ operation_of (seen environment.now) operator left (found_seen (seen environment.now) value)) }
    ensures operand { IfOk result (λ linked. linked.operand ≡ checks.joined (seen environment.now) operator left (checks.operand_if value.kind value.null)) }
{
    let right = operand(value.kind, value.null);
    let whole = joined(environment, operator, left, right);
    let left = kind_of(left);
    let operation = Operation {
        operator,
        gives: kind_of(whole),
        left,
        right: kind_of(right),
        step: environment.cells_of(target(left)),
        operand: value_reached(environment, value.kind, value.reached)?,
    };
    Ok(Linked {
        operation,
        operand: whole,
    })
}

/// A chain from its first value on.
pub fn chain(alloc: Global, first: Code, chained: Chained) -> Result<Found, Memory>
    ensures { (env : Env) → IfOk result (λ found. found_seen env found ≡ record {
      kind = checks.operand_kind chained.operand;
      null = false;
      value = spec.code (start.Chain first chained.operations) [];
      place = spec.nothing;
    }) }
{
    let kind = operand_kind(chained.operand);
    let Ok(first) = Boxed::new(alloc, first) else {
        return Err(Memory);
    };
    Ok(Found {
        kind,
        null: false,
        reached: Reached::Value(code(alloc, Start::Chain(first, chained.operations))),
    })
}

/// A test and the value behind it, before another.
pub fn pick(
    environment: &Environment,
    test: Found,
    yes: Found,
    other: Option<Operand>,
) -> Result<Picked, Memory>
    ensures alternative { IfOk result (λ picked. picked.alternative ≡ roll-Alternative (record { test = (found_seen (seen environment.now) test).value; yes = (found_seen (seen environment.now) yes).value; gives = kind_operand picked.operand })) }
    ensures operand { IfOk result (λ picked. picked.operand ≡ checks.operand_if (outcome_kind (checks.choice_outcome test.kind (checks.operand_if yes.kind yes.null) other)) false) }
{
    let whole = chosen(test.kind, operand(yes.kind, yes.null), other);
    let alternative = Alternative {
        test: value_reached(environment, test.kind, test.reached)?,
        yes: value_reached(environment, yes.kind, yes.reached)?,
        gives: kind_of(whole),
    };
    Ok(Picked {
        alternative,
        operand: whole,
    })
}

/// Choices before the last value.
pub fn conditional(alloc: Global, chosen: Chosen, last: Code) -> Result<Found, Memory>
    ensures { (env : Env) → IfOk result (λ found. found_seen env found ≡ record {
      kind = checks.operand_kind chosen.operand;
      null = false;
      value = spec.code (start.Choice (reverse chosen.alternatives.items) last) [];
      place = spec.nothing;
    }) }
{
    let kind = operand_kind(chosen.operand);
    let mut alternatives = chosen.alternatives;
    alternatives.reverse();
    let Ok(last) = Boxed::new(alloc, last) else {
        return Err(Memory);
    };
    let alternatives = Items::from_vec(alternatives);
    Ok(Found {
        kind,
        null: false,
        reached: Reached::Value(code(alloc, Start::Choice(alternatives, last))),
    })
}
