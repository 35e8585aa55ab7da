// Operators before an operand.

ghost use Rattle.std.specs.Prelude.{◌≡◌, IfOk};
ghost use Rattle.c_value_checker.specs.Seen.{seen};
ghost use Rattle.c_code.specs.Resolved.{before};
ghost use Rattle.c_resolver.specs.Shown as shown;
ghost use Rattle.c_resolver.specs.Shown.{found_seen};
ghost use Rattle.c_resolver.specs.Steps.{all_before, move_of, shown_before};

use crate::found::{Found, Reached, known, on, place_reached, value_reached};
use c_code::{Move, Sign};
use c_tree::{Kind, Prefix, PrefixOperator};
use c_value_checker::{Environment, prefixed};
use std::alloc::Global;
use vg_base::Memory;

// What an operator does with the value of its operand, where the result has a kind.
fn move_of(prefix: &Prefix, gives: Option<Kind>) -> Move
    ensures { result ≡ move_of prefix.now gives }
{
    match prefix {
        Prefix::Not => Move::Not,
        Prefix::Deref => Move::Follow,
        Prefix::AddressOf => Move::Address,
        Prefix::Cast(_) => Move::Convert(known(gives)),
        Prefix::Plus => Move::Sign(Sign::Plus, known(gives)),
        Prefix::Minus => Move::Sign(Sign::Minus, known(gives)),
        Prefix::Complement => Move::Sign(Sign::Complement, known(gives)),
    }
}

// What an operator reaches from its operand, where the result has a kind.
fn reach(
    alloc: Global,
    environment: &Environment,
    prefix: &Prefix,
    gives: Option<Kind>,
    operand: Found,
) -> Result<Reached, Memory>
    ensures value { IfOk result (λ reached. shown.value_reached (seen environment.now) gives reached
        ≡ (before (seen environment.now) prefix.now gives (record { value = shown.value_reached (seen environment.now) operand.kind operand.reached; place = shown.place_reached operand.reached })).value) }
    ensures place { IfOk result (λ reached. shown.place_reached reached
        ≡ (before (seen environment.now) prefix.now gives (record { value = shown.value_reached (seen environment.now) operand.kind operand.reached; place = shown.place_reached operand.reached })).place) }
{
    if let Prefix::AddressOf = prefix {
        let place = place_reached(alloc, operand.reached);
        return Ok(Reached::Value(on(place, Move::Address)?));
    }
    let value = value_reached(environment, operand.kind, operand.reached)?;
    let code = on(value, move_of(prefix, gives))?;
    match prefix {
        Prefix::Deref => Ok(Reached::Place(code)),
        _ => Ok(Reached::Value(code)),
    }
}

fn apply(
    alloc: Global,
    environment: &Environment,
    operator: &PrefixOperator,
    operand: Found,
) -> Result<Found, Memory>
    ensures { IfOk result (λ found. found_seen (seen environment.now) found ≡ shown_before (seen environment.now) operator.now (found_seen (seen environment.now) operand)) }
{
    let kind = prefixed(environment, &operator.prefix, operand.kind)?;
    let reached = reach(alloc, environment, &operator.prefix, kind, operand)?;
    Ok(Found {
        kind,
        null: false,
        reached,
    })
}

/// Operators before a value, from the innermost outward.
pub fn apply_all(
    alloc: Global,
    environment: &Environment,
    mut operators: &[PrefixOperator],
    mut found: Found,
) -> Result<Found, Memory>
    ensures { IfOk result (λ after. found_seen (seen environment.now) after ≡ all_before (seen environment.now) operators.entry.now (found_seen (seen environment.now) found)) }
{
    while let [rest @ .., operator] = operators {
        found = apply(alloc, environment, operator, found)?;
        operators = rest;
    }
    Ok(found)
}
