// Operators before an operand.

ghost use Rattle.std.specs.Prelude.{◌≡◌, [], ◌∷◌, IfOk, OnOk};
ghost use Rattle.c_tree.specs.Checks as spec;
ghost use Rattle.c_tree.specs.Env.{kind_of};
ghost use Rattle.c_tree.specs.Faults.{on, outcome_kind, Gives};
ghost use Rattle.c_tree.specs.Kinds.{pointer_to};
ghost use Rattle.c_value_checker.specs.Noted.{noted};
ghost use Rattle.c_value_checker.specs.Outcomes.{told};
ghost use Rattle.c_value_checker.specs.Prefixes.{casts_faults, operators_faults, signed_told};
ghost use Rattle.c_value_checker.specs.Seen.{seen};

use crate::environment::Environment;
use crate::faults::Findings;
use crate::judged::{Judged, Literal};
use crate::kinds::{INT, casts, is_integer, is_scalar, widened};
use crate::layout::target;
use crate::outcome::{Outcome, given_if, join, settle};
use c_tree::{CType, Kind, Prefix, PrefixOperator, Span};
use vg_base::Memory;

fn address_of(kind: Kind) -> Result<Outcome, Memory>
    ensures { IfOk result (λ outcome. outcome ≡ told (Gives (pointer_to kind))) }
{
    match kind.stars.checked_add(1) {
        None => Err(Memory),
        Some(stars) => Ok(Outcome::Gives(Kind {
            base: kind.base,
            stars,
        })),
    }
}

fn cast_to(to: Option<Kind>, kind: Kind) -> Outcome
    ensures { result ≡ told (spec.cast_outcome to kind) }
{
    match to {
        None => Outcome::Silent,
        Some(to) => given_if(casts(to, kind), to),
    }
}

fn cast(environment: &Environment, declared: &CType, kind: Kind) -> Result<Outcome, Memory>
    ensures { IfOk result (λ outcome. outcome ≡ told (spec.cast_outcome (kind_of (seen environment.now) declared.now) kind)) }
{
    let to = environment.kind_of(declared)?;
    Ok(cast_to(to, kind))
}

// What an operator gives of a kind.
fn prefix_of(environment: &Environment, prefix: &Prefix, kind: Kind) -> Result<Outcome, Memory>
    ensures { IfOk result (λ outcome. outcome ≡ told (spec.prefix_by (seen environment.now) prefix.now kind)) }
{
    match prefix {
        Prefix::Plus | Prefix::Minus | Prefix::Complement => {
            Ok(given_if(is_integer(kind), widened(kind)))
        }
        Prefix::Not => Ok(given_if(is_scalar(kind), INT)),
        Prefix::Deref => Ok(given_if(environment.reaches(kind), target(kind))),
        Prefix::AddressOf => address_of(kind),
        Prefix::Cast(declared) => cast(environment, declared, kind),
    }
}

fn prefix_outcome(
    environment: &Environment,
    prefix: &Prefix,
    kind: Option<Kind>,
) -> Result<Outcome, Memory>
    ensures { IfOk result (λ outcome. outcome ≡ told (on kind (spec.prefix_by (seen environment.now) prefix.now))) }
{
    match kind {
        None => Ok(Outcome::Silent),
        Some(kind) => prefix_of(environment, prefix, kind),
    }
}

/// The kind that an operator gives of one.
#[tactic(auto, using(crate::proofs::OutcomeLemmas::told_kind))]
pub fn prefixed(
    environment: &Environment,
    prefix: &Prefix,
    kind: Option<Kind>,
) -> Result<Option<Kind>, Memory>
    ensures { IfOk result (λ after. after ≡ outcome_kind (on kind (spec.prefix_by (seen environment.now) prefix.now))) }
{
    let outcome = prefix_outcome(environment, prefix, kind)?;
    Ok(outcome.kind())
}

fn check_cast(environment: &Environment, findings: &mut Findings, prefix: &Prefix)
    ensures { findings.new ≡ noted findings.old (spec.cast_faults (seen environment.now) prefix.now) }
{
    if let Prefix::Cast(declared) = prefix {
        environment.check_type(findings, declared);
    }
}

fn check_casts(environment: &Environment, findings: &mut Findings, operators: &[PrefixOperator])
    ensures { findings.new ≡ noted findings.old (casts_faults (seen environment.now) operators.now) }
{
    for operator in operators {
        check_cast(environment, findings, &operator.prefix);
    }
}

fn apply(
    environment: &Environment,
    findings: &mut Findings,
    operator: &PrefixOperator,
    kind: Option<Kind>,
    last: Span,
) -> Result<Option<Kind>, Memory>
    ensures value { IfOk result (λ after. after ≡ spec.prefix_kind (seen environment.now) (operator.now ∷ []) kind) }
    ensures faults { OnOk result (findings.new ≡ noted findings.old (operators_faults (seen environment.now) (operator.now ∷ []) kind last)) }
{
    let outcome = prefix_outcome(environment, &operator.prefix, kind)?;
    Ok(settle(findings, outcome, join(operator.span, last)))
}

// From the innermost outward.
fn apply_all(
    environment: &Environment,
    findings: &mut Findings,
    mut operators: &[PrefixOperator],
    mut kind: Option<Kind>,
    last: Span,
) -> Result<Option<Kind>, Memory>
    ensures value { IfOk result (λ after. after ≡ spec.prefix_kind (seen environment.now) operators.entry.now kind) }
    ensures faults { OnOk result (findings.new ≡ noted findings.old (operators_faults (seen environment.now) operators.entry.now kind last)) }
{
    while let [rest @ .., operator] = operators {
        kind = apply(environment, findings, operator, kind, last)?;
        operators = rest;
    }
    Ok(kind)
}

// A number with `-` before it is a literal too.
fn signed_literal(operators: &[PrefixOperator], literal: Option<Literal>) -> Option<Literal>
    ensures { result ≡ signed_told operators.now literal }
{
    match (operators, literal) {
        ([], literal) => literal,
        ([only], Some(Literal::Figure(false, number))) => match &only.prefix {
            Prefix::Minus => Some(Literal::Figure(true, number)),
            _ => None,
        },
        _ => None,
    }
}

/// Operators before a value that was checked and ends there.
#[tactic(auto, using(crate::proofs::NotedLemmas::noted_append))]
pub fn check_prefixes(
    environment: &Environment,
    findings: &mut Findings,
    operators: &[PrefixOperator],
    operand: Judged,
    last: Span,
) -> Result<Judged, Memory>
    ensures value { IfOk result (λ after. after ≡ record { literal = signed_told operators.now operand.literal; kind = spec.prefix_kind (seen environment.now) operators.now operand.kind }) }
    ensures faults { OnOk result (findings.new ≡ noted findings.old (spec.prefix_faults (seen environment.now) operators.now operand.kind last)) }
{
    check_casts(environment, findings, operators);
    let kind = apply_all(environment, findings, operators, operand.kind, last)?;
    Ok(Judged {
        literal: signed_literal(operators, operand.literal),
        kind,
    })
}
