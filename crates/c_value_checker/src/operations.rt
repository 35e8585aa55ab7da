// Operators between operands, and choices.

ghost use Rattle.std.specs.Prelude.{◌≡◌, false};
ghost use Rattle.c_tree.specs.Checks as spec;
ghost use Rattle.c_tree.specs.Faults.{outcome_faults, outcome_kind};
ghost use Rattle.c_tree.specs.Words.{join};
ghost use Rattle.c_value_checker.specs.Choices.{all_chosen, chosen_faults, one_chosen};
ghost use Rattle.c_value_checker.specs.Noted.{noted};
ghost use Rattle.c_value_checker.specs.Outcomes.{told};
ghost use Rattle.c_value_checker.specs.Seen.{seen};

use crate::environment::Environment;
use crate::faults::Findings;
use crate::judged::JudgedChoice;
use crate::kinds::{applied, choose, is_scalar};
use crate::outcome::{Outcome, given, join, settle};
use c_tree::{BinaryOperator, Kind, Operand, Span};
use sqlite_items::Items;

/// A kind as an operand that is not the word `NULL`.
pub fn operand_if(kind: Option<Kind>) -> Option<Operand>
    ensures { result ≡ spec.operand_if kind false }
{
    match kind {
        None => None,
        Some(kind) => Some(Operand { kind, null: false }),
    }
}

/// The kind of an operand.
pub fn operand_kind(operand: Option<Operand>) -> Option<Kind>
    ensures { result ≡ spec.operand_kind operand }
{
    match operand {
        None => None,
        Some(operand) => Some(operand.kind),
    }
}

fn of_two(environment: &Environment, operator: BinaryOperator, a: Operand, b: Operand) -> Outcome
    ensures { result ≡ told (spec.join_outcome (seen environment.now) operator (Some a) (Some b)) }
{
    given(applied(environment.reaches(a.kind), operator, a, b))
}

fn join_outcome(
    environment: &Environment,
    operator: BinaryOperator,
    a: Option<Operand>,
    b: Option<Operand>,
) -> Outcome
    ensures { result ≡ told (spec.join_outcome (seen environment.now) operator a b) }
{
    match (a, b) {
        (Some(a), Some(b)) => of_two(environment, operator, a, b),
        _ => Outcome::Silent,
    }
}

/// What an operator gives of two operands that stand there.
pub fn combine(
    environment: &Environment,
    findings: &mut Findings,
    operator: BinaryOperator,
    a: Option<Operand>,
    b: Option<Operand>,
    span: Span,
) -> Option<Operand>
    ensures value { result ≡ spec.joined (seen environment.now) operator a b }
    ensures faults { findings.new ≡ noted findings.old (outcome_faults (spec.join_outcome (seen environment.now) operator a b) span) }
{
    let outcome = join_outcome(environment, operator, a, b);
    operand_if(settle(findings, outcome, span))
}

/// What an operator gives of two operands.
#[tactic(auto, using(crate::proofs::OutcomeLemmas::told_kind))]
pub fn joined(
    environment: &Environment,
    operator: BinaryOperator,
    a: Option<Operand>,
    b: Option<Operand>,
) -> Option<Operand>
    ensures { result ≡ spec.joined (seen environment.now) operator a b }
{
    operand_if(join_outcome(environment, operator, a, b).kind())
}

fn choice_outcome(test: Option<Kind>, yes: Option<Operand>, no: Option<Operand>) -> Outcome
    ensures { result ≡ told (spec.choice_outcome test yes no) }
{
    match (test, yes, no) {
        (Some(test), Some(yes), Some(no)) => {
            if is_scalar(test) {
                given(choose(yes, no))
            } else {
                Outcome::Wrong
            }
        }
        _ => Outcome::Silent,
    }
}

/// What a choice gives of its last two.
#[tactic(auto, using(crate::proofs::OutcomeLemmas::told_kind))]
pub fn chosen(test: Option<Kind>, yes: Option<Operand>, no: Option<Operand>) -> Option<Operand>
    ensures { result ≡ spec.operand_if (outcome_kind (spec.choice_outcome test yes no)) false }
{
    operand_if(choice_outcome(test, yes, no).kind())
}

fn choose_one(
    findings: &mut Findings,
    choice: JudgedChoice,
    no: Option<Operand>,
    last: Span,
) -> Option<Operand>
    ensures value { result ≡ one_chosen choice no }
    ensures faults { findings.new ≡ noted findings.old (outcome_faults (spec.choice_outcome choice.test choice.yes no) (join choice.span last)) }
{
    let outcome = choice_outcome(choice.test, choice.yes, no);
    operand_if(settle(findings, outcome, join(choice.span, last)))
}

/// What a row of choices gives before a value that ends there, from the last choice on.
pub fn choose_all(
    findings: &mut Findings,
    mut choices: Items<JudgedChoice>,
    mut no: Option<Operand>,
    last: Span,
) -> Option<Operand>
    ensures value { result ≡ all_chosen choices no }
    ensures faults { findings.new ≡ noted findings.old (chosen_faults choices no last) }
{
    while let Some(choice) = choices.pop() {
        no = choose_one(findings, choice, no, last);
    }
    no
}
