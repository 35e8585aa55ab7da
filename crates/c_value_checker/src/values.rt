// Values: their kinds, and their faults.

ghost use Rattle.std.specs.Prelude.{◌≡◌, ◌++◌, [], ◌∷◌, map, IfOk, OnOk};
ghost use Rattle.c_tree.specs.Checks as spec;
ghost use Rattle.c_tree.specs.Words.{join};
ghost use Rattle.c_tree.specs.Faults.{outcome_faults, outcome_kind};
ghost use Rattle.c_value_checker.specs.Judgements.{checked_choice, checked_link, checked_shape, checked_suffix, choice_told, judged, part_faults};
ghost use Rattle.c_value_checker.specs.Noted.{noted};
ghost use Rattle.c_value_checker.specs.Seen.{seen};

use crate::environment::Environment;
use crate::faults::Findings;
use crate::judged::{Judged, JudgedChoice, Literal};
use crate::kinds::{INT, TEXT};
use crate::operations::{choose_all, combine, operand_kind};
use crate::outcome::{join, settle};
use crate::prefixes::check_prefixes;
use crate::singles::{
    check_offset, check_size, check_variable, constant_kind, function_kind, literal, number_kind,
    of_kind,
};
use c_tree::{Choice, Expr, Kind, Link, Operand, Shape, Span, Suffix};
use sqlite_items::Items;
use std::alloc::Global;
use vg_base::Memory;

/// Which literal a value is, and its kind. Its faults are noted.
#[cycle(value)]
pub fn check_value(
    alloc: Global,
    environment: &Environment,
    findings: &mut Findings,
    value: &Expr,
) -> Result<Judged, Memory>
    ensures value { IfOk result (λ found. found ≡ judged (seen environment.now) (spec.checked value.now).value) }
    ensures faults { OnOk result (findings.new ≡ noted findings.old ((spec.checked value.now).value.faults (seen environment.now))) }
{
    check_shape(alloc, environment, findings, &value.shape)
}

/// Which literal a value is, and its kind. Its faults are not asked for.
pub fn judge(alloc: Global, environment: &Environment, value: &Expr) -> Result<Judged, Memory>
    ensures { IfOk result (λ found. found ≡ judged (seen environment.now) (spec.checked value.now).value) }
{
    let mut ignored = Findings::new(None, 0);
    check_value(alloc, environment, &mut ignored, value)
}

/// The kind of a value, if it has one. Its faults are not asked for.
pub fn kind_of_value(
    alloc: Global,
    environment: &Environment,
    value: &Expr,
) -> Result<Option<Kind>, Memory>
    ensures { IfOk result (λ kind. kind ≡ (spec.checked value.now).value.kind (seen environment.now)) }
{
    let found = judge(alloc, environment, value)?;
    Ok(found.kind)
}

#[cycle(value)]
fn check_shape(
    alloc: Global,
    environment: &Environment,
    findings: &mut Findings,
    shape: &Shape,
) -> Result<Judged, Memory>
    ensures value { IfOk result (λ found. found ≡ judged (seen environment.now) (checked_shape shape.now)) }
    ensures faults { OnOk result (findings.new ≡ noted findings.old ((checked_shape shape.now).faults (seen environment.now))) }
{
    match shape {
        Shape::Number(number) => Ok(literal(
            Literal::Figure(false, number.value),
            number_kind(number.kind),
        )),
        Shape::Character(_) => Ok(of_kind(Some(INT))),
        Shape::Text(_) => Ok(of_kind(Some(TEXT))),
        Shape::Constant(constant) => Ok(literal(
            Literal::Word(*constant),
            constant_kind(*constant),
        )),
        Shape::Variable(name) => Ok(of_kind(check_variable(environment, findings, name))),
        Shape::Function(name) => Ok(of_kind(function_kind(environment, name))),
        Shape::Member(_) => Ok(of_kind(Some(INT))),
        Shape::SizeOf(declared, span) => {
            Ok(of_kind(check_size(environment, findings, declared, *span)?))
        }
        Shape::Offset(declared, name, span) => Ok(of_kind(check_offset(
            environment,
            findings,
            declared,
            name,
            *span,
        )?)),
        Shape::Prefix(operators, operand) => {
            let found = check_value(alloc, environment, findings, operand.get())?;
            check_prefixes(
                environment,
                findings,
                operators.as_slice(),
                found,
                operand.get().span,
            )
        }
        Shape::Postfix(value, suffixes) => {
            let found = check_value(alloc, environment, findings, value.get())?;
            check_suffixes(
                alloc,
                environment,
                findings,
                value.get().span,
                found.kind,
                suffixes.as_slice(),
            )
        }
        Shape::Chain(first, links) => {
            let found = check_value(alloc, environment, findings, first.get())?;
            check_links(
                alloc,
                environment,
                findings,
                first.get().span,
                found.operand(),
                links.as_slice(),
            )
        }
        Shape::Conditional(choices, last) => {
            let chosen = check_choices(alloc, environment, findings, choices.as_slice())?;
            let found = check_value(alloc, environment, findings, last.get())?;
            let operand = choose_all(findings, chosen, found.operand(), last.get().span);
            Ok(of_kind(operand_kind(operand)))
        }
    }
}

#[cycle(value)]
fn check_suffixes(
    alloc: Global,
    environment: &Environment,
    findings: &mut Findings,
    first: Span,
    mut kind: Option<Kind>,
    suffixes: &[Suffix],
) -> Result<Judged, Memory>
    ensures value { IfOk result (λ found. found ≡ record { literal = None; kind = spec.suffix_kind (seen environment.now) kind (map checked_suffix suffixes.now) }) }
    ensures faults { OnOk result (findings.new ≡ noted findings.old (spec.suffix_faults (seen environment.now) first kind (map checked_suffix suffixes.now))) }
{
    for suffix in suffixes {
        kind = check_suffix(alloc, environment, findings, first, kind, suffix)?;
    }
    Ok(of_kind(kind))
}

#[cycle(value)]
fn check_suffix(
    alloc: Global,
    environment: &Environment,
    findings: &mut Findings,
    first: Span,
    kind: Option<Kind>,
    suffix: &Suffix,
) -> Result<Option<Kind>, Memory>
    ensures value { IfOk result (λ found. found ≡ outcome_kind (spec.suffix_outcome (seen environment.now) kind (checked_suffix suffix.now))) }
    ensures faults { OnOk result (findings.new ≡ noted findings.old (spec.index_faults (seen environment.now) (checked_suffix suffix.now)
        ++ outcome_faults (spec.suffix_outcome (seen environment.now) kind (checked_suffix suffix.now)) (join first (spec.suffix_end (checked_suffix suffix.now))))) }
{
    match suffix {
        Suffix::Field(name) => Ok(settle(
            findings,
            environment.field(kind, name),
            join(first, name.span),
        )),
        Suffix::Arrow(name) => Ok(settle(
            findings,
            environment.arrow(kind, name),
            join(first, name.span),
        )),
        Suffix::Index(index, span) => {
            let found = check_value(alloc, environment, findings, index)?;
            Ok(settle(
                findings,
                environment.index(kind, found.kind),
                join(first, *span),
            ))
        }
    }
}

#[cycle(value)]
fn check_links(
    alloc: Global,
    environment: &Environment,
    findings: &mut Findings,
    first: Span,
    mut operand: Option<Operand>,
    links: &[Link],
) -> Result<Judged, Memory>
    ensures value { IfOk result (λ found. found ≡ record { literal = None; kind = spec.operand_kind (spec.chain_kind (seen environment.now) operand (map checked_link links.now)) }) }
    ensures faults { OnOk result (findings.new ≡ noted findings.old (spec.chain_faults (seen environment.now) first operand (map checked_link links.now))) }
{
    for link in links {
        operand = check_link(alloc, environment, findings, first, operand, link)?;
    }
    Ok(of_kind(operand_kind(operand)))
}

#[cycle(value)]
fn check_link(
    alloc: Global,
    environment: &Environment,
    findings: &mut Findings,
    first: Span,
    operand: Option<Operand>,
    link: &Link,
) -> Result<Option<Operand>, Memory>
    ensures value { IfOk result (λ after. after ≡ spec.joined (seen environment.now) (checked_link link.now).operator operand (spec.operand_of (seen environment.now) (checked_link link.now).operand)) }
    ensures faults { OnOk result (findings.new ≡ noted findings.old ((checked_link link.now).operand.value.faults (seen environment.now)
        ++ outcome_faults (spec.join_outcome (seen environment.now) (checked_link link.now).operator operand (spec.operand_of (seen environment.now) (checked_link link.now).operand)) (join first (checked_link link.now).operand.span))) }
{
    let found = check_value(alloc, environment, findings, &link.operand)?;
    Ok(combine(
        environment,
        findings,
        link.operator,
        operand,
        found.operand(),
        join(first, link.operand.span),
    ))
}

fn push(choices: &mut Items<JudgedChoice>, one: JudgedChoice) -> Result<(), Memory>
    ensures { OnOk result (choices.new ≡ choices.old ++ one ∷ []) }
{
    match choices.push(one) {
        Ok(()) => Ok(()),
        Err(_) => Err(Memory),
    }
}

#[cycle(value)]
fn check_choices(
    alloc: Global,
    environment: &Environment,
    findings: &mut Findings,
    choices: &[Choice],
) -> Result<Items<JudgedChoice>, Memory>
    ensures value { IfOk result (λ found. found ≡ map (choice_told (seen environment.now)) (map checked_choice choices.now)) }
    ensures faults { OnOk result (findings.new ≡ noted findings.old (part_faults (seen environment.now) (map checked_choice choices.now))) }
{
    let mut found = Items::new(alloc);
    for choice in choices {
        let one = check_choice(alloc, environment, findings, choice)?;
        push(&mut found, one)?;
    }
    Ok(found)
}

#[cycle(value)]
fn check_choice(
    alloc: Global,
    environment: &Environment,
    findings: &mut Findings,
    choice: &Choice,
) -> Result<JudgedChoice, Memory>
    ensures value { IfOk result (λ found. found ≡ choice_told (seen environment.now) (checked_choice choice.now)) }
    ensures faults { OnOk result (findings.new ≡ noted findings.old ((checked_choice choice.now).test.value.faults (seen environment.now) ++ (checked_choice choice.now).yes.value.faults (seen environment.now))) }
{
    let test = check_value(alloc, environment, findings, &choice.test)?;
    let yes = check_value(alloc, environment, findings, &choice.yes)?;
    Ok(JudgedChoice {
        span: choice.test.span,
        test: test.kind,
        yes: yes.operand(),
    })
}
