// What values come to as constants.

ghost use Rattle.std.specs.Prelude.{◌≡◌, [], ◌∷◌, map, IfOk};
ghost use Rattle.c_tree.specs.Checks as spec;
ghost use Rattle.c_tree.specs.Env.{kind_of};
ghost use Rattle.c_constants.specs.Choices.{chosen_before};
ghost use Rattle.c_constants.specs.Told.{worth_told};
ghost use Rattle.c_value_checker.specs.Judgements.{checked_choice, checked_link, checked_shape};
ghost use Rattle.c_value_checker.specs.Seen.{seen};

use crate::layout::{member_worth, place_worth, size_worth};
use crate::literals::{character_worth, constant_worth, text_worth};
use crate::operands::combine_told;
use crate::operators::prefix_told;
use crate::worth::{Datum, Worth, choose, in_kind, of_number};
use c_tree::{CType, Choice, Expr, Kind, Link, Name, Operand, PrefixOperator, Shape};
use c_value_checker::{Environment, chosen, joined, judge, kind_of_value, prefixed};
use std::alloc::Global;
use vg_base::Memory;

fn judged_operand(
    alloc: Global,
    environment: &Environment,
    value: &Expr,
) -> Result<Option<Operand>, Memory>
    ensures { IfOk result (λ operand. operand ≡ spec.operand_of (seen environment.now) (spec.checked value.now)) }
{
    let found = judge(alloc, environment, value)?;
    Ok(found.operand())
}

fn size<'a>(environment: &Environment, declared: &CType) -> Result<Worth<'a>, Memory>
    ensures { IfOk result (λ worth. worth_told worth ≡ spec.size_worth (seen environment.now) (kind_of (seen environment.now) declared.now)) }
{
    let kind = environment.kind_of(declared)?;
    Ok(of_number(size_worth(environment, kind)))
}

fn place<'a>(environment: &Environment, declared: &CType, name: &Name) -> Result<Worth<'a>, Memory>
    ensures { IfOk result (λ worth. worth_told worth ≡ spec.offset_worth (seen environment.now) (kind_of (seen environment.now) declared.now) name.now) }
{
    let kind = environment.kind_of(declared)?;
    let worth = place_worth(environment, kind, name)?;
    Ok(of_number(worth))
}

// Operators before a value of a kind that comes to that, from the innermost outward.
fn prefixes_worth<'a>(
    environment: &Environment,
    mut operators: &[PrefixOperator],
    mut kind: Option<Kind>,
    mut worth: Worth<'a>,
) -> Result<Worth<'a>, Memory>
    ensures { IfOk result (λ after. worth_told after ≡ spec.prefixes_worth (seen environment.now) operators.entry.now kind (worth_told worth.entry)) }
{
    while let [rest @ .., operator] = operators {
        kind = prefixed(environment, &operator.prefix, kind)?;
        worth = prefix_told(&operator.prefix, kind, worth)?;
        operators = rest;
    }
    Ok(worth)
}

/// What a value comes to.
#[cycle(worth)]
pub fn worth_of<'a>(
    alloc: Global,
    environment: &Environment,
    value: &'a Expr,
) -> Result<Worth<'a>, Memory>
    ensures { IfOk result (λ worth. worth_told worth ≡ (spec.checked value.now).value.worth (seen environment.now)) }
{
    shape_worth(alloc, environment, &value.shape)
}

#[cycle(worth)]
fn shape_worth<'a>(
    alloc: Global,
    environment: &Environment,
    shape: &'a Shape,
) -> Result<Worth<'a>, Memory>
    ensures { IfOk result (λ worth. worth_told worth ≡ (checked_shape shape.now).worth (seen environment.now)) }
{
    match shape {
        Shape::Number(number) => Ok(Worth::Is(Datum::Figure(number.value as i128))),
        Shape::Character(byte) => Ok(character_worth(*byte)),
        Shape::Text(bytes) => Ok(text_worth(bytes.as_slice())),
        Shape::Constant(constant) => Ok(constant_worth(*constant)),
        Shape::Variable(_) | Shape::Postfix(_, _) => Ok(Worth::Untold),
        Shape::Function(name) => Ok(Worth::Is(Datum::Code(name.text.as_slice()))),
        Shape::Member(name) => Ok(of_number(member_worth(environment, name))),
        Shape::SizeOf(declared, _) => size(environment, declared),
        Shape::Offset(declared, name, _) => place(environment, declared, name),
        Shape::Prefix(operators, operand) => {
            prefix_worth(alloc, environment, operators.as_slice(), operand.get())
        }
        Shape::Chain(first, links) => {
            let operand = judged_operand(alloc, environment, first.get())?;
            let worth = worth_of(alloc, environment, first.get())?;
            links_worth(alloc, environment, operand, worth, links.as_slice())
        }
        Shape::Conditional(choices, last) => {
            let operand = judged_operand(alloc, environment, last.get())?;
            let worth = worth_of(alloc, environment, last.get())?;
            choices_worth(alloc, environment, choices.as_slice(), operand, worth)
        }
    }
}

#[cycle(worth)]
fn prefix_worth<'a>(
    alloc: Global,
    environment: &Environment,
    operators: &[PrefixOperator],
    operand: &'a Expr,
) -> Result<Worth<'a>, Memory>
    ensures { IfOk result (λ worth. worth_told worth ≡ spec.prefixes_worth (seen environment.now) operators.now ((spec.checked operand.now).value.kind (seen environment.now)) ((spec.checked operand.now).value.worth (seen environment.now))) }
{
    let kind = kind_of_value(alloc, environment, operand)?;
    let worth = worth_of(alloc, environment, operand)?;
    prefixes_worth(environment, operators, kind, worth)
}

// What is known of the operand of a link.
#[tactic(auto, using(c_value_checker::proofs::ValueLemmas::link_known))]
fn link_operand(
    alloc: Global,
    environment: &Environment,
    link: &Link,
) -> Result<Option<Operand>, Memory>
    ensures { IfOk result (λ operand. operand ≡ spec.operand_of (seen environment.now) (checked_link link.now).operand) }
{
    judged_operand(alloc, environment, &link.operand)
}

// What a link gives behind an operand.
#[tactic(auto, using(c_value_checker::proofs::ValueLemmas::link_known))]
fn link_joined(
    environment: &Environment,
    operand: Option<Operand>,
    other: Option<Operand>,
    link: &Link,
) -> Option<Operand>
    ensures { result ≡ spec.joined (seen environment.now) (checked_link link.now).operator operand other }
{
    joined(environment, link.operator, operand, other)
}

#[cycle(worth)]
fn links_worth<'a>(
    alloc: Global,
    environment: &Environment,
    mut operand: Option<Operand>,
    mut worth: Worth<'a>,
    links: &'a [Link],
) -> Result<Worth<'a>, Memory>
    ensures { IfOk result (λ after. worth_told after ≡ spec.chain_worth (seen environment.now) operand (worth_told worth.entry) (map checked_link links.now)) }
{
    for link in links {
        let other = link_operand(alloc, environment, link)?;
        worth = link_worth(alloc, environment, operand, worth, other, link)?;
        operand = link_joined(environment, operand, other, link);
    }
    Ok(worth)
}

#[cycle(worth)]
fn link_worth<'a>(
    alloc: Global,
    environment: &Environment,
    operand: Option<Operand>,
    worth: Worth<'a>,
    other: Option<Operand>,
    link: &'a Link,
) -> Result<Worth<'a>, Memory>
    ensures { IfOk result (λ after. worth_told after ≡ spec.told_both (seen environment.now) (checked_link link.now).operator operand other (worth_told worth.entry) ((checked_link link.now).operand.value.worth (seen environment.now))) }
{
    let second = worth_of(alloc, environment, &link.operand)?;
    combine_told(environment, link.operator, operand, other, worth, second)
}

// Choices before a value of that kind that comes to that, from the last one on.
#[cycle(worth)]
fn choices_worth<'a>(
    alloc: Global,
    environment: &Environment,
    choices: &'a [Choice],
    mut operand: Option<Operand>,
    mut worth: Worth<'a>,
) -> Result<Worth<'a>, Memory>
    ensures { IfOk result (λ after. worth_told after ≡ chosen_before (seen environment.now) (map checked_choice choices.now) operand (worth_told worth.entry)) }
{
    let mut index = choices.len();
    while index > 0 {
        index -= 1;
        let choice = &choices[index];
        let picked = choice_worth(alloc, environment, choice, worth)?;
        operand = choice_operand(alloc, environment, choice, operand)?;
        worth = in_kind(operand, picked);
    }
    Ok(worth)
}

// The value that a condition chooses.
#[cycle(worth)]
fn choice_worth<'a>(
    alloc: Global,
    environment: &Environment,
    choice: &'a Choice,
    other: Worth<'a>,
) -> Result<Worth<'a>, Memory>
    ensures { IfOk result (λ worth. worth_told worth ≡ spec.chosen_worth ((checked_choice choice.now).test.value.worth (seen environment.now)) ((checked_choice choice.now).yes.value.worth (seen environment.now)) (worth_told other.entry)) }
{
    let test = worth_of(alloc, environment, &choice.test)?;
    let yes = worth_of(alloc, environment, &choice.yes)?;
    Ok(choose(test, yes, other))
}

// What a choice gives, by what stands behind it.
#[tactic(auto, using(c_value_checker::proofs::ValueLemmas::choice_known))]
fn choice_operand(
    alloc: Global,
    environment: &Environment,
    choice: &Choice,
    other: Option<Operand>,
) -> Result<Option<Operand>, Memory>
    ensures { IfOk result (λ operand. operand ≡ spec.choice_operand (seen environment.now) (checked_choice choice.now ∷ []) other) }
{
    let test = kind_of_value(alloc, environment, &choice.test)?;
    let yes = judged_operand(alloc, environment, &choice.yes)?;
    Ok(chosen(test, yes, other))
}
