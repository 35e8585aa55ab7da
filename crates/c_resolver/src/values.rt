// The code of values.

ghost use Rattle.std.specs.Prelude.{◌≡◌, [], ◌∷◌, map, reverse, IfOk};
ghost use Rattle.c_tree.specs.Checks as checks;
ghost use Rattle.c_value_checker.specs.Seen.{seen};
ghost use Rattle.c_code.specs.Resolved as spec;
ghost use Rattle.c_code.specs.Resolved.{resolved};
ghost use Rattle.c_resolver.specs.Parts.{resolved_choice, resolved_link, resolved_shape, resolved_suffix};
ghost use Rattle.c_resolver.specs.Shown.{found_seen, level_shown, looks, shown};
ghost use Rattle.c_resolver.specs.Steps.{all_behind, alternative, alternatives_by, as_place, chain_told, choice_told, shown_behind};

use crate::chains::{Chained, Chosen, Linked, Picked, add, chain, conditional, join, pick, push};
use crate::found::{Found, Reached, operand, place_reached, value_reached};
use crate::names::{character, constant, function, member, number, place_in, size, text, variable};
use crate::prefixes::apply_all;
use crate::scope::Scope;
use crate::suffixes::{arrow, element, field};
use crate::tables::Tables;
use c_tree::{Choice, Expr, Link, Operand, Shape, Suffix};
use sqlite_items::Items;
use std::alloc::Global;
use vg_base::Memory;

/// The kind and the code of a value.
#[cycle(value)]
pub fn resolve(alloc: Global, scope: &Scope, tables: &Tables, value: &Expr) -> Result<Found, Memory>
    ensures { IfOk result (λ found. found_seen (seen scope.now.environment) found ≡ shown (looks tables.now scope.now) (resolved value.now)) }
{
    resolve_shape(alloc, scope, tables, &value.shape, value.span.start)
}

#[cycle(value)]
fn resolve_shape(
    alloc: Global,
    scope: &Scope,
    tables: &Tables,
    shape: &Shape,
    start: u32,
) -> Result<Found, Memory>
    ensures { IfOk result (λ found. found_seen (seen scope.now.environment) found ≡ level_shown (looks tables.now scope.now) start (resolved_shape shape.now)) }
{
    match shape {
        Shape::Number(written) => Ok(number(alloc, scope, tables, *written, start)),
        Shape::Character(byte) => Ok(character(alloc, scope, tables, *byte, start)),
        Shape::Text(bytes) => Ok(text(alloc, scope, tables, bytes.as_slice(), start)),
        Shape::Constant(name) => Ok(constant(alloc, scope, tables, *name, start)),
        Shape::Variable(name) => Ok(variable(alloc, scope, tables, name, start)),
        Shape::Function(name) => Ok(function(alloc, scope, tables, name, start)),
        Shape::Member(name) => Ok(member(alloc, scope, tables, name, start)),
        Shape::SizeOf(declared, span) => size(alloc, scope, tables, declared, *span, start),
        Shape::Offset(declared, name, span) => {
            place_in(alloc, scope, tables, declared, name, *span, start)
        }
        Shape::Prefix(operators, operand) => {
            let found = resolve(alloc, scope, tables, operand.get())?;
            apply_all(alloc, &scope.environment, operators.as_slice(), found)
        }
        Shape::Postfix(value, suffixes) => {
            let found = resolve(alloc, scope, tables, value.get())?;
            resolve_suffixes(alloc, scope, tables, found, suffixes.as_slice())
        }
        Shape::Chain(first, links) => {
            let found = resolve(alloc, scope, tables, first.get())?;
            resolve_chain(alloc, scope, tables, found, links.as_slice())
        }
        Shape::Conditional(choices, last) => {
            let found = resolve(alloc, scope, tables, last.get())?;
            resolve_conditional(alloc, scope, tables, choices.as_slice(), found)
        }
    }
}

#[cycle(value)]
fn resolve_suffixes(
    alloc: Global,
    scope: &Scope,
    tables: &Tables,
    mut found: Found,
    suffixes: &[Suffix],
) -> Result<Found, Memory>
    ensures { IfOk result (λ after. found_seen (seen scope.now.environment) after ≡ as_place (seen scope.now.environment) (all_behind (looks tables.now scope.now) (found_seen (seen scope.now.environment) found) (map resolved_suffix suffixes.now))) }
{
    for suffix in suffixes {
        found = resolve_suffix(alloc, scope, tables, found, suffix)?;
    }
    Ok(Found {
        kind: found.kind,
        null: false,
        reached: Reached::Place(place_reached(alloc, found.reached)),
    })
}

#[cycle(value)]
fn resolve_suffix(
    alloc: Global,
    scope: &Scope,
    tables: &Tables,
    found: Found,
    suffix: &Suffix,
) -> Result<Found, Memory>
    ensures { IfOk result (λ after. found_seen (seen scope.now.environment) after ≡ shown_behind (looks tables.now scope.now) (found_seen (seen scope.now.environment) found) (resolved_suffix suffix.now)) }
{
    match suffix {
        Suffix::Field(name) => field(alloc, &scope.environment, found, name),
        Suffix::Arrow(name) => arrow(&scope.environment, found, name),
        Suffix::Index(index, _) => {
            let at = resolve(alloc, scope, tables, index)?;
            element(&scope.environment, found, at)
        }
    }
}

// `a + b - c`
#[cycle(value)]
fn resolve_chain(
    alloc: Global,
    scope: &Scope,
    tables: &Tables,
    first: Found,
    links: &[Link],
) -> Result<Found, Memory>
    ensures { IfOk result (λ found. found_seen (seen scope.now.environment) found ≡ chain_told (looks tables.now scope.now) (found_seen (seen scope.now.environment) first) (map resolved_link links.now)) }
{
    let start = operand(first.kind, first.null);
    let chained = resolve_links(alloc, scope, tables, start, links)?;
    let value = value_reached(&scope.environment, first.kind, first.reached)?;
    chain(alloc, value, chained)
}

#[cycle(value)]
fn resolve_links(
    alloc: Global,
    scope: &Scope,
    tables: &Tables,
    mut operand: Option<Operand>,
    links: &[Link],
) -> Result<Chained, Memory>
    ensures operations { IfOk result (λ chained. chained.operations ≡ spec.operations (looks tables.now scope.now) operand (map resolved_link links.now)) }
    ensures operand { IfOk result (λ chained. chained.operand ≡ checks.chain_kind (seen scope.now.environment) operand (spec.known_links (map resolved_link links.now))) }
{
    let mut operations = Items::new(alloc);
    for link in links {
        let linked = resolve_link(alloc, scope, tables, operand, link)?;
        operand = linked.operand;
        push(&mut operations, linked.operation)?;
    }
    Ok(Chained {
        operations,
        operand,
    })
}

#[cycle(value)]
fn resolve_link(
    alloc: Global,
    scope: &Scope,
    tables: &Tables,
    left: Option<Operand>,
    link: &Link,
) -> Result<Linked, Memory>
    ensures operation { IfOk result (λ linked. linked.operation ≡ spec.operation (looks tables.now scope.now) left (resolved_link link.now)) }
    ensures operand { IfOk result (λ linked. linked.operand ≡ checks.joined (seen scope.now.environment) (resolved_link link.now).operator left (checks.operand_of (seen scope.now.environment) (resolved_link link.now).operand.known)) }
{
    let found = resolve(alloc, scope, tables, &link.operand)?;
    join(&scope.environment, link.operator, left, found)
}

// `a ? b : c ? d : e`
#[cycle(value)]
fn resolve_conditional(
    alloc: Global,
    scope: &Scope,
    tables: &Tables,
    choices: &[Choice],
    last: Found,
) -> Result<Found, Memory>
    ensures { IfOk result (λ found. found_seen (seen scope.now.environment) found ≡ choice_told (looks tables.now scope.now) (map resolved_choice choices.now) (found_seen (seen scope.now.environment) last)) }
{
    let other = operand(last.kind, last.null);
    let chosen = resolve_choices(alloc, scope, tables, choices, other)?;
    let value = value_reached(&scope.environment, last.kind, last.reached)?;
    conditional(alloc, chosen, value)
}

// From the last choice on.
#[cycle(value)]
fn resolve_choices(
    alloc: Global,
    scope: &Scope,
    tables: &Tables,
    choices: &[Choice],
    mut operand: Option<Operand>,
) -> Result<Chosen, Memory>
    ensures alternatives { IfOk result (λ chosen. reverse chosen.alternatives.items ≡ alternatives_by (looks tables.now scope.now) (map resolved_choice choices.now) operand) }
    ensures operand { IfOk result (λ chosen. chosen.operand ≡ checks.choice_operand (seen scope.now.environment) (spec.known_choices (map resolved_choice choices.now)) operand) }
{
    let mut alternatives = Vec::new(alloc);
    let mut index = choices.len();
    while index > 0 {
        index -= 1;
        let picked = resolve_choice(alloc, scope, tables, &choices[index], operand)?;
        operand = picked.operand;
        add(&mut alternatives, picked.alternative)?;
    }
    Ok(Chosen {
        alternatives,
        operand,
    })
}

#[cycle(value)]
fn resolve_choice(
    alloc: Global,
    scope: &Scope,
    tables: &Tables,
    choice: &Choice,
    other: Option<Operand>,
) -> Result<Picked, Memory>
    ensures alternative { IfOk result (λ picked. picked.alternative ≡ alternative (looks tables.now scope.now) (resolved_choice choice.now) picked.operand) }
    ensures operand { IfOk result (λ picked. picked.operand ≡ checks.choice_operand (seen scope.now.environment) (spec.known_choices (resolved_choice choice.now ∷ [])) other) }
{
    let test = resolve(alloc, scope, tables, &choice.test)?;
    let yes = resolve(alloc, scope, tables, &choice.yes)?;
    pick(&scope.environment, test, yes, other)
}
