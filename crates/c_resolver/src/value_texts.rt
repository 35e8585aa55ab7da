// The text literals of values.

ghost use Rattle.std.specs.Prelude.{◌≡◌, [], ◌∷◌, ◌++◌, map, OnOk};
ghost use Rattle.c_meaning.specs.Code as spec;
ghost use Rattle.c_resolver.specs.Shown.{literal_seen};
ghost use Rattle.c_resolver.specs.Texts.{choice_literals, link_literals, shape_literals, suffix_literals};

use crate::chains::push;
use crate::labels::copied;
use crate::tables::Literal;
use c_tree::{Choice, Expr, Link, Shape, Suffix};
use sqlite_items::Items;
use std::alloc::Global;
use vg_base::Memory;

fn add_text(
    alloc: Global,
    literals: &mut Items<Literal>,
    start: u32,
    text: &[u8],
) -> Result<(), Memory>
    ensures { OnOk result (map literal_seen literals.new ≡ map literal_seen literals.old ++ record { start = start; bytes = text.now } ∷ []) }
{
    let bytes = copied(alloc, text)?;
    push(literals, Literal { start, bytes })
}

/// The text literals of a value.
#[cycle(literals)]
pub fn add_value(alloc: Global, literals: &mut Items<Literal>, value: &Expr) -> Result<(), Memory>
    ensures { OnOk result (map literal_seen literals.new ≡ map literal_seen literals.old ++ spec.texts_of value.now) }
{
    add_shape(alloc, literals, &value.shape, value.span.start)
}

#[cycle(literals)]
fn add_shape(
    alloc: Global,
    literals: &mut Items<Literal>,
    shape: &Shape,
    start: u32,
) -> Result<(), Memory>
    ensures { OnOk result (map literal_seen literals.new ≡ map literal_seen literals.old ++ shape_literals shape.now start) }
{
    match shape {
        Shape::Text(bytes) => add_text(alloc, literals, start, bytes.as_slice()),
        Shape::Prefix(_, operand) => add_value(alloc, literals, operand.get()),
        Shape::Postfix(value, suffixes) => {
            add_value(alloc, literals, value.get())?;
            add_suffixes(alloc, literals, suffixes.as_slice())
        }
        Shape::Chain(first, links) => {
            add_value(alloc, literals, first.get())?;
            add_links(alloc, literals, links.as_slice())
        }
        Shape::Conditional(choices, last) => {
            add_choices(alloc, literals, choices.as_slice())?;
            add_value(alloc, literals, last.get())
        }
        _ => Ok(()),
    }
}

#[cycle(literals)]
fn add_suffixes(
    alloc: Global,
    literals: &mut Items<Literal>,
    suffixes: &[Suffix],
) -> Result<(), Memory>
    ensures { OnOk result (map literal_seen literals.new ≡ map literal_seen literals.old ++ spec.link_texts (map suffix_literals suffixes.now)) }
{
    for suffix in suffixes {
        add_suffix(alloc, literals, suffix)?;
    }
    Ok(())
}

#[cycle(literals)]
fn add_suffix(alloc: Global, literals: &mut Items<Literal>, suffix: &Suffix) -> Result<(), Memory>
    ensures { OnOk result (map literal_seen literals.new ≡ map literal_seen literals.old ++ suffix_literals suffix.now) }
{
    match suffix {
        Suffix::Index(index, _) => add_value(alloc, literals, index),
        Suffix::Field(_) | Suffix::Arrow(_) => Ok(()),
    }
}

#[cycle(literals)]
fn add_links(alloc: Global, literals: &mut Items<Literal>, links: &[Link]) -> Result<(), Memory>
    ensures { OnOk result (map literal_seen literals.new ≡ map literal_seen literals.old ++ spec.link_texts (map link_literals links.now)) }
{
    for link in links {
        add_link(alloc, literals, link)?;
    }
    Ok(())
}

#[cycle(literals)]
fn add_link(alloc: Global, literals: &mut Items<Literal>, link: &Link) -> Result<(), Memory>
    ensures { OnOk result (map literal_seen literals.new ≡ map literal_seen literals.old ++ link_literals link.now) }
{
    add_value(alloc, literals, &link.operand)
}

#[cycle(literals)]
fn add_choices(
    alloc: Global,
    literals: &mut Items<Literal>,
    choices: &[Choice],
) -> Result<(), Memory>
    ensures { OnOk result (map literal_seen literals.new ≡ map literal_seen literals.old ++ spec.link_texts (map choice_literals choices.now)) }
{
    for choice in choices {
        add_choice(alloc, literals, choice)?;
    }
    Ok(())
}

#[cycle(literals)]
fn add_choice(alloc: Global, literals: &mut Items<Literal>, choice: &Choice) -> Result<(), Memory>
    ensures { OnOk result (map literal_seen literals.new ≡ map literal_seen literals.old ++ choice_literals choice.now) }
{
    add_value(alloc, literals, &choice.test)?;
    add_value(alloc, literals, &choice.yes)
}
