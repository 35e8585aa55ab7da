// Writes items and units.

ghost use Rattle.std.specs.Prelude.{◌≡◌, ◌∷◌, ◌++◌, None, OnOk};
ghost use Rattle.c_printer.specs.Marks.{Wrote};
ghost use Rattle.c_printer.specs.PutItems as spec;

use crate::functions::{put_function, put_function_type, put_named, put_prototype};
use crate::grade::{Brackets, Place};
use crate::group::Group;
use crate::includes::put_include;
use crate::layouts::{put_enum, put_fields, put_struct_type};
use crate::output::Writer;
use crate::piece::Piece;
use crate::values::{put_sign, put_value};
use c_lexer::{Constant, Keyword, Sign};
use c_tree::{InterfaceTable, Item, Name, StaticVariable, Unit};
use std::alloc::Global;
use vg_base::Memory;

#[tactic(auto, using(crate::proofs::MarkLemmas::put_append))]
fn put_variable(
    alloc: Global,
    out: &mut Writer,
    brackets: Brackets,
    variable: &StaticVariable,
) -> Result<(), Memory>
    ensures { OnOk result (Wrote out.old (spec.variable_marks brackets variable.now) out.new) }
{
    out.token(alloc, Piece::Keyword(Keyword::Static))?;
    out.space()?;
    put_named(alloc, out, &variable.declared, &variable.name)?;
    put_sign(alloc, out, Sign::Assign)?;
    put_value(alloc, out, brackets, Place::Anywhere, &variable.value)?;
    out.token(alloc, Piece::Sign(Sign::Semicolon))
}

// `static const GInterfaceInfo `
fn put_interface_type(alloc: Global, out: &mut Writer) -> Result<(), Memory>
    ensures { OnOk result (Wrote out.old spec.interface_type_marks out.new) }
{
    out.token(alloc, Piece::Keyword(Keyword::Static))?;
    out.space()?;
    out.token(alloc, Piece::Keyword(Keyword::Const))?;
    out.space()?;
    out.token(alloc, Piece::Name(b"GInterfaceInfo".as_slice()))?;
    out.space()
}

// `(GInterfaceInitFunc) `
fn put_init_cast(alloc: Global, out: &mut Writer) -> Result<(), Memory>
    ensures { OnOk result (Wrote out.old spec.init_cast_marks out.new) }
{
    out.token(alloc, Piece::Sign(Sign::OpenParen))?;
    out.token(alloc, Piece::Name(b"GInterfaceInitFunc".as_slice()))?;
    out.token(alloc, Piece::Sign(Sign::CloseParen))?;
    out.space()
}

// `, NULL`
fn put_null(alloc: Global, out: &mut Writer) -> Result<(), Memory>
    ensures { OnOk result (Wrote out.old spec.null_marks out.new) }
{
    out.token(alloc, Piece::Sign(Sign::Comma))?;
    out.space()?;
    out.token(alloc, Piece::Constant(Constant::Null))
}

// `(GInterfaceInitFunc) f, NULL, NULL`
#[tactic(auto, using(crate::proofs::MarkLemmas::put_append))]
fn put_entries(alloc: Global, out: &mut Writer, init: &Name) -> Result<(), Memory>
    ensures { OnOk result (Wrote out.old (spec.entries_marks init.now) out.new) }
{
    put_init_cast(alloc, out)?;
    out.token(alloc, Piece::Name(init.text.as_slice()))?;
    put_null(alloc, out)?;
    put_null(alloc, out)
}

#[tactic(auto, using(crate::proofs::MarkLemmas::put_append))]
fn put_table(alloc: Global, out: &mut Writer, init: &Name) -> Result<(), Memory>
    ensures { OnOk result (Wrote out.old (spec.table_marks init.now) out.new) }
{
    out.token(alloc, Piece::Sign(Sign::OpenBrace))?;
    out.space()?;
    put_entries(alloc, out, init)?;
    out.space()?;
    out.token(alloc, Piece::Sign(Sign::CloseBrace))?;
    out.token(alloc, Piece::Sign(Sign::Semicolon))
}

#[tactic(auto, using(crate::proofs::MarkLemmas::put_append))]
fn put_interface(alloc: Global, out: &mut Writer, table: &InterfaceTable) -> Result<(), Memory>
    ensures { OnOk result (Wrote out.old (spec.interface_marks table.now) out.new) }
{
    put_interface_type(alloc, out)?;
    out.token(alloc, Piece::Name(table.name.text.as_slice()))?;
    put_sign(alloc, out, Sign::Assign)?;
    put_table(alloc, out, &table.init)
}

fn put_item(alloc: Global, out: &mut Writer, brackets: Brackets, item: &Item) -> Result<(), Memory>
    ensures { OnOk result (Wrote out.old (spec.item_marks brackets item.now) out.new) }
{
    match item {
        Item::Include(file) => put_include(alloc, out, file),
        Item::StructType(name) => put_struct_type(alloc, out, name),
        Item::Struct(definition) => put_fields(alloc, out, definition),
        Item::Enumeration(enumeration) => put_enum(alloc, out, enumeration),
        Item::FunctionType(signature) => put_function_type(alloc, out, signature),
        Item::Prototype(signature) => put_prototype(alloc, out, signature),
        Item::Variable(variable) => put_variable(alloc, out, brackets, variable),
        Item::InterfaceTable(table) => put_interface(alloc, out, table),
        Item::Function(function) => put_function(alloc, out, brackets, function),
    }
}

fn group_of(item: &Item) -> Group
    ensures { result ≡ spec.group_of item.now }
{
    match item {
        Item::Include(_) => Group::Includes,
        Item::StructType(_) | Item::FunctionType(_) => Group::Types,
        Item::Prototype(_) => Group::Prototypes,
        Item::Variable(_) | Item::InterfaceTable(_) => Group::Variables,
        Item::Struct(_) | Item::Enumeration(_) | Item::Function(_) => Group::Long,
    }
}

fn is_close(before: Group, group: Group) -> bool
    ensures { result ≡ spec.is_close before group }
{
    matches!(
        (before, group),
        (Group::Includes, Group::Includes)
            | (Group::Types, Group::Types)
            | (Group::Prototypes, Group::Prototypes)
            | (Group::Variables, Group::Variables)
    )
}

// The lines that end in front of an item.
fn put_between(out: &mut Writer, before: Option<Group>, group: Group) -> Result<(), Memory>
    ensures { OnOk result (Wrote out.old (spec.between_items before group) out.new) }
{
    match before {
        None => Ok(()),
        Some(before) if is_close(before, group) => out.line(0),
        Some(_) => {
            out.line(0)?;
            out.line(0)
        }
    }
}

// An item behind another.
#[tactic(auto, using(crate::proofs::MarkLemmas::put_append))]
fn put_next_item(
    alloc: Global,
    out: &mut Writer,
    brackets: Brackets,
    before: Option<Group>,
    item: &Item,
) -> Result<(), Memory>
    ensures { OnOk result (Wrote out.old (spec.next_item_marks brackets before item.now) out.new) }
{
    put_between(out, before, group_of(item))?;
    put_item(alloc, out, brackets, item)
}

fn put_items(
    alloc: Global,
    out: &mut Writer,
    brackets: Brackets,
    items: &[Item],
) -> Result<(), Memory>
    ensures { OnOk result (Wrote out.old (spec.items_marks brackets None items.now) out.new) }
{
    let mut before = None;
    for item in items {
        put_next_item(alloc, out, brackets, before, item)?;
        before = Some(group_of(item));
    }
    Ok(())
}

/// Writes a unit.
#[tactic(auto, using(crate::proofs::MarkLemmas::put_append))]
pub fn put_unit(
    alloc: Global,
    out: &mut Writer,
    brackets: Brackets,
    unit: &Unit,
) -> Result<(), Memory>
    ensures { OnOk result (Wrote out.old (spec.unit_marks brackets unit.now) out.new) }
{
    put_items(alloc, out, brackets, unit.items.as_slice())?;
    out.line(0)
}
