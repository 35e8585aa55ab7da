// Writes declarations and calls.

ghost use Rattle.std.specs.Prelude.{◌≡◌, ◌∷◌, ◌++◌, OnOk};
ghost use Rattle.c_printer.specs.Marks.{Wrote, Line};
ghost use Rattle.c_printer.specs.PutStatements as spec;
ghost use Rattle.c_printer.specs.PutValues.{arguments_marks, more_arguments_marks, next_argument_marks};

use crate::grade::{Brackets, Place};
use crate::output::Writer;
use crate::piece::Piece;
use crate::types::put_type;
use crate::values::put_value;
use c_lexer::Sign;
use c_tree::{CType, Call, Callee, Expr, Local, Name};
use std::alloc::Global;
use vg_base::Memory;

fn put_before_name(out: &mut Writer, stars: u32) -> Result<(), Memory>
    ensures { OnOk result (Wrote out.old (spec.before_name stars) out.new) }
{
    if stars == 0 { out.space() } else { Ok(()) }
}

/// Writes `x;`.
pub fn put_name_and_semicolon(alloc: Global, out: &mut Writer, name: &Name) -> Result<(), Memory>
    ensures { OnOk result (Wrote out.old (spec.name_ended name.now) out.new) }
{
    out.token(alloc, Piece::Name(name.text.as_slice()))?;
    out.token(alloc, Piece::Sign(Sign::Semicolon))
}

/// Writes a type in front of a name.
#[tactic(auto, using(crate::proofs::MarkLemmas::put_append))]
pub fn put_declared(alloc: Global, out: &mut Writer, declared: &CType) -> Result<(), Memory>
    ensures { OnOk result (Wrote out.old (spec.declared_marks declared.now) out.new) }
{
    put_type(alloc, out, declared)?;
    put_before_name(out, declared.stars)
}

#[tactic(auto, using(crate::proofs::MarkLemmas::put_append))]
fn put_local(alloc: Global, out: &mut Writer, local: &Local) -> Result<(), Memory>
    ensures { OnOk result (Wrote out.old (spec.local_marks local.now) out.new) }
{
    put_declared(alloc, out, &local.declared)?;
    put_name_and_semicolon(alloc, out, &local.name)
}

#[tactic(auto, using(crate::proofs::MarkLemmas::put_append))]
fn put_local_line(
    alloc: Global,
    out: &mut Writer,
    indent: usize,
    local: &Local,
) -> Result<(), Memory>
    ensures { OnOk result (Wrote out.old (Line indent ∷ spec.local_marks local.now) out.new) }
{
    out.line(indent)?;
    put_local(alloc, out, local)
}

/// Writes declarations, each on a line of its own.
pub fn put_locals(
    alloc: Global,
    out: &mut Writer,
    indent: usize,
    locals: &[Local],
) -> Result<(), Memory>
    ensures { OnOk result (Wrote out.old (spec.locals_marks indent locals.now) out.new) }
{
    for local in locals {
        put_local_line(alloc, out, indent, local)?;
    }
    Ok(())
}

#[tactic(auto, using(crate::proofs::MarkLemmas::put_append))]
fn put_next_argument(
    alloc: Global,
    out: &mut Writer,
    brackets: Brackets,
    value: &Expr,
) -> Result<(), Memory>
    ensures { OnOk result (Wrote out.old (next_argument_marks brackets value.now) out.new) }
{
    out.token(alloc, Piece::Sign(Sign::Comma))?;
    out.space()?;
    put_value(alloc, out, brackets, Place::Anywhere, value)
}

fn put_more_arguments(
    alloc: Global,
    out: &mut Writer,
    brackets: Brackets,
    values: &[Expr],
) -> Result<(), Memory>
    ensures { OnOk result (Wrote out.old (more_arguments_marks brackets values.now) out.new) }
{
    for value in values {
        put_next_argument(alloc, out, brackets, value)?;
    }
    Ok(())
}

#[tactic(auto, using(crate::proofs::MarkLemmas::put_append))]
fn put_first_and_more(
    alloc: Global,
    out: &mut Writer,
    brackets: Brackets,
    first: &Expr,
    more: &[Expr],
) -> Result<(), Memory>
    ensures { OnOk result (Wrote out.old (arguments_marks brackets (first.now ∷ more.now)) out.new) }
{
    put_value(alloc, out, brackets, Place::Anywhere, first)?;
    put_more_arguments(alloc, out, brackets, more)
}

fn put_arguments(
    alloc: Global,
    out: &mut Writer,
    brackets: Brackets,
    values: &[Expr],
) -> Result<(), Memory>
    ensures { OnOk result (Wrote out.old (arguments_marks brackets values.now) out.new) }
{
    match values {
        [] => Ok(()),
        [first, more @ ..] => put_first_and_more(alloc, out, brackets, first, more),
    }
}

#[tactic(auto, using(crate::proofs::MarkLemmas::put_append))]
fn put_type_and_more(
    alloc: Global,
    out: &mut Writer,
    brackets: Brackets,
    declared: &CType,
    values: &[Expr],
) -> Result<(), Memory>
    ensures { OnOk result (Wrote out.old (spec.type_and_more_marks brackets declared.now values.now) out.new) }
{
    put_type(alloc, out, declared)?;
    put_more_arguments(alloc, out, brackets, values)
}

fn put_between(
    alloc: Global,
    out: &mut Writer,
    brackets: Brackets,
    first: &Option<CType>,
    values: &[Expr],
) -> Result<(), Memory>
    ensures { OnOk result (Wrote out.old (spec.between_marks brackets first.now values.now) out.new) }
{
    match first {
        None => put_arguments(alloc, out, brackets, values),
        Some(declared) => put_type_and_more(alloc, out, brackets, declared, values),
    }
}

fn put_callee(
    alloc: Global,
    out: &mut Writer,
    brackets: Brackets,
    callee: &Callee,
) -> Result<(), Memory>
    ensures { OnOk result (Wrote out.old (spec.callee_marks brackets callee.now) out.new) }
{
    match callee {
        Callee::Value(value) => put_value(alloc, out, brackets, Place::BehindPrefix, value),
        Callee::Row(name) => out.token(alloc, Piece::Name(name.text.as_slice())),
    }
}

/// Writes a call.
#[tactic(auto, using(crate::proofs::MarkLemmas::put_append))]
pub fn put_call(
    alloc: Global,
    out: &mut Writer,
    brackets: Brackets,
    call: &Call,
) -> Result<(), Memory>
    ensures { OnOk result (Wrote out.old (spec.call_marks brackets call.now) out.new) }
{
    put_callee(alloc, out, brackets, &call.callee)?;
    out.space()?;
    out.token(alloc, Piece::Sign(Sign::OpenParen))?;
    put_between(
        alloc,
        out,
        brackets,
        &call.type_argument,
        call.arguments.as_slice(),
    )?;
    out.token(alloc, Piece::Sign(Sign::CloseParen))
}
