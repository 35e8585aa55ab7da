// Writes what functions take and give, prototypes and functions.

ghost use Rattle.std.specs.Prelude.{◌≡◌, ◌∷◌, ◌++◌, OnOk};
ghost use Rattle.c_printer.specs.Marks.{Wrote};
ghost use Rattle.c_printer.specs.PutItems as spec;

use crate::calls::put_declared;
use crate::grade::Brackets;
use crate::output::Writer;
use crate::piece::Piece;
use crate::statements::put_block;
use crate::types::put_type;
use c_lexer::{Keyword, Sign};
use c_tree::{CType, Function, Name, Parameter, Signature};
use std::alloc::Global;
use vg_base::Memory;

#[tactic(auto, using(crate::proofs::MarkLemmas::put_append))]
pub fn put_named(
    alloc: Global,
    out: &mut Writer,
    declared: &CType,
    name: &Name,
) -> Result<(), Memory>
    ensures { OnOk result (Wrote out.old (spec.named_marks declared.now name.now) out.new) }
{
    put_declared(alloc, out, declared)?;
    out.token(alloc, Piece::Name(name.text.as_slice()))
}

fn put_parameter_by(
    alloc: Global,
    out: &mut Writer,
    declared: &CType,
    name: &Option<Name>,
) -> Result<(), Memory>
    ensures { OnOk result (Wrote out.old (spec.parameter_by declared.now name.now) out.new) }
{
    match name {
        None => put_type(alloc, out, declared),
        Some(name) => put_named(alloc, out, declared, name),
    }
}

fn put_parameter(alloc: Global, out: &mut Writer, parameter: &Parameter) -> Result<(), Memory>
    ensures { OnOk result (Wrote out.old (spec.parameter_marks parameter.now) out.new) }
{
    put_parameter_by(alloc, out, &parameter.declared, &parameter.name)
}

#[tactic(auto, using(crate::proofs::MarkLemmas::put_append))]
fn put_next_parameter(alloc: Global, out: &mut Writer, parameter: &Parameter) -> Result<(), Memory>
    ensures { OnOk result (Wrote out.old (spec.next_parameter_marks parameter.now) out.new) }
{
    out.token(alloc, Piece::Sign(Sign::Comma))?;
    out.space()?;
    put_parameter(alloc, out, parameter)
}

fn put_more_parameters(
    alloc: Global,
    out: &mut Writer,
    parameters: &[Parameter],
) -> Result<(), Memory>
    ensures { OnOk result (Wrote out.old (spec.more_parameters_marks parameters.now) out.new) }
{
    for parameter in parameters {
        put_next_parameter(alloc, out, parameter)?;
    }
    Ok(())
}

#[tactic(auto, using(crate::proofs::MarkLemmas::put_append))]
fn put_first_and_more(
    alloc: Global,
    out: &mut Writer,
    first: &Parameter,
    more: &[Parameter],
) -> Result<(), Memory>
    ensures { OnOk result (Wrote out.old (spec.taken_marks (first.now ∷ more.now)) out.new) }
{
    put_parameter(alloc, out, first)?;
    put_more_parameters(alloc, out, more)
}

// `void`, or the parameters.
fn put_taken(alloc: Global, out: &mut Writer, parameters: &[Parameter]) -> Result<(), Memory>
    ensures { OnOk result (Wrote out.old (spec.taken_marks parameters.now) out.new) }
{
    match parameters {
        [] => out.token(alloc, Piece::Keyword(Keyword::Void)),
        [first, more @ ..] => put_first_and_more(alloc, out, first, more),
    }
}

#[tactic(auto, using(crate::proofs::MarkLemmas::put_append))]
fn put_parameters(alloc: Global, out: &mut Writer, parameters: &[Parameter]) -> Result<(), Memory>
    ensures { OnOk result (Wrote out.old (spec.parameters_marks parameters.now) out.new) }
{
    out.token(alloc, Piece::Sign(Sign::OpenParen))?;
    put_taken(alloc, out, parameters)?;
    out.token(alloc, Piece::Sign(Sign::CloseParen))
}

fn put_static(alloc: Global, out: &mut Writer, is_static: bool) -> Result<(), Memory>
    ensures { OnOk result (Wrote out.old (spec.static_marks is_static) out.new) }
{
    if is_static {
        out.token(alloc, Piece::Keyword(Keyword::Static))?;
        out.space()
    } else {
        Ok(())
    }
}

// What a function takes and gives.
#[tactic(auto, using(crate::proofs::MarkLemmas::put_append))]
fn put_signature(alloc: Global, out: &mut Writer, signature: &Signature) -> Result<(), Memory>
    ensures { OnOk result (Wrote out.old (spec.signature_marks signature.now) out.new) }
{
    put_static(alloc, out, signature.is_static)?;
    put_named(alloc, out, &signature.result, &signature.name)?;
    out.space()?;
    put_parameters(alloc, out, signature.parameters.as_slice())
}

/// Writes a prototype.
#[tactic(auto, using(crate::proofs::MarkLemmas::put_append))]
pub fn put_prototype(alloc: Global, out: &mut Writer, signature: &Signature) -> Result<(), Memory>
    ensures { OnOk result (Wrote out.old (spec.prototype_marks signature.now) out.new) }
{
    put_signature(alloc, out, signature)?;
    out.token(alloc, Piece::Sign(Sign::Semicolon))
}

// `(*F) `
fn put_pointer(alloc: Global, out: &mut Writer, name: &Name) -> Result<(), Memory>
    ensures { OnOk result (Wrote out.old (spec.pointer_marks name.now) out.new) }
{
    out.token(alloc, Piece::Sign(Sign::OpenParen))?;
    out.token(alloc, Piece::Sign(Sign::Star))?;
    out.token(alloc, Piece::Name(name.text.as_slice()))?;
    out.token(alloc, Piece::Sign(Sign::CloseParen))?;
    out.space()
}

/// Writes a function type.
#[tactic(auto, using(crate::proofs::MarkLemmas::put_append))]
pub fn put_function_type(
    alloc: Global,
    out: &mut Writer,
    signature: &Signature,
) -> Result<(), Memory>
    ensures { OnOk result (Wrote out.old (spec.function_type_marks signature.now) out.new) }
{
    out.token(alloc, Piece::Keyword(Keyword::Typedef))?;
    out.space()?;
    put_declared(alloc, out, &signature.result)?;
    put_pointer(alloc, out, &signature.name)?;
    put_parameters(alloc, out, signature.parameters.as_slice())?;
    out.token(alloc, Piece::Sign(Sign::Semicolon))
}

/// Writes a function, its body from the next line on.
#[tactic(auto, using(crate::proofs::MarkLemmas::put_append))]
pub fn put_function(
    alloc: Global,
    out: &mut Writer,
    brackets: Brackets,
    function: &Function,
) -> Result<(), Memory>
    ensures { OnOk result (Wrote out.old (spec.function_marks brackets function.now) out.new) }
{
    put_signature(alloc, out, &function.signature)?;
    out.line(0)?;
    put_block(alloc, out, brackets, 0, &function.body)
}
