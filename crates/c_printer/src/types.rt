// Writes types.

ghost use Rattle.std.specs.Prelude.{OnOk};
ghost use Rattle.c_printer.specs.Marks.{Wrote};
ghost use Rattle.c_printer.specs.PutValues as spec;

use crate::output::Writer;
use crate::piece::Piece;
use c_lexer::{Keyword, Sign};
use c_tree::{Base, CType};
use std::alloc::Global;
use vg_base::Memory;

fn put_const(alloc: Global, out: &mut Writer, is_const: bool) -> Result<(), Memory>
    ensures { OnOk result (Wrote out.old (spec.const_marks is_const) out.new) }
{
    if is_const {
        out.token(alloc, Piece::Keyword(Keyword::Const))?;
        out.space()
    } else {
        Ok(())
    }
}

fn put_base(alloc: Global, out: &mut Writer, base: &Base) -> Result<(), Memory>
    ensures { OnOk result (Wrote out.old (spec.base_marks base.now) out.new) }
{
    match base {
        Base::Void => out.token(alloc, Piece::Keyword(Keyword::Void)),
        Base::Int => out.token(alloc, Piece::Keyword(Keyword::Int)),
        Base::Char => out.token(alloc, Piece::Keyword(Keyword::Char)),
        Base::Named(name) => out.token(alloc, Piece::Name(name.text.as_slice())),
    }
}

fn put_stars(alloc: Global, out: &mut Writer, count: u32) -> Result<(), Memory>
    ensures { OnOk result (Wrote out.old (spec.stars count) out.new) }
{
    for _ in 0..count {
        out.token(alloc, Piece::Sign(Sign::Star))?;
    }
    Ok(())
}

fn put_space_and_stars(alloc: Global, out: &mut Writer, count: u32) -> Result<(), Memory>
    ensures { OnOk result (Wrote out.old (spec.star_marks count) out.new) }
{
    if count == 0 {
        return Ok(());
    }
    out.space()?;
    put_stars(alloc, out, count)
}

/// Writes a type.
pub fn put_type(alloc: Global, out: &mut Writer, declared: &CType) -> Result<(), Memory>
    ensures { OnOk result (Wrote out.old (spec.type_marks declared.now) out.new) }
{
    put_const(alloc, out, declared.is_const)?;
    put_base(alloc, out, &declared.base)?;
    put_space_and_stars(alloc, out, declared.stars)
}
