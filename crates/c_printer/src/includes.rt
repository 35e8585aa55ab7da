// Writes `#include` lines.

ghost use Rattle.std.specs.Prelude.{◌≡◌, ◌∷◌, ◌++◌, OnOk};
ghost use Rattle.c_printer.specs.Marks.{Wrote};
ghost use Rattle.c_printer.specs.PutItems as spec;

use crate::output::Writer;
use crate::piece::Piece;
use crate::token::append;
use c_lexer::Sign;
use c_tree::Include;
use std::alloc::Global;
use vg_base::Memory;

// Words with a sign between them.
fn put_two_words(
    alloc: Global,
    out: &mut Writer,
    first: &[u8],
    sign: Sign,
    second: &[u8],
) -> Result<(), Memory>
    ensures { OnOk result (Wrote out.old (spec.two_words first.now sign second.now) out.new) }
{
    out.token(alloc, Piece::Name(first))?;
    out.token(alloc, Piece::Sign(sign))?;
    out.token(alloc, Piece::Name(second))
}

fn put_file_words(alloc: Global, out: &mut Writer, file: &Include) -> Result<(), Memory>
    ensures { OnOk result (Wrote out.old (spec.file_words file.now) out.new) }
{
    match file {
        Include::Glib => out.token(alloc, Piece::Name(b"glib".as_slice())),
        Include::GlibObject => put_two_words(
            alloc,
            out,
            b"glib".as_slice(),
            Sign::Minus,
            b"object".as_slice(),
        ),
        Include::Gio => put_two_words(
            alloc,
            out,
            b"gio".as_slice(),
            Sign::Slash,
            b"gio".as_slice(),
        ),
        Include::String => out.token(alloc, Piece::Name(b"string".as_slice())),
        Include::Stdlib => out.token(alloc, Piece::Name(b"stdlib".as_slice())),
        Include::Own(_) => Ok(()),
    }
}

#[tactic(auto, using(crate::proofs::MarkLemmas::put_append))]
fn put_system(alloc: Global, out: &mut Writer, file: &Include) -> Result<(), Memory>
    ensures { OnOk result (Wrote out.old (spec.system_marks file.now) out.new) }
{
    out.token(alloc, Piece::Sign(Sign::Less))?;
    put_file_words(alloc, out, file)?;
    out.token(alloc, Piece::Sign(Sign::Dot))?;
    out.token(alloc, Piece::Name(b"h".as_slice()))?;
    out.token(alloc, Piece::Sign(Sign::Greater))
}

fn put_own(alloc: Global, out: &mut Writer, name: &[u8]) -> Result<(), Memory>
    ensures { OnOk result (Wrote out.old (spec.own_marks name.now) out.new) }
{
    let mut file = Vec::new(alloc);
    append(&mut file, name)?;
    append(&mut file, b".h".as_slice())?;
    out.token(alloc, Piece::Text(&file))
}

fn put_file(alloc: Global, out: &mut Writer, file: &Include) -> Result<(), Memory>
    ensures { OnOk result (Wrote out.old (spec.file_marks file.now) out.new) }
{
    match file {
        Include::Own(name) => put_own(alloc, out, name.as_slice()),
        _ => put_system(alloc, out, file),
    }
}

/// Writes `#include <glib.h>`.
#[tactic(auto, using(crate::proofs::MarkLemmas::put_append))]
pub fn put_include(alloc: Global, out: &mut Writer, file: &Include) -> Result<(), Memory>
    ensures { OnOk result (Wrote out.old (spec.include_marks file.now) out.new) }
{
    out.token(alloc, Piece::Sign(Sign::Hash))?;
    out.token(alloc, Piece::Name(b"include".as_slice()))?;
    out.space()?;
    put_file(alloc, out, file)
}
