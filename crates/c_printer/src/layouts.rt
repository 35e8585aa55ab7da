// Writes structs and enums.

ghost use Rattle.std.specs.Prelude.{◌≡◌, ◌∷◌, ◌++◌, OnOk};
ghost use Rattle.c_printer.specs.Marks.{Wrote};
ghost use Rattle.c_printer.specs.PutItems as spec;

use crate::calls::{put_locals, put_name_and_semicolon};
use crate::output::Writer;
use crate::piece::Piece;
use crate::statements::{put_close, put_number};
use crate::token::append;
use crate::values::put_sign;
use c_lexer::{Keyword, Sign};
use c_tree::{Enumeration, Member, Name, StructDefinition};
use std::alloc::Global;
use vg_base::Memory;

// `_X`
fn put_tag(alloc: Global, out: &mut Writer, name: &Name) -> Result<(), Memory>
    ensures { OnOk result (Wrote out.old (spec.tag_mark name.now) out.new) }
{
    let mut tag = Vec::new(alloc);
    append(&mut tag, b"_".as_slice())?;
    append(&mut tag, name.text.as_slice())?;
    out.token(alloc, Piece::Name(&tag))
}

fn put_struct(alloc: Global, out: &mut Writer, name: &Name) -> Result<(), Memory>
    ensures { OnOk result (Wrote out.old (spec.struct_marks name.now) out.new) }
{
    out.token(alloc, Piece::Keyword(Keyword::Struct))?;
    out.space()?;
    put_tag(alloc, out, name)
}

/// Writes `typedef struct _X X;`.
#[tactic(auto, using(crate::proofs::MarkLemmas::put_append))]
pub fn put_struct_type(alloc: Global, out: &mut Writer, name: &Name) -> Result<(), Memory>
    ensures { OnOk result (Wrote out.old (spec.struct_type_marks name.now) out.new) }
{
    out.token(alloc, Piece::Keyword(Keyword::Typedef))?;
    out.space()?;
    put_struct(alloc, out, name)?;
    out.space()?;
    put_name_and_semicolon(alloc, out, name)
}

/// Writes a struct, each field on a line of its own.
#[tactic(auto, using(crate::proofs::MarkLemmas::put_append))]
pub fn put_fields(
    alloc: Global,
    out: &mut Writer,
    definition: &StructDefinition,
) -> Result<(), Memory>
    ensures { OnOk result (Wrote out.old (spec.fields_marks definition.now) out.new) }
{
    put_struct(alloc, out, &definition.name)?;
    out.space()?;
    out.token(alloc, Piece::Sign(Sign::OpenBrace))?;
    put_locals(alloc, out, 4, definition.fields.as_slice())?;
    put_close(alloc, out, 0)?;
    out.token(alloc, Piece::Sign(Sign::Semicolon))
}

// `A = 1` on a line of its own.
#[tactic(auto, using(crate::proofs::MarkLemmas::put_append))]
fn put_member_line(alloc: Global, out: &mut Writer, member: &Member) -> Result<(), Memory>
    ensures { OnOk result (Wrote out.old (spec.member_line member.now) out.new) }
{
    out.line(4)?;
    out.token(alloc, Piece::Name(member.name.text.as_slice()))?;
    put_sign(alloc, out, Sign::Assign)?;
    put_number(alloc, out, &member.number)
}

fn put_next_member(alloc: Global, out: &mut Writer, member: &Member) -> Result<(), Memory>
    ensures { OnOk result (Wrote out.old (spec.next_member_marks member.now) out.new) }
{
    out.token(alloc, Piece::Sign(Sign::Comma))?;
    put_member_line(alloc, out, member)
}

fn put_more_members(alloc: Global, out: &mut Writer, members: &[Member]) -> Result<(), Memory>
    ensures { OnOk result (Wrote out.old (spec.more_members_marks members.now) out.new) }
{
    for member in members {
        put_next_member(alloc, out, member)?;
    }
    Ok(())
}

#[tactic(auto, using(crate::proofs::MarkLemmas::put_append))]
fn put_first_and_more(
    alloc: Global,
    out: &mut Writer,
    first: &Member,
    more: &[Member],
) -> Result<(), Memory>
    ensures { OnOk result (Wrote out.old (spec.members_marks (first.now ∷ more.now)) out.new) }
{
    put_member_line(alloc, out, first)?;
    put_more_members(alloc, out, more)
}

fn put_members(alloc: Global, out: &mut Writer, members: &[Member]) -> Result<(), Memory>
    ensures { OnOk result (Wrote out.old (spec.members_marks members.now) out.new) }
{
    match members {
        [] => Ok(()),
        [first, more @ ..] => put_first_and_more(alloc, out, first, more),
    }
}

fn put_enum_start(alloc: Global, out: &mut Writer) -> Result<(), Memory>
    ensures { OnOk result (Wrote out.old spec.enum_start_marks out.new) }
{
    out.token(alloc, Piece::Keyword(Keyword::Typedef))?;
    out.space()?;
    out.token(alloc, Piece::Keyword(Keyword::Enum))?;
    out.space()?;
    out.token(alloc, Piece::Sign(Sign::OpenBrace))
}

/// Writes an enum, each member on a line of its own.
#[tactic(auto, using(crate::proofs::MarkLemmas::put_append))]
pub fn put_enum(alloc: Global, out: &mut Writer, enumeration: &Enumeration) -> Result<(), Memory>
    ensures { OnOk result (Wrote out.old (spec.enum_marks enumeration.now) out.new) }
{
    put_enum_start(alloc, out)?;
    put_members(alloc, out, enumeration.members.as_slice())?;
    put_close(alloc, out, 0)?;
    out.space()?;
    put_name_and_semicolon(alloc, out, &enumeration.name)
}
