// Writes statements and blocks.

ghost use Rattle.std.specs.Prelude.{◌≡◌, ◌∷◌, ◌++◌, map, OnOk};
ghost use Rattle.c_printer.specs.Marks.{Wrote, Line};
ghost use Rattle.c_printer.specs.PutStatements as spec;

use crate::calls::{put_call, put_locals, put_name_and_semicolon};
use crate::grade::{Brackets, Place};
use crate::output::Writer;
use crate::piece::Piece;
use crate::values::put_value;
use c_lexer::{Keyword, Sign};
use c_tree::{Block, Call, Case, Expr, Level, Name, SignedNumber, Stmt};
use std::alloc::Global;
use vg_base::Memory;

/// Writes a number with its sign.
pub fn put_number(alloc: Global, out: &mut Writer, number: &SignedNumber) -> Result<(), Memory>
    ensures { OnOk result (Wrote out.old (spec.number_marks number.now) out.new) }
{
    if number.is_negative {
        out.token(alloc, Piece::Sign(Sign::Minus))?;
    }
    out.token(
        alloc,
        Piece::Number(number.number.value, number.number.kind),
    )
}

fn put_goto(alloc: Global, out: &mut Writer, label: &Name) -> Result<(), Memory>
    ensures { OnOk result (Wrote out.old (spec.goto_marks label.now) out.new) }
{
    out.token(alloc, Piece::Keyword(Keyword::Goto))?;
    out.space()?;
    put_name_and_semicolon(alloc, out, label)
}

fn put_label(alloc: Global, out: &mut Writer, label: &Name) -> Result<(), Memory>
    ensures { OnOk result (Wrote out.old (spec.label_marks label.now) out.new) }
{
    out.token(alloc, Piece::Name(label.text.as_slice()))?;
    out.token(alloc, Piece::Sign(Sign::Colon))?;
    out.space()?;
    out.token(alloc, Piece::Sign(Sign::Semicolon))
}

// A place and the `=` behind it.
#[tactic(auto, using(crate::proofs::MarkLemmas::put_append))]
fn put_to_place(
    alloc: Global,
    out: &mut Writer,
    brackets: Brackets,
    place: &Expr,
) -> Result<(), Memory>
    ensures { OnOk result (Wrote out.old (spec.to_place brackets place.now) out.new) }
{
    put_value(alloc, out, brackets, Place::Operand(Level::Product), place)?;
    out.space()?;
    out.token(alloc, Piece::Sign(Sign::Assign))?;
    out.space()
}

#[tactic(auto, using(crate::proofs::MarkLemmas::put_append))]
fn put_assign(
    alloc: Global,
    out: &mut Writer,
    brackets: Brackets,
    place: &Expr,
    value: &Expr,
) -> Result<(), Memory>
    ensures { OnOk result (Wrote out.old (spec.assign_marks brackets place.now value.now) out.new) }
{
    put_to_place(alloc, out, brackets, place)?;
    put_value(alloc, out, brackets, Place::Anywhere, value)?;
    out.token(alloc, Piece::Sign(Sign::Semicolon))
}

#[tactic(auto, using(crate::proofs::MarkLemmas::put_append))]
fn put_call_statement(
    alloc: Global,
    out: &mut Writer,
    brackets: Brackets,
    call: &Call,
) -> Result<(), Memory>
    ensures { OnOk result (Wrote out.old (spec.ended (spec.call_marks brackets call.now)) out.new) }
{
    put_call(alloc, out, brackets, call)?;
    out.token(alloc, Piece::Sign(Sign::Semicolon))
}

#[tactic(auto, using(crate::proofs::MarkLemmas::put_append))]
fn put_store(
    alloc: Global,
    out: &mut Writer,
    brackets: Brackets,
    place: &Expr,
    call: &Call,
) -> Result<(), Memory>
    ensures { OnOk result (Wrote out.old (spec.store_marks brackets place.now call.now) out.new) }
{
    put_to_place(alloc, out, brackets, place)?;
    put_call(alloc, out, brackets, call)?;
    out.token(alloc, Piece::Sign(Sign::Semicolon))
}

// `if (x)`, and the same of `switch`.
#[tactic(auto, using(crate::proofs::MarkLemmas::put_append))]
fn put_tested(
    alloc: Global,
    out: &mut Writer,
    brackets: Brackets,
    word: Keyword,
    value: &Expr,
) -> Result<(), Memory>
    ensures { OnOk result (Wrote out.old (spec.tested brackets word value.now) out.new) }
{
    out.token(alloc, Piece::Keyword(word))?;
    out.space()?;
    out.token(alloc, Piece::Sign(Sign::OpenParen))?;
    put_value(alloc, out, brackets, Place::Anywhere, value)?;
    out.token(alloc, Piece::Sign(Sign::CloseParen))
}

#[tactic(auto, using(crate::proofs::MarkLemmas::put_append))]
fn put_if_goto(
    alloc: Global,
    out: &mut Writer,
    brackets: Brackets,
    value: &Expr,
    label: &Name,
) -> Result<(), Memory>
    ensures { OnOk result (Wrote out.old (spec.if_goto_marks brackets value.now label.now) out.new) }
{
    put_tested(alloc, out, brackets, Keyword::If, value)?;
    out.space()?;
    put_goto(alloc, out, label)
}

// A value behind `return`.
fn put_returned(
    alloc: Global,
    out: &mut Writer,
    brackets: Brackets,
    value: &Option<Expr>,
) -> Result<(), Memory>
    ensures { OnOk result (Wrote out.old (spec.return_marks brackets value.now) out.new) }
{
    match value {
        None => Ok(()),
        Some(value) => {
            out.space()?;
            put_value(alloc, out, brackets, Place::Anywhere, value)
        }
    }
}

#[tactic(auto, using(crate::proofs::MarkLemmas::put_append))]
fn put_return(
    alloc: Global,
    out: &mut Writer,
    brackets: Brackets,
    value: &Option<Expr>,
) -> Result<(), Memory>
    ensures { OnOk result (Wrote out.old (spec.return_statement_marks brackets value.now) out.new) }
{
    out.token(alloc, Piece::Keyword(Keyword::Return))?;
    put_returned(alloc, out, brackets, value)?;
    out.token(alloc, Piece::Sign(Sign::Semicolon))
}

// `case 1:`
#[tactic(auto, using(crate::proofs::MarkLemmas::put_append))]
fn put_case_number(alloc: Global, out: &mut Writer, number: &SignedNumber) -> Result<(), Memory>
    ensures { OnOk result (Wrote out.old (spec.case_number_marks number.now) out.new) }
{
    out.token(alloc, Piece::Keyword(Keyword::Case))?;
    out.space()?;
    put_number(alloc, out, number)?;
    out.token(alloc, Piece::Sign(Sign::Colon))?;
    out.space()
}

#[tactic(auto, using(crate::proofs::MarkLemmas::put_append))]
fn put_case_line(alloc: Global, out: &mut Writer, indent: usize, case: &Case) -> Result<(), Memory>
    ensures { OnOk result (Wrote out.old (spec.case_line indent case.now) out.new) }
{
    out.line(indent)?;
    put_case_number(alloc, out, &case.number)?;
    put_goto(alloc, out, &case.label)
}

fn put_cases(alloc: Global, out: &mut Writer, indent: usize, cases: &[Case]) -> Result<(), Memory>
    ensures { OnOk result (Wrote out.old (spec.cases_marks indent cases.now) out.new) }
{
    for case in cases {
        put_case_line(alloc, out, indent, case)?;
    }
    Ok(())
}

// `default: goto L;` on a line of its own, and the `}` behind it.
#[tactic(auto, using(crate::proofs::MarkLemmas::put_append))]
fn put_default(alloc: Global, out: &mut Writer, indent: usize, label: &Name) -> Result<(), Memory>
    ensures { OnOk result (Wrote out.old (spec.default_marks indent label.now) out.new) }
{
    out.line(indent)?;
    out.token(alloc, Piece::Keyword(Keyword::Default))?;
    out.token(alloc, Piece::Sign(Sign::Colon))?;
    out.space()?;
    put_goto(alloc, out, label)
}

pub fn put_close(alloc: Global, out: &mut Writer, indent: usize) -> Result<(), Memory>
    ensures { OnOk result (Wrote out.old (spec.close_marks indent) out.new) }
{
    out.line(indent)?;
    out.token(alloc, Piece::Sign(Sign::CloseBrace))
}

#[tactic(auto, using(crate::proofs::MarkLemmas::put_append))]
fn put_branches(
    alloc: Global,
    out: &mut Writer,
    indent: usize,
    cases: &[Case],
    label: &Name,
) -> Result<(), Memory>
    ensures { OnOk result (Wrote out.old (spec.branches_marks indent cases.now label.now) out.new) }
{
    out.token(alloc, Piece::Sign(Sign::OpenBrace))?;
    put_cases(alloc, out, indent, cases)?;
    put_default(alloc, out, indent, label)?;
    put_close(alloc, out, indent)
}

#[tactic(auto, using(crate::proofs::MarkLemmas::put_append))]
fn put_switch(
    alloc: Global,
    out: &mut Writer,
    brackets: Brackets,
    indent: usize,
    value: &Expr,
    cases: &[Case],
    label: &Name,
) -> Result<(), Memory>
    ensures { OnOk result (Wrote out.old (spec.switch_marks brackets indent value.now cases.now label.now) out.new) }
{
    put_tested(alloc, out, brackets, Keyword::Switch, value)?;
    out.space()?;
    put_branches(alloc, out, indent, cases, label)
}

fn deeper(indent: usize) -> usize
    ensures { result ≡ spec.deeper indent }
{
    if indent < 256 { indent + 4 } else { indent }
}

#[cycle(statement)]
fn put_else(
    alloc: Global,
    out: &mut Writer,
    brackets: Brackets,
    indent: usize,
    block: &Option<Block>,
) -> Result<(), Memory>
    ensures { OnOk result (Wrote out.old (spec.else_block_marks brackets block.now indent) out.new) }
{
    match block {
        None => Ok(()),
        Some(block) => {
            out.space()?;
            out.token(alloc, Piece::Keyword(Keyword::Else))?;
            out.space()?;
            put_block(alloc, out, brackets, indent, block)
        }
    }
}

// `if (x) `
#[tactic(auto, using(crate::proofs::MarkLemmas::put_append))]
fn put_if(alloc: Global, out: &mut Writer, brackets: Brackets, value: &Expr) -> Result<(), Memory>
    ensures { OnOk result (Wrote out.old (spec.if_head_marks brackets value.now) out.new) }
{
    put_tested(alloc, out, brackets, Keyword::If, value)?;
    out.space()
}

#[cycle(statement)]
fn put_stmt(
    alloc: Global,
    out: &mut Writer,
    brackets: Brackets,
    indent: usize,
    stmt: &Stmt,
) -> Result<(), Memory>
    ensures { OnOk result (Wrote out.old (spec.stmt_marks brackets stmt.now indent) out.new) }
{
    match stmt {
        Stmt::Assign(place, value) => put_assign(alloc, out, brackets, place, value),
        Stmt::Call(call) => put_call_statement(alloc, out, brackets, call),
        Stmt::Store(place, call) => put_store(alloc, out, brackets, place, call),
        Stmt::If(value, block, other) => {
            put_if(alloc, out, brackets, value)?;
            put_block(alloc, out, brackets, indent, block)?;
            put_else(alloc, out, brackets, indent, other)
        }
        Stmt::IfGoto(value, label) => put_if_goto(alloc, out, brackets, value, label),
        Stmt::Goto(label) => put_goto(alloc, out, label),
        Stmt::Label(label) => put_label(alloc, out, label),
        Stmt::Switch(value, cases, label) => {
            put_switch(alloc, out, brackets, indent, value, cases.as_slice(), label)
        }
        Stmt::Return(_, value) => put_return(alloc, out, brackets, value),
        Stmt::Block(block) => put_block(alloc, out, brackets, indent, block),
    }
}

#[cycle(statement)]
fn put_stmt_line(
    alloc: Global,
    out: &mut Writer,
    brackets: Brackets,
    indent: usize,
    stmt: &Stmt,
) -> Result<(), Memory>
    ensures { OnOk result (Wrote out.old (Line indent ∷ spec.stmt_marks brackets stmt.now indent) out.new) }
{
    out.line(indent)?;
    put_stmt(alloc, out, brackets, indent, stmt)
}

#[cycle(statement)]
fn put_stmts(
    alloc: Global,
    out: &mut Writer,
    brackets: Brackets,
    indent: usize,
    stmts: &[Stmt],
) -> Result<(), Memory>
    ensures { OnOk result (Wrote out.old (spec.lines indent (map (spec.stmt_marks brackets) stmts.now)) out.new) }
{
    for stmt in stmts {
        put_stmt_line(alloc, out, brackets, indent, stmt)?;
    }
    Ok(())
}

/// Writes a block that begins on a line with an indentation.
#[cycle(statement)]
pub fn put_block(
    alloc: Global,
    out: &mut Writer,
    brackets: Brackets,
    indent: usize,
    block: &Block,
) -> Result<(), Memory>
    ensures { OnOk result (Wrote out.old (spec.block_marks brackets block.now indent) out.new) }
{
    out.token(alloc, Piece::Sign(Sign::OpenBrace))?;
    put_locals(alloc, out, deeper(indent), block.locals.as_slice())?;
    put_stmts(alloc, out, brackets, deeper(indent), block.body.as_slice())?;
    put_close(alloc, out, indent)
}
