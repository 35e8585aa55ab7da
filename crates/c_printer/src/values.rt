// Writes values.

ghost use Rattle.std.specs.Prelude.{◌≡◌, map, OnOk};
ghost use Rattle.c_tree.specs.Kinds.{level_of};
ghost use Rattle.c_printer.specs.declared.grade.Brackets.{Brackets};
ghost use Rattle.c_printer.specs.Marks.{Wrote, in_row};
ghost use Rattle.c_printer.specs.PutValues as spec;

use crate::grade::{Brackets, Grade, Place, stands};
use crate::output::Writer;
use crate::piece::Piece;
use crate::types::put_type;
use c_lexer::{Keyword, Sign};
use c_tree::{
    BinaryOperator, CType, Choice, Expr, Level, Link, Name, Prefix, PrefixOperator, Shape, Suffix,
};
use std::alloc::Global;
use vg_base::Memory;

fn sign_of(operator: BinaryOperator) -> Sign
    ensures { result ≡ spec.sign_of operator }
{
    match operator {
        BinaryOperator::Or => Sign::OrOr,
        BinaryOperator::And => Sign::AndAnd,
        BinaryOperator::BitOr => Sign::Bar,
        BinaryOperator::BitXor => Sign::Caret,
        BinaryOperator::BitAnd => Sign::Ampersand,
        BinaryOperator::Equal => Sign::Equal,
        BinaryOperator::Unequal => Sign::NotEqual,
        BinaryOperator::Less => Sign::Less,
        BinaryOperator::Greater => Sign::Greater,
        BinaryOperator::AtMost => Sign::LessEqual,
        BinaryOperator::AtLeast => Sign::GreaterEqual,
        BinaryOperator::ShiftLeft => Sign::ShiftLeft,
        BinaryOperator::ShiftRight => Sign::ShiftRight,
        BinaryOperator::Add => Sign::Plus,
        BinaryOperator::Subtract => Sign::Minus,
        BinaryOperator::Multiply => Sign::Star,
        BinaryOperator::Divide => Sign::Slash,
        BinaryOperator::Remainder => Sign::Percent,
    }
}

fn level_of(operator: BinaryOperator) -> Level
    ensures { result ≡ level_of operator }
{
    match operator {
        BinaryOperator::Or => Level::Or,
        BinaryOperator::And => Level::And,
        BinaryOperator::BitOr => Level::BitOr,
        BinaryOperator::BitXor => Level::BitXor,
        BinaryOperator::BitAnd => Level::BitAnd,
        BinaryOperator::Equal | BinaryOperator::Unequal => Level::Equality,
        BinaryOperator::Less
        | BinaryOperator::Greater
        | BinaryOperator::AtMost
        | BinaryOperator::AtLeast => Level::Relation,
        BinaryOperator::ShiftLeft | BinaryOperator::ShiftRight => Level::Shift,
        BinaryOperator::Add | BinaryOperator::Subtract => Level::Sum,
        BinaryOperator::Multiply | BinaryOperator::Divide | BinaryOperator::Remainder => {
            Level::Product
        }
    }
}

// A type in brackets.
#[tactic(auto, using(crate::proofs::MarkLemmas::put_append))]
fn put_bracketed_type(alloc: Global, out: &mut Writer, declared: &CType) -> Result<(), Memory>
    ensures { OnOk result (Wrote out.old (spec.in_brackets (spec.type_marks declared.now)) out.new) }
{
    out.token(alloc, Piece::Sign(Sign::OpenParen))?;
    put_type(alloc, out, declared)?;
    out.token(alloc, Piece::Sign(Sign::CloseParen))
}

#[tactic(auto, using(crate::proofs::MarkLemmas::put_append))]
fn put_cast(alloc: Global, out: &mut Writer, declared: &CType) -> Result<(), Memory>
    ensures { OnOk result (Wrote out.old (spec.cast_marks declared.now) out.new) }
{
    put_bracketed_type(alloc, out, declared)?;
    out.space()
}

fn put_prefix(alloc: Global, out: &mut Writer, prefix: &Prefix) -> Result<(), Memory>
    ensures { OnOk result (Wrote out.old (spec.prefix_marks prefix.now) out.new) }
{
    match prefix {
        Prefix::Plus => out.token(alloc, Piece::Sign(Sign::Plus)),
        Prefix::Minus => out.token(alloc, Piece::Sign(Sign::Minus)),
        Prefix::Not => out.token(alloc, Piece::Sign(Sign::Not)),
        Prefix::Complement => out.token(alloc, Piece::Sign(Sign::Tilde)),
        Prefix::Deref => out.token(alloc, Piece::Sign(Sign::Star)),
        Prefix::AddressOf => out.token(alloc, Piece::Sign(Sign::Ampersand)),
        Prefix::Cast(declared) => put_cast(alloc, out, declared),
    }
}

#[tactic(auto, using(crate::proofs::MarkLemmas::put_append))]
fn put_prefixes(alloc: Global, out: &mut Writer, operators: &[PrefixOperator]) -> Result<(), Memory>
    ensures { OnOk result (Wrote out.old (spec.prefixes_marks operators.now) out.new) }
{
    for operator in operators {
        put_prefix(alloc, out, &operator.prefix)?;
    }
    Ok(())
}

fn put_size(alloc: Global, out: &mut Writer, declared: &CType) -> Result<(), Memory>
    ensures { OnOk result (Wrote out.old (spec.size_marks declared.now) out.new) }
{
    out.token(alloc, Piece::Keyword(Keyword::Sizeof))?;
    out.space()?;
    put_bracketed_type(alloc, out, declared)
}

// The type and the field between the brackets of an offset.
#[tactic(auto, using(crate::proofs::MarkLemmas::put_append))]
fn put_type_and_field(
    alloc: Global,
    out: &mut Writer,
    declared: &CType,
    field: &Name,
) -> Result<(), Memory>
    ensures { OnOk result (Wrote out.old (spec.field_marks declared.now field.now) out.new) }
{
    put_type(alloc, out, declared)?;
    out.token(alloc, Piece::Sign(Sign::Comma))?;
    out.space()?;
    out.token(alloc, Piece::Name(field.text.as_slice()))?;
    out.token(alloc, Piece::Sign(Sign::CloseParen))
}

fn put_offset(alloc: Global, out: &mut Writer, declared: &CType, field: &Name) -> Result<(), Memory>
    ensures { OnOk result (Wrote out.old (spec.offset_marks declared.now field.now) out.new) }
{
    out.token(alloc, Piece::Keyword(Keyword::StructOffset))?;
    out.space()?;
    out.token(alloc, Piece::Sign(Sign::OpenParen))?;
    put_type_and_field(alloc, out, declared, field)
}

fn begins_with_not(operators: &[PrefixOperator]) -> bool
    ensures { result ≡ spec.begins_with_not operators.now }
{
    !operators.is_empty() && matches!(operators[0].prefix, Prefix::Not)
}

fn chain_level(links: &[Link]) -> Level
    ensures { (style : Brackets) → result ≡ spec.chain_level (map (spec.printed_link style) links.now) }
{
    if links.is_empty() {
        Level::Product
    } else {
        level_of(links[0].operator)
    }
}

fn grade(shape: &Shape) -> Grade
    ensures { (style : Brackets) → result ≡ (spec.printed_shape style shape.now).grade }
{
    match shape {
        Shape::Prefix(operators, _) => Grade::Prefixing(begins_with_not(operators.as_slice())),
        Shape::Postfix(_, _) => Grade::Suffixing,
        Shape::Chain(_, links) => Grade::Chaining(chain_level(links.as_slice())),
        Shape::Conditional(_, _) => Grade::Choosing,
        _ => Grade::Single,
    }
}

/// Writes a value, in brackets where its place asks for them.
#[cycle(value)]
pub fn put_value(
    alloc: Global,
    out: &mut Writer,
    brackets: Brackets,
    place: Place,
    value: &Expr,
) -> Result<(), Memory>
    ensures { OnOk result (Wrote out.old (spec.placed brackets place (spec.printed brackets value.now)) out.new) }
{
    if stands(brackets, place, grade(&value.shape)) {
        return put_shape(alloc, out, brackets, &value.shape);
    }
    out.token(alloc, Piece::Sign(Sign::OpenParen))?;
    put_shape(alloc, out, brackets, &value.shape)?;
    out.token(alloc, Piece::Sign(Sign::CloseParen))
}

#[cycle(value)]
fn put_shape(
    alloc: Global,
    out: &mut Writer,
    brackets: Brackets,
    shape: &Shape,
) -> Result<(), Memory>
    ensures { OnOk result (Wrote out.old (spec.printed_shape brackets shape.now).marks out.new) }
{
    match shape {
        Shape::Number(number) => out.token(alloc, Piece::Number(number.value, number.kind)),
        Shape::Character(byte) => out.token(alloc, Piece::Character(*byte)),
        Shape::Text(bytes) => out.token(alloc, Piece::Text(bytes.as_slice())),
        Shape::Constant(name) => out.token(alloc, Piece::Constant(*name)),
        Shape::Variable(name) | Shape::Function(name) | Shape::Member(name) => {
            out.token(alloc, Piece::Name(name.text.as_slice()))
        }
        Shape::SizeOf(declared, _) => put_size(alloc, out, declared),
        Shape::Offset(declared, field, _) => put_offset(alloc, out, declared, field),
        Shape::Prefix(operators, operand) => {
            put_prefixes(alloc, out, operators.as_slice())?;
            put_value(alloc, out, brackets, Place::BehindPrefix, operand.get())
        }
        Shape::Postfix(value, suffixes) => {
            put_value(alloc, out, brackets, Place::BeforeSuffix, value.get())?;
            put_suffixes(alloc, out, brackets, suffixes.as_slice())
        }
        Shape::Chain(first, links) => {
            let level = chain_level(links.as_slice());
            put_value(alloc, out, brackets, Place::Operand(level), first.get())?;
            put_links(alloc, out, brackets, links.as_slice())
        }
        Shape::Conditional(choices, last) => {
            put_choices(alloc, out, brackets, choices.as_slice())?;
            put_value(alloc, out, brackets, Place::Chosen, last.get())
        }
    }
}

#[cycle(value)]
fn put_suffixes(
    alloc: Global,
    out: &mut Writer,
    brackets: Brackets,
    suffixes: &[Suffix],
) -> Result<(), Memory>
    ensures { OnOk result (Wrote out.old (in_row (map (spec.suffix_marks brackets) suffixes.now)) out.new) }
{
    for suffix in suffixes {
        put_suffix(alloc, out, brackets, suffix)?;
    }
    Ok(())
}

fn put_field(alloc: Global, out: &mut Writer, sign: Sign, field: &Name) -> Result<(), Memory>
    ensures { OnOk result (Wrote out.old (spec.member_marks sign field.now) out.new) }
{
    out.token(alloc, Piece::Sign(sign))?;
    out.token(alloc, Piece::Name(field.text.as_slice()))
}

#[cycle(value)]
fn put_index(
    alloc: Global,
    out: &mut Writer,
    brackets: Brackets,
    index: &Expr,
) -> Result<(), Memory>
    ensures { OnOk result (Wrote out.old (spec.index_marks brackets (spec.printed brackets index.now)) out.new) }
{
    out.token(alloc, Piece::Sign(Sign::OpenBracket))?;
    put_value(alloc, out, brackets, Place::Anywhere, index)?;
    out.token(alloc, Piece::Sign(Sign::CloseBracket))
}

#[cycle(value)]
fn put_suffix(
    alloc: Global,
    out: &mut Writer,
    brackets: Brackets,
    suffix: &Suffix,
) -> Result<(), Memory>
    ensures { OnOk result (Wrote out.old (spec.suffix_marks brackets suffix.now) out.new) }
{
    match suffix {
        Suffix::Field(field) => put_field(alloc, out, Sign::Dot, field),
        Suffix::Arrow(field) => put_field(alloc, out, Sign::Arrow, field),
        Suffix::Index(index, _) => put_index(alloc, out, brackets, index),
    }
}

#[cycle(value)]
fn put_links(
    alloc: Global,
    out: &mut Writer,
    brackets: Brackets,
    links: &[Link],
) -> Result<(), Memory>
    ensures { OnOk result (Wrote out.old (spec.link_marks (map (spec.printed_link brackets) links.now)) out.new) }
{
    for link in links {
        put_link(alloc, out, brackets, link)?;
    }
    Ok(())
}

/// Writes a sign between two spaces.
pub fn put_sign(alloc: Global, out: &mut Writer, sign: Sign) -> Result<(), Memory>
    ensures { OnOk result (Wrote out.old (spec.spaced sign) out.new) }
{
    out.space()?;
    out.token(alloc, Piece::Sign(sign))?;
    out.space()
}

#[cycle(value)]
fn put_link(alloc: Global, out: &mut Writer, brackets: Brackets, link: &Link) -> Result<(), Memory>
    ensures { OnOk result (Wrote out.old (spec.printed_link brackets link.now).marks out.new) }
{
    put_sign(alloc, out, sign_of(link.operator))?;
    put_value(
        alloc,
        out,
        brackets,
        Place::Operand(level_of(link.operator)),
        &link.operand,
    )
}

#[cycle(value)]
fn put_choices(
    alloc: Global,
    out: &mut Writer,
    brackets: Brackets,
    choices: &[Choice],
) -> Result<(), Memory>
    ensures { OnOk result (Wrote out.old (in_row (map (spec.choice_marks brackets) choices.now)) out.new) }
{
    for choice in choices {
        put_choice(alloc, out, brackets, choice)?;
    }
    Ok(())
}

#[cycle(value)]
fn put_choice(
    alloc: Global,
    out: &mut Writer,
    brackets: Brackets,
    choice: &Choice,
) -> Result<(), Memory>
    ensures { OnOk result (Wrote out.old (spec.choice_marks brackets choice.now) out.new) }
{
    put_value(alloc, out, brackets, Place::Chosen, &choice.test)?;
    put_sign(alloc, out, Sign::Question)?;
    put_value(alloc, out, brackets, Place::Anywhere, &choice.yes)?;
    put_sign(alloc, out, Sign::Colon)
}
