// Operands and suffixes.

ghost use Rattle.std.specs.Prelude.{◌≡◌, IfOk};
ghost use Rattle.c_tree.specs.Make as make;
ghost use Rattle.c_tree.specs.Values as values;
ghost use Rattle.c_grammar.specs.Trees as tree;
ghost use Rattle.c_nodes.specs.Roles.{named_value, role_of};
ghost use Rattle.c_nodes.specs.Seen.{seen};

use crate::names::{at, bytes, join, name};
use crate::role::Role;
use crate::token::{Terminal, Token};
use c_lexer::{Sign, TokenKind};
use c_tree::{CType, Expr, Name, Number, Prefix, Shape, Suffix};
use sqlite_items::Boxed;
use std::alloc::{AllocError, Global};

fn name_shape(role: Role, name: Name) -> Shape
    ensures { result ≡ tree.name_shape (role_of role) name }
{
    match role {
        Role::Function => Shape::Function(name),
        Role::Member => Shape::Member(name),
        _ => Shape::Variable(name),
    }
}

/// A name of a role as a value.
pub fn name_value(alloc: Global, role: Role, token: Token<'_>) -> Result<Boxed<Expr>, AllocError>
    ensures { IfOk result (λ e. e ≡ named_value (role_of role) (seen token.entry)) }
{
    let shape = name_shape(role, name(alloc, token)?);
    let span = at(token);
    Boxed::new(alloc, Expr { shape, span })
}

fn literal_shape(alloc: Global, token: Token<'_>) -> Result<Shape, AllocError>
    ensures { IfOk result (λ s. s ≡ tree.literal_shape (seen token.entry).terminal (seen token.entry).bytes) }
{
    match token.terminal {
        Terminal::Of(TokenKind::Number(value, kind)) => Ok(Shape::Number(Number { value, kind })),
        Terminal::Of(TokenKind::Character(byte)) => Ok(Shape::Character(byte)),
        Terminal::Of(TokenKind::Constant(constant)) => Ok(Shape::Constant(constant)),
        _ => Ok(Shape::Text(bytes(alloc, token)?)),
    }
}

/// A number, a character, a text or a capital name as a value.
pub fn literal(alloc: Global, token: Token<'_>) -> Result<Boxed<Expr>, AllocError>
    ensures { IfOk result (λ e. e ≡ tree.literal (seen token.entry)) }
{
    let shape = literal_shape(alloc, token)?;
    let span = at(token);
    Boxed::new(alloc, Expr { shape, span })
}

/// `sizeof` up to its `)`.
pub fn size_of(
    alloc: Global,
    token: Token<'_>,
    declared: CType,
    close: Token<'_>,
) -> Result<Boxed<Expr>, AllocError>
    ensures { IfOk result (λ e. e ≡ tree.size_of (seen token.entry) declared (seen close.entry)) }
{
    let span = join(at(token), at(close));
    let shape = Shape::SizeOf(declared, span);
    Boxed::new(alloc, Expr { shape, span })
}

/// `G_STRUCT_OFFSET` up to its `)`.
pub fn offset(
    alloc: Global,
    token: Token<'_>,
    declared: CType,
    field: Token<'_>,
    close: Token<'_>,
) -> Result<Boxed<Expr>, AllocError>
    ensures { IfOk result (λ e. e ≡ tree.offset (seen token.entry) declared (seen field.entry) (seen close.entry)) }
{
    let span = join(at(token), at(close));
    let shape = Shape::Offset(declared, name(alloc, field)?, span);
    Boxed::new(alloc, Expr { shape, span })
}

/// `.` and a name, or `->` and a name.
pub fn field(alloc: Global, sign: Token<'_>, field: Token<'_>) -> Result<Suffix, AllocError>
    ensures { IfOk result (λ x. x ≡ tree.field_suffix (seen sign.entry).terminal (make.name_at (seen field.entry))) }
{
    let field = name(alloc, field)?;
    match sign.terminal {
        Terminal::Of(TokenKind::Sign(Sign::Dot)) => Ok(Suffix::Field(field)),
        _ => Ok(Suffix::Arrow(field)),
    }
}

/// `[` and a value up to `]`.
pub fn index(opening: Token<'_>, value: Boxed<Expr>, close: Token<'_>) -> Suffix
    ensures { result ≡ tree.index_suffix (seen opening.entry) value (seen close.entry) }
{
    Suffix::Index(value.into_inner(), join(at(opening), at(close)))
}

/// Whether a value is a place.
pub fn is_place(value: &Expr) -> bool
    ensures { result ≡ values.is_place value.now }
{
    match &value.shape {
        Shape::Variable(_) | Shape::Postfix(_, _) => true,
        Shape::Prefix(operators, _) => match operators.as_slice() {
            [first, ..] => matches!(first.prefix, Prefix::Deref),
            [] => false,
        },
        _ => false,
    }
}
