// Chains of operands from their parts.

ghost use Rattle.std.specs.Prelude.{◌≡◌, IfOk};
ghost use Rattle.vala_grammar.specs.Trees as tree;
ghost use Rattle.vala_nodes.specs.Seen.{seen};

use crate::names::join;
use sqlite_items::Boxed;
use std::alloc::{AllocError, Global};
use vala_grammar::{Chain, Tested};
use vala_lexer::{Token, TokenKind};
use vala_tree::{
    AssignOperator, BinaryOperator, Expr, Operation, PrefixOperator, TypeOperator, TypeTree,
};

fn prefix_of(kind: TokenKind) -> PrefixOperator
    ensures { result ≡ tree.prefix_of kind }
{
    match kind {
        TokenKind::Plus => PrefixOperator::Plus,
        TokenKind::Minus => PrefixOperator::Minus,
        TokenKind::Not => PrefixOperator::Not,
        TokenKind::Tilde => PrefixOperator::Complement,
        TokenKind::Increment => PrefixOperator::Increment,
        _ => PrefixOperator::Decrement,
    }
}

pub fn prefixed(alloc: Global, token: Token<'_>, chain: Chain) -> Result<Chain, AllocError>
    ensures { IfOk result (λ c. c ≡ tree.prefixed (seen token.entry) chain) }
{
    let (value, last) = chain.into_parts();
    let span = join(token.span, value.get().span());
    let operation = Operation::Prefix(prefix_of(token.kind), value);
    let value = Boxed::new(alloc, Expr::Operation(operation, span))?;
    Ok(Chain { value, last })
}

/// `(owned)` in front of an operand.
pub fn moved(alloc: Global, opening: Token<'_>, chain: Chain) -> Result<Chain, AllocError>
    ensures { IfOk result (λ c. c ≡ tree.moved (seen opening.entry) chain) }
{
    let (value, last) = chain.into_parts();
    let span = join(opening.span, value.get().span());
    let operation = Operation::Prefix(PrefixOperator::Owned, value);
    let value = Boxed::new(alloc, Expr::Operation(operation, span))?;
    Ok(Chain { value, last })
}

pub fn cast(
    alloc: Global,
    opening: Token<'_>,
    target: TypeTree,
    chain: Chain,
) -> Result<Chain, AllocError>
    ensures { IfOk result (λ c. c ≡ tree.cast (seen opening.entry) target chain) }
{
    let (value, last) = chain.into_parts();
    let span = join(opening.span, value.get().span());
    let operation = Operation::Cast(target, value);
    let value = Boxed::new(alloc, Expr::Operation(operation, span))?;
    Ok(Chain { value, last })
}

fn binary_of(kind: TokenKind) -> BinaryOperator
    ensures { result ≡ tree.binary_of kind }
{
    match kind {
        TokenKind::Coalesce => BinaryOperator::Coalesce,
        TokenKind::OrOr => BinaryOperator::Or,
        TokenKind::AndAnd => BinaryOperator::And,
        TokenKind::Bar => BinaryOperator::BitOr,
        TokenKind::Caret => BinaryOperator::BitXor,
        TokenKind::Ampersand => BinaryOperator::BitAnd,
        TokenKind::Equal => BinaryOperator::Equal,
        TokenKind::NotEqual => BinaryOperator::Unequal,
        TokenKind::Less => BinaryOperator::Less,
        TokenKind::Greater => BinaryOperator::Greater,
        TokenKind::LessEqual => BinaryOperator::AtMost,
        TokenKind::GreaterEqual => BinaryOperator::AtLeast,
        TokenKind::ShiftLeft => BinaryOperator::ShiftLeft,
        TokenKind::ShiftRight => BinaryOperator::ShiftRight,
        TokenKind::Plus => BinaryOperator::Add,
        TokenKind::Minus => BinaryOperator::Subtract,
        TokenKind::Star => BinaryOperator::Multiply,
        TokenKind::Slash => BinaryOperator::Divide,
        _ => BinaryOperator::Remainder,
    }
}

/// An operator and its operands.
fn binary(
    alloc: Global,
    left: Boxed<Expr>,
    token: Token<'_>,
    right: Boxed<Expr>,
) -> Result<Boxed<Expr>, AllocError>
    ensures { IfOk result (λ e. e ≡ (tree.joined (tree.plain left) (seen token.entry) (tree.plain right)).value) }
{
    let span = join(left.get().span(), right.get().span());
    let operation = Operation::Binary(binary_of(token.kind), left, right);
    Boxed::new(alloc, Expr::Operation(operation, span))
}

pub fn joined(
    alloc: Global,
    left: Chain,
    token: Token<'_>,
    right: Chain,
) -> Result<Chain, AllocError>
    ensures { IfOk result (λ c. c ≡ tree.joined left (seen token.entry) right) }
{
    let (value, last) = right.into_parts();
    let value = binary(alloc, left.into_value(), token, value)?;
    Ok(Chain { value, last })
}

fn type_operator(kind: TokenKind) -> TypeOperator
    ensures { result ≡ tree.type_operator kind }
{
    match kind {
        TokenKind::Is => TypeOperator::Is,
        _ => TypeOperator::As,
    }
}

pub fn tested(
    alloc: Global,
    left: Chain,
    token: Token<'_>,
    right: Tested,
) -> Result<Chain, AllocError>
    ensures { IfOk result (λ c. c ≡ tree.tested left (seen token.entry) right) }
{
    let value = left.into_value();
    let (tree, last) = right.into_parts();
    let span = join(value.get().span(), tree.span);
    let operation = Operation::Typed(type_operator(token.kind), value, tree);
    let value = Boxed::new(alloc, Expr::Operation(operation, span))?;
    Ok(Chain { value, last })
}

pub fn conditional(
    alloc: Global,
    test: Boxed<Expr>,
    yes: Boxed<Expr>,
    no: Boxed<Expr>,
) -> Result<Boxed<Expr>, AllocError>
    ensures { IfOk result (λ e. e ≡ tree.conditional test yes no) }
{
    let span = join(test.get().span(), no.get().span());
    let operation = Operation::Conditional(test, yes, no);
    Boxed::new(alloc, Expr::Operation(operation, span))
}

fn assign_of(kind: TokenKind) -> AssignOperator
    ensures { result ≡ tree.assign_of kind }
{
    match kind {
        TokenKind::PlusAssign => AssignOperator::Add,
        TokenKind::MinusAssign => AssignOperator::Subtract,
        TokenKind::StarAssign => AssignOperator::Multiply,
        TokenKind::SlashAssign => AssignOperator::Divide,
        TokenKind::PercentAssign => AssignOperator::Remainder,
        TokenKind::AndAssign => AssignOperator::BitAnd,
        TokenKind::OrAssign => AssignOperator::BitOr,
        TokenKind::XorAssign => AssignOperator::BitXor,
        TokenKind::ShiftLeftAssign => AssignOperator::ShiftLeft,
        TokenKind::ShiftRightAssign => AssignOperator::ShiftRight,
        _ => AssignOperator::Assign,
    }
}

pub fn assigned(
    alloc: Global,
    place: Boxed<Expr>,
    token: Token<'_>,
    value: Boxed<Expr>,
) -> Result<Boxed<Expr>, AllocError>
    ensures { IfOk result (λ e. e ≡ tree.assigned place (seen token.entry) value) }
{
    let span = join(place.get().span(), value.get().span());
    let operation = Operation::Assign(assign_of(token.kind), place, value);
    Boxed::new(alloc, Expr::Operation(operation, span))
}
