// Operators from their signs.

ghost use Rattle.std.specs.Prelude.{◌≡◌};
ghost use Rattle.c_tree.specs.Kinds as kinds;
ghost use Rattle.c_tree.specs.Values as spec;
ghost use Rattle.c_grammar.specs.Trees as tree;
ghost use Rattle.c_nodes.specs.Seen.{seen};

use crate::names::{at, join};
use crate::token::{Terminal, Token};
use c_lexer::{Sign, TokenKind};
use c_tree::{BinaryOperator, CType, Level, Prefix, PrefixOperator};

/// The operator that a sign is between two operands.
pub fn binary_of(sign: Sign) -> Option<BinaryOperator>
    ensures { result ≡ spec.binary_of sign }
{
    match sign {
        Sign::OrOr => Some(BinaryOperator::Or),
        Sign::AndAnd => Some(BinaryOperator::And),
        Sign::Bar => Some(BinaryOperator::BitOr),
        Sign::Caret => Some(BinaryOperator::BitXor),
        Sign::Ampersand => Some(BinaryOperator::BitAnd),
        Sign::Equal => Some(BinaryOperator::Equal),
        Sign::NotEqual => Some(BinaryOperator::Unequal),
        Sign::Less => Some(BinaryOperator::Less),
        Sign::Greater => Some(BinaryOperator::Greater),
        Sign::LessEqual => Some(BinaryOperator::AtMost),
        Sign::GreaterEqual => Some(BinaryOperator::AtLeast),
        Sign::ShiftLeft => Some(BinaryOperator::ShiftLeft),
        Sign::ShiftRight => Some(BinaryOperator::ShiftRight),
        Sign::Plus => Some(BinaryOperator::Add),
        Sign::Minus => Some(BinaryOperator::Subtract),
        Sign::Star => Some(BinaryOperator::Multiply),
        Sign::Slash => Some(BinaryOperator::Divide),
        Sign::Percent => Some(BinaryOperator::Remainder),
        _ => None,
    }
}

/// How tightly an operator binds.
pub fn level_of(operator: BinaryOperator) -> Level
    ensures { result ≡ kinds.level_of operator }
{
    match operator {
        BinaryOperator::Or => Level::Or,
        BinaryOperator::And => Level::And,
        BinaryOperator::BitOr => Level::BitOr,
        BinaryOperator::BitXor => Level::BitXor,
        BinaryOperator::BitAnd => Level::BitAnd,
        BinaryOperator::Equal | BinaryOperator::Unequal => Level::Equality,
        BinaryOperator::Less
        | BinaryOperator::Greater
        | BinaryOperator::AtMost
        | BinaryOperator::AtLeast => Level::Relation,
        BinaryOperator::ShiftLeft | BinaryOperator::ShiftRight => Level::Shift,
        BinaryOperator::Add | BinaryOperator::Subtract => Level::Sum,
        BinaryOperator::Multiply | BinaryOperator::Divide | BinaryOperator::Remainder => {
            Level::Product
        }
    }
}

/// The operator that a token is between operands.
pub fn operator_in(token: Token<'_>) -> BinaryOperator
    ensures { result ≡ tree.operator_in (seen token.entry).terminal }
{
    match token.terminal {
        Terminal::Of(TokenKind::Sign(sign)) => binary_of(sign).unwrap_or(BinaryOperator::Or),
        _ => BinaryOperator::Or,
    }
}

/// The operator that a sign is before an operand. A constant has no `*` and no `&` there.
pub fn prefix_of(constant: bool, sign: Sign) -> Option<Prefix>
    ensures { result ≡ spec.prefix_of constant sign }
{
    match sign {
        Sign::Plus => Some(Prefix::Plus),
        Sign::Minus => Some(Prefix::Minus),
        Sign::Not => Some(Prefix::Not),
        Sign::Tilde => Some(Prefix::Complement),
        Sign::Star if !constant => Some(Prefix::Deref),
        Sign::Ampersand if !constant => Some(Prefix::AddressOf),
        _ => None,
    }
}

/// The operator that a token is before an operand.
pub fn sign_prefix(token: Token<'_>) -> PrefixOperator
    ensures { result ≡ tree.sign_prefix (seen token.entry) }
{
    let prefix = match token.terminal {
        Terminal::Of(TokenKind::Sign(sign)) => prefix_of(false, sign).unwrap_or(Prefix::Plus),
        _ => Prefix::Plus,
    };
    PrefixOperator {
        prefix,
        span: at(token),
    }
}

/// A cast, from `(` to `)`.
pub fn cast_prefix(opening: Token<'_>, declared: CType, close: Token<'_>) -> PrefixOperator
    ensures { result ≡ tree.cast_prefix (seen opening.entry) declared (seen close.entry) }
{
    PrefixOperator {
        prefix: Prefix::Cast(declared),
        span: join(at(opening), at(close)),
    }
}
