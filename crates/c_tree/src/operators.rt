// Operators of values.

use crate::names::{CType, Span};

/// How tightly an operator between two operands binds, the loosest first. All of them bind to the left.
#[derive(Clone, Copy)]
pub enum Level {
    Or,
    And,
    BitOr,
    BitXor,
    BitAnd,
    Equality,
    Relation,
    Shift,
    Sum,
    Product,
}

#[derive(Clone, Copy)]
pub enum BinaryOperator {
    /// `||`
    Or,
    /// `&&`
    And,
    /// `|`
    BitOr,
    /// `^`
    BitXor,
    /// `&`
    BitAnd,
    /// `==`
    Equal,
    /// `!=`
    Unequal,
    /// `<`
    Less,
    /// `>`
    Greater,
    /// `<=`
    AtMost,
    /// `>=`
    AtLeast,
    /// `<<`
    ShiftLeft,
    /// `>>`
    ShiftRight,
    /// `+`
    Add,
    /// `-`
    Subtract,
    /// `*`
    Multiply,
    /// `/`
    Divide,
    /// `%`
    Remainder,
}

/// What stands before its operand.
pub enum Prefix {
    /// `+`
    Plus,
    /// `-`
    Minus,
    /// `!`
    Not,
    /// `~`
    Complement,
    /// `*`
    Deref,
    /// `&`
    AddressOf,
    /// `(type)`
    Cast(CType),
}

impl Drop for Prefix {
    fn drop(self) {
        match self {
            Prefix::Cast(it) => drop(it),
            Prefix::Plus
            | Prefix::Minus
            | Prefix::Not
            | Prefix::Complement
            | Prefix::Deref
            | Prefix::AddressOf => {}
        }
    }
}

/// An operator before its operand, and where it stands.
pub struct PrefixOperator {
    pub prefix: Prefix,
    pub span: Span,
}

impl Drop for PrefixOperator {
    fn drop(self) {
        let PrefixOperator { prefix, span: _ } = self;
        drop(prefix);
    }
}
