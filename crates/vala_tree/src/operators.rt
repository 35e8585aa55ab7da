// The words and signs that an operator, a literal or a mark is written with.

/// Where the words `owned`, `unowned` and `weak` stand before a type.
#[derive(Clone, Copy)]
pub enum Ownership {
    Owned,
    Unowned,
    Weak,
}

/// The type of an integer literal, from its suffix and its value.
#[derive(Clone, Copy)]
pub enum IntegerKind {
    Int,
    Uint,
    Long,
    Ulong,
    Int64,
    Uint64,
}

/// What stands before its operand and binds as tightly as a cast.
#[derive(Clone, Copy)]
pub enum PrefixOperator {
    /// `+`
    Plus,
    /// `-`
    Minus,
    /// `!`
    Not,
    /// `~`
    Complement,
    /// `++`
    Increment,
    /// `--`
    Decrement,
    /// `(owned)`
    Owned,
}

/// What stands behind its operand.
#[derive(Clone, Copy)]
pub enum PostfixOperator {
    /// `++`
    Increment,
    /// `--`
    Decrement,
}

/// An operator between two operands that is no assignment, the loosest first.
#[derive(Clone, Copy)]
pub enum BinaryOperator {
    /// `??`, the only one that binds to the right
    Coalesce,
    /// `||`
    Or,
    /// `&&`
    And,
    /// `|`
    BitOr,
    /// `^`
    BitXor,
    /// `&`
    BitAnd,
    /// `==`
    Equal,
    /// `!=`
    Unequal,
    /// `<`
    Less,
    /// `>`
    Greater,
    /// `<=`
    AtMost,
    /// `>=`
    AtLeast,
    /// `<<`
    ShiftLeft,
    /// `>>`
    ShiftRight,
    /// `+`
    Add,
    /// `-`
    Subtract,
    /// `*`
    Multiply,
    /// `/`
    Divide,
    /// `%`
    Remainder,
}

/// An operator whose right operand is a type.
#[derive(Clone, Copy)]
pub enum TypeOperator {
    Is,
    As,
}

#[derive(Clone, Copy)]
pub enum AssignOperator {
    /// `=`
    Assign,
    /// `+=`
    Add,
    /// `-=`
    Subtract,
    /// `*=`
    Multiply,
    /// `/=`
    Divide,
    /// `%=`
    Remainder,
    /// `&=`
    BitAnd,
    /// `|=`
    BitOr,
    /// `^=`
    BitXor,
    /// `<<=`
    ShiftLeft,
    /// `>>=`
    ShiftRight,
}
