// What types mean, what names stand for, and the faults of a unit.

/// The bits of an integer.
#[derive(Clone, Copy)]
pub enum Width {
    Eight,
    Sixteen,
    ThirtyTwo,
    SixtyFour,
}

/// A type without its `*`.
#[derive(Clone, Copy)]
pub enum KindBase {
    Void,
    /// The bits, and whether it has a sign.
    Integer(Width, bool),
    /// The struct with that number.
    Struct(u32),
    /// A function type, by the number of its parameters and result.
    Function(u32),
}

/// What a type means. Integer types of one width and sign are one, and so are function types with equal parts.
#[derive(Clone, Copy)]
pub struct Kind {
    pub base: KindBase,
    pub stars: u32,
}

/// An operand: its kind, and whether it is the word `NULL`.
#[derive(Clone, Copy)]
pub struct Operand {
    pub kind: Kind,
    pub null: bool,
}

/// What a name stands for.
#[derive(Clone, Copy)]
pub enum Sort {
    Type(Kind),
    /// A function of the library, by its number in the table.
    Row(u32),
    /// A variable. It has no kind where its type is undeclared.
    Variable(Option<Kind>),
    /// A function of the unit: the number of its signature, whether it is static, and whether it is defined.
    Function(u32, bool, bool),
    /// A member of an enum, by its value.
    Member(i32),
}

/// Why a text is refused.
#[derive(Clone, Copy)]
pub enum Cause {
    /// C1: bad token
    Token,
    /// C2: not in the dialect
    Syntax,
    /// C3: undeclared
    Undeclared,
    /// C4: type does not fit
    Misfit,
    /// C5: declared twice
    Twice,
    /// C6: too large
    Large,
}

/// A refusal, and where it points.
#[derive(Clone, Copy)]
pub struct Refusal {
    pub cause: Cause,
    pub at: u64,
}

/// A fault of a tree.
#[derive(Clone, Copy)]
pub struct Fault {
    pub place: u32,
    pub cause: Cause,
    /// It is known once a token that begins here or behind was taken.
    pub since: u32,
}
