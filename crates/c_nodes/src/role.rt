// What a name is to the grammar.

/// Which of the types that `main` is written with a type means.
#[derive(Clone, Copy)]
pub enum Meaning {
    Int,
    Char,
    Another,
}

/// What a name in scope is.
#[derive(Clone, Copy)]
pub enum Role {
    Type(Meaning),
    /// A function of the library, and whether it takes a type first.
    Row(bool),
    Variable,
    Function,
    Member,
    /// Nothing in scope declares it.
    Unknown,
}
