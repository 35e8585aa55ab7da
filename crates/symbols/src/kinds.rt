// What a declaration is.

use vg_base::Span;

/// What is declared: one kind for each production that declares a name, and those of the built-in names.
#[derive(Clone, Copy)]
pub enum SymbolKind {
    Namespace,
    Class,
    Interface,
    Struct,
    Enum,
    EnumMember,
    ErrorDomain,
    ErrorCode,
    Delegate,
    Constant,
    Field,
    Method,
    /// A creation method.
    Creation,
    Destructor,
    Property,
    Signal,
    /// Of a method, creation method, signal, delegate or lambda, and `value` of an accessor that writes.
    Parameter,
    /// Also the variable of a `foreach` or a `catch`.
    Local,
    /// The row of the table of built-in names.
    BuiltIn(u32),
}

/// Who may use a declaration.
#[derive(Clone, Copy)]
pub enum Access {
    /// Everyone.
    Public,
    /// The class and those that are derived from it.
    Protected,
    /// The files of the program.
    Internal,
    /// The class, interface, struct or namespace around it.
    Private,
}

/// A declaration: its kind, the place of its name, and the declaration around it.
#[derive(Clone, Copy)]
pub struct Decl {
    pub kind: SymbolKind,
    pub span: Span,
    pub owner: Option<u32>,
}
