// The declarations of a program, from which alone its interface can be told.

use crate::lambda::Mode;
use crate::tree::{CoreExpr, ErrorType};
use sqlite_items::Items;
use vala_types::VType;
use vg_base::Span;

/// What a declaration declares.
#[derive(Clone, Copy)]
pub enum DeclKind {
    Namespace,
    Class,
    Interface,
    Struct,
    Enum,
    EnumMember,
    ErrorDomain,
    ErrorCode,
    Delegate,
    Constant,
    Field,
    Method,
    CreationMethod,
    Destructor,
    ConstructBlock,
    Property,
    Getter,
    Setter,
    Signal,
    Parameter,
}

/// Who may use a declaration.
#[derive(Clone, Copy)]
pub enum Access {
    Public,
    Protected,
    Internal,
    Private,
}

/// The words before a declaration, but for the access word.
#[derive(Clone, Copy)]
pub struct Modifiers {
    pub is_static: bool,
    pub is_abstract: bool,
    pub is_virtual: bool,
    pub is_override: bool,
    pub is_async: bool,
    pub is_inline: bool,
}

/// One declaration. They stand in order of files and declaration, each before those in it.
#[derive(Drop)]
pub struct CoreDecl {
    pub kind: DeclKind,
    /// Of a class, interface, struct, enum, error domain or delegate: its number in `Core::types`.
    pub type_number: Option<u32>,
    /// The declaration around it, by its place in the list.
    pub owner: Option<u32>,
    pub full_name: Items<u8>,
    /// `cname` and `cheader_filename`, each none or one.
    pub c_name: Items<Items<u8>>,
    pub c_header: Items<Items<u8>>,
    pub access: Access,
    pub modifiers: Modifiers,
    /// Of a parameter: how it gets what its argument gives.
    pub mode: Mode,
    /// Of a setter: whether it is `set`, and whether it is `construct`.
    pub is_set: bool,
    pub is_construct: bool,
    /// Its type as it is written, or that of its result. Of a getter it owns where `owned` is written.
    /// A parameter of an async method owns where `owned` is written; its place in the frame always owns.
    pub value_type: VType,
    /// Bases, in the order in which they are written.
    pub bases: Items<VType>,
    /// The errors that it declares, each with the span of its type.
    pub errors: Items<ErrorType>,
    /// The value of a constant, a default or an enum member, none or one, as an expression that needs no step.
    pub value: Items<CoreExpr>,
    /// The span of its name, or of the word of an accessor.
    pub at: Span,
}
