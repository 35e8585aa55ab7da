//! The syntax tree of a source file: one field or variant for each production of the grammar, with its parts in
//! order and the bytes that it stands on. What holds itself does so through `Items` and `Boxed`, so a contract sees a
//! plain tree over lists. A name is the list of its bytes.
//!
//! | production | here |
//! |---|---|
//! | file, name, type | `FileTree`, `NameTree`, `TypeTree` (a name with its `?`: `Element`) |
//! | member, part, attr, modifier | `Member`, `Attribute`, `Modifier` |
//! | space, class, iface, struct, enum, errors, deleg, const, field, method, making, ending, prop, signal, `construct` | a variant of `Declaration` |
//! | bases, throws | a list of `TypeTree` in `Class`, `Signature`, `Creation` |
//! | access, params, param | `Accessor`, a list of `Parameter` |
//! | block, stmt, section, label, local | `Block`, `Stmt` (by family: `Selection`, `Iteration`, `Jump`), `Section`, `Label`, `Local` |
//! | `if` with the `else if` behind it | `If`, a list of `Arm` |
//! | init, exprs | `Expr` (`Primary::List` in braces), a list of `Expr` |
//! | lambda | `Expr::Lambda` |
//! | primary | `Expr::Literal`, `Name`, `This`, `Base`, `Primary` |
//! | postfix | `Postfix` |
//! | call | what `Primary::YieldCall` holds |
//! | args, arg | a list of `Argument` |
//! | operators | `Operation` |
#![tactic(auto)]

mod code;
mod member;
mod names;
mod operators;
mod spans;

pub use code::{
    Argument, ArgumentMark, Arm, Block, Catch, Caught, Declarator, DeclaredType, Expr, For,
    ForStart, Foreach, If, Iteration, Jump, Label, LambdaBody, Literal, Local, NewArray, Operation,
    Postfix, Primary, Section, Selection, Stmt, Try,
};
pub use member::{
    Accessor, Attribute, AttributeArgument, Class, Constant, Construction, Creation, Declaration,
    Destructor, Direction, EnumMember, Enumeration, ErrorDomain, Field, FileTree, Getter, Member,
    Method, Modifier, ModifierWord, Parameter, Property, Setter, SetterWords, Signal, Signature,
    Text,
};
pub use names::{Element, Identifier, NameTree, TypeShape, TypeTree};
pub use operators::{
    AssignOperator, BinaryOperator, IntegerKind, Ownership, PostfixOperator, PrefixOperator,
    TypeOperator,
};
