// Units of the C dialect: the tree of a text, one type or variant for each production. What holds itself does so
// through `Items` and `Boxed`, and what a text can repeat without a bracket is a list, so that no tree is deeper than
// the brackets of its text.
//
// | production | here |
// |---|---|
// | unit, item | `Unit`, `Item` |
// | include line | `Include` |
// | struct, fields | `StructDefinition`, a list of `Local` |
// | enum, members | `Enumeration`, `Member` |
// | function type, prototype, the head of a function | `Signature`, `Parameter` |
// | static variable, interface table | `StaticVariable`, `InterfaceTable` |
// | function | `Function` |
// | type | `CType`, `Base` |
// | block, declaration, statement | `Block`, `Local`, `Stmt` |
// | call | `Call`, `Callee` |
// | value, place | `Expr`, `Shape` |
// | prefixes, chains, suffixes, `?:` | lists of `PrefixOperator`, `Link`, `Suffix`, `Choice` |
#![tactic(auto)]

mod code;
mod kinds;
mod laws;
mod names;
mod operators;
mod unit;

pub use code::{Block, Call, Callee, Case, Choice, Expr, Link, Local, Shape, Stmt, Suffix};
pub use kinds::{Cause, Fault, Kind, KindBase, Operand, Refusal, Sort, Width};
pub use laws::{
    kinds_are_compared, least_fault_is_first, one_answer, texts_are_answered, units_are_answered,
};
pub use names::{Base, CType, Name, Number, SignedNumber, Span};
pub use operators::{BinaryOperator, Level, Prefix, PrefixOperator};
pub use unit::{
    Enumeration, Function, Include, InterfaceTable, Item, Member, Parameter, Signature,
    StaticVariable, StructDefinition, Unit,
};
