// What stands outside all functions.

use crate::code::{Block, Expr, Local};
use crate::names::{CType, Name, SignedNumber, Span};
use sqlite_items::Items;

/// A line that has no effect.
pub enum Include {
    /// `<glib.h>`
    Glib,
    /// `<glib-object.h>`
    GlibObject,
    /// `<gio/gio.h>`
    Gio,
    /// `<string.h>`
    String,
    /// `<stdlib.h>`
    Stdlib,
    /// `"NAME.h"`, by `NAME`.
    Own(Items<u8>),
}

impl Drop for Include {
    fn drop(self) {
        match self {
            Include::Own(it) => drop(it),
            Include::Glib
            | Include::GlibObject
            | Include::Gio
            | Include::String
            | Include::Stdlib => {}
        }
    }
}

/// `A = n`
pub struct Member {
    pub name: Name,
    pub number: SignedNumber,
}

impl Drop for Member {
    fn drop(self) {
        let Member { name, number: _ } = self;
        drop(name);
    }
}

/// `typedef enum { members } X;`
pub struct Enumeration {
    pub members: Items<Member>,
    pub name: Name,
}

impl Drop for Enumeration {
    fn drop(self) {
        let Enumeration { members, name } = self;
        drop(members);
        drop(name);
    }
}

/// `struct _X { fields };`. The name is `X`, and stands where `_X` stands.
pub struct StructDefinition {
    pub name: Name,
    pub fields: Items<Local>,
}

impl Drop for StructDefinition {
    fn drop(self) {
        let StructDefinition { name, fields } = self;
        drop(name);
        drop(fields);
    }
}

/// A parameter, which may be without a name where nothing is defined.
pub struct Parameter {
    pub declared: CType,
    pub name: Option<Name>,
}

impl Drop for Parameter {
    fn drop(self) {
        let Parameter { declared, name } = self;
        drop(declared);
        drop(name);
    }
}

/// What a function takes and gives, up to the `)`.
pub struct Signature {
    pub is_static: bool,
    pub result: CType,
    pub name: Name,
    pub parameters: Items<Parameter>,
    pub span: Span,
}

impl Drop for Signature {
    fn drop(self) {
        let Signature {
            is_static: _,
            result,
            name,
            parameters,
            span: _,
        } = self;
        drop(result);
        drop(name);
        drop(parameters);
    }
}

/// `static T v = value;`
pub struct StaticVariable {
    pub declared: CType,
    pub name: Name,
    pub value: Expr,
}

impl Drop for StaticVariable {
    fn drop(self) {
        let StaticVariable {
            declared,
            name,
            value,
        } = self;
        drop(declared);
        drop(name);
        drop(value);
    }
}

/// `static const GInterfaceInfo v = { (GInterfaceInitFunc) f, NULL, NULL };`
pub struct InterfaceTable {
    pub name: Name,
    pub init: Name,
}

impl Drop for InterfaceTable {
    fn drop(self) {
        let InterfaceTable { name, init } = self;
        drop(name);
        drop(init);
    }
}

pub struct Function {
    pub signature: Signature,
    pub body: Block,
}

impl Drop for Function {
    fn drop(self) {
        let Function { signature, body } = self;
        drop(signature);
        drop(body);
    }
}

pub enum Item {
    Include(Include),
    /// `typedef struct _X X;`
    StructType(Name),
    Struct(StructDefinition),
    Enumeration(Enumeration),
    /// `typedef R (*F) (parameters);`
    FunctionType(Signature),
    Prototype(Signature),
    Variable(StaticVariable),
    InterfaceTable(InterfaceTable),
    Function(Function),
}

impl Drop for Item {
    fn drop(self) {
        match self {
            Item::Include(it) => drop(it),
            Item::StructType(it) => drop(it),
            Item::Struct(it) => drop(it),
            Item::Enumeration(it) => drop(it),
            Item::FunctionType(it) => drop(it),
            Item::Prototype(it) => drop(it),
            Item::Variable(it) => drop(it),
            Item::InterfaceTable(it) => drop(it),
            Item::Function(it) => drop(it),
        }
    }
}

pub struct Unit {
    pub items: Items<Item>,
}

impl Drop for Unit {
    fn drop(self) {
        let Unit { items } = self;
        drop(items);
    }
}
