// The tables of a core: methods, types, properties, signals, static fields.

use crate::lambda::{CoreParameter, Locals};
use crate::tree::{CoreExpr, CoreStmt};
use sqlite_items::Items;
use vala_types::VType;
use vg_base::Span;

/// A method, creation method, accessor, destructor or `construct` block, by its number in `Core::methods`.
#[derive(Drop)]
pub struct CoreMethod {
    /// Its declaration; of a creation method that is supplied that of its class. None of what stands for a built-in one.
    pub symbol: Option<u32>,
    pub locals: Locals,
    pub is_async: bool,
    /// None for an abstract method; else its block.
    pub body: Items<CoreStmt>,
    /// How a creation method begins.
    pub making: Making,
}

/// How a creation method begins. For every other method it is `Nothing`.
#[derive(Drop)]
pub enum Making {
    Nothing,
    /// `base (args)`: the creation method with this number, and its arguments. The span is that of the call.
    /// Where the call is supplied it is that of the name of the creation method, or of the class if that is supplied too.
    Base(u32, Items<CoreExpr>, Span),
    /// `Object (name: value)`: the properties that are given, in the order in which they are written.
    Object(Items<Given>),
}

/// A property that is given to `Object (..)`, and its value.
#[derive(Drop)]
pub struct Given {
    pub property: u32,
    pub value: CoreExpr,
}

/// A slot of a class, and what the class has in it: a method, or for an accessor a property, by its number.
#[derive(Clone, Copy)]
pub struct Slot {
    pub slot: u32,
    pub member: u32,
}

/// What is reached through a slot.
#[derive(Clone, Copy)]
pub enum SlotKind {
    Method,
    Getter,
    Setter,
    /// What a virtual signal runs between its handlers.
    ClassHandler,
}

/// A slot, by its number in `Core::slots`.
#[derive(Drop)]
pub struct SlotInfo {
    pub kind: SlotKind,
    /// The class or interface that introduces it, by its type's number.
    pub introduced_by: u32,
    /// How many slots of that type stand before it, in order of declaration.
    pub order: u32,
    /// The declaration of the method, the accessor or the signal that introduces it.
    pub symbol: u32,
    /// What it takes behind the receiver.
    pub parameters: Items<CoreParameter>,
    pub result: VType,
    /// The errors that it may throw.
    pub errors: Items<VType>,
}

/// A class.
#[derive(Drop)]
pub struct ClassInfo {
    /// The class that it is derived from, but for `Object`.
    pub base: Option<u32>,
    /// The interfaces that it names as bases itself, in order.
    pub interfaces: Items<u32>,
    /// All its bases and interfaces at any depth, and itself.
    pub is_a: Items<u32>,
    /// The types of all its cells, from the base on.
    pub cells: Items<VType>,
    /// Where its own cells begin.
    pub own: u32,
    /// Its own initialisers and the defaults of its properties, in order of declaration. Each stores into a cell of `this`.
    pub initials: Items<CoreStmt>,
    /// Its own construct properties, in order of declaration.
    pub construct_properties: Items<u32>,
    /// The methods of its own `construct` blocks, in order of declaration.
    pub construct_blocks: Items<u32>,
    pub destructor: Option<u32>,
    pub slots: Items<Slot>,
}

/// An interface. Its methods and accessors are slots that it introduces, and it has no cells.
#[derive(Drop)]
pub struct InterfaceInfo {
    /// The bases that it names itself, in order: interfaces, or a class that must be a base of what implements it.
    pub bases: Items<u32>,
    /// All its bases at any depth, and itself.
    pub is_a: Items<u32>,
}

/// An error domain.
#[derive(Drop)]
pub struct DomainInfo {
    /// The text that its quark is made of. No other domain has it.
    pub name: Items<u8>,
}

/// A struct.
#[derive(Drop)]
pub struct StructInfo {
    /// The types of all its cells; a field of struct type has a cell for each of that struct's.
    pub cells: Items<VType>,
}

/// A delegate.
#[derive(Drop)]
pub struct DelegateInfo {
    pub parameters: Items<CoreParameter>,
    pub result: VType,
    /// The errors that a call of it may throw.
    pub errors: Items<VType>,
}

/// A type of the program, by the number that a shape has.
#[derive(Drop)]
pub enum CoreType {
    Class(ClassInfo),
    Struct(StructInfo),
    /// A delegate: what it takes and gives. A run needs nothing of it.
    Delegate(DelegateInfo),
    /// An interface. A run needs nothing of it.
    Interface(InterfaceInfo),
    /// An error domain. A run needs nothing of it.
    Domain(DomainInfo),
    /// An enum, or a built-in type that is neither a class nor a delegate. A run needs nothing of it.
    Other,
}

/// Where a type comes from.
#[derive(Drop)]
pub enum TypeOrigin {
    /// The declaration with this number, which has the number of the type.
    Declared(u32),
    /// It is built in and has this name, without `GLib.` in front.
    BuiltIn(Items<u8>),
}

/// How a property itself is read or written.
#[derive(Clone, Copy)]
pub enum Accessor {
    /// It is not, or it is abstract.
    Missing,
    /// The cell with this number is read or written.
    Automatic(u32),
    /// The method with this number is called.
    Written(u32),
}

/// A property, by its number in `Core::properties`.
#[derive(Drop)]
pub struct CoreProperty {
    pub name: Items<u8>,
    /// The class or interface that declares it, by its type's number.
    pub declared_in: u32,
    /// Its declaration.
    pub symbol: u32,
    pub kind: VType,
    pub getter: Accessor,
    /// Where it is virtual: the slot of the property whose getter is taken, in the receiver's class.
    pub get_slot: Option<u32>,
    /// `owned get;`: an automatic getter gives a copy.
    pub is_get_owned: bool,
    pub setter: Accessor,
    pub set_slot: Option<u32>,
    pub is_construct: bool,
    /// Of a construct property: what is set when none is given, none or one.
    pub default: Items<CoreExpr>,
}

/// A signal, by its number in `Core::signals`.
#[derive(Drop)]
pub struct CoreSignal {
    pub name: Items<u8>,
    /// The class or interface that declares it, by its type's number.
    pub declared_in: u32,
    /// Its declaration. None of `notify`, which is built in.
    pub symbol: Option<u32>,
    pub parameters: Items<VType>,
    /// The slot of its class handler, where it is virtual.
    pub class_handler: Option<u32>,
}

/// A static field.
#[derive(Drop)]
pub struct CorePlace {
    pub symbol: u32,
    pub kind: VType,
    /// Its initialiser, none or one.
    pub initial: Items<CoreExpr>,
}
