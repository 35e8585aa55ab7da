// What the type of a value or of a place is.

/// An integer type, in the order of the ranks. Types of one kind have several names in the language.
#[derive(Clone, Copy, Debug, PartialEq, Eq)]
pub enum IntKind {
    /// `int8`: 8 bits, signed.
    Int8,
    /// `char`: 8 bits, signed, and a type of its own.
    Char,
    /// `uint8` and `uchar`.
    Uint8,
    /// `int16` and `short`.
    Int16,
    /// `uint16` and `ushort`.
    Uint16,
    /// `int` and `int32`.
    Int32,
    /// `uint` and `uint32`.
    Uint32,
    /// `long` and `ssize_t`: 64 bits.
    Long,
    /// `ulong` and `size_t`: 64 bits.
    Ulong,
    /// `int64`.
    Int64,
    /// `uint64`.
    Uint64,
}

/// The shape of an array's elements. It is that of no array.
#[derive(Clone, Copy, Debug, PartialEq, Eq)]
pub enum ItemShape {
    Bool,
    Int(IntKind),
    Text,
    Enum(u32),
    Struct(u32),
    Class(u32),
    Interface(u32),
    Delegate(u32),
    Error(Option<u32>),
}

/// The type of an array's elements. Elements own.
#[derive(Clone, Copy, Debug, PartialEq, Eq)]
pub struct Item {
    pub shape: ItemShape,
    /// Whether the element type is written with `?`.
    pub nullable: bool,
}

/// What a type is, but for its marks. A number is that of a declared type.
#[derive(Clone, Copy, Debug, PartialEq, Eq)]
pub enum Shape {
    /// No value.
    Void,
    Bool,
    Int(IntKind),
    /// `string`.
    Text,
    Enum(u32),
    Struct(u32),
    Class(u32),
    Interface(u32),
    Delegate(u32),
    /// An error of the domain with this number, or with none, `GLib.Error`, an error of any domain.
    Error(Option<u32>),
    Array { of: Item },
    /// The shape of `null`.
    Null,
    /// What a finished async method hands to its callback.
    AsyncResult,
    /// What `notify` hands to its handlers.
    ParamSpec,
}

/// The type of a value or of a place.
#[derive(Clone, Copy, Debug, PartialEq, Eq)]
pub struct VType {
    pub shape: Shape,
    /// Of a value: it is fresh, so whoever takes it owns it. Of a place: it owns what it holds.
    pub owned: bool,
    /// Whether the type is written with `?`.
    pub nullable: bool,
}
