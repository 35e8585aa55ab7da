// Names, numbers and types as they are written.

use c_lexer::NumberType;
use sqlite_items::Items;

/// From the first byte up to the one behind the last.
#[derive(Clone, Copy)]
pub struct Span {
    pub start: u32,
    pub end: u32,
}

pub struct Name {
    pub text: Items<u8>,
    pub span: Span,
}

impl Drop for Name {
    fn drop(self) {
        let Name { text, span: _ } = self;
        drop(text);
    }
}

/// A number by its value and its type; whether it was written in hexadecimal is not kept.
#[derive(Clone, Copy)]
pub struct Number {
    pub value: u64,
    pub kind: NumberType,
}

/// A number, and whether `-` stands before it.
#[derive(Clone, Copy)]
pub struct SignedNumber {
    pub is_negative: bool,
    pub number: Number,
}

/// What a type is built from.
pub enum Base {
    Void,
    Int,
    Char,
    /// A type of the library or of the unit.
    Named(Name),
}

impl Drop for Base {
    fn drop(self) {
        match self {
            Base::Named(it) => drop(it),
            Base::Void | Base::Int | Base::Char => {}
        }
    }
}

/// A base, whether `const` stands beside it, and how many `*` stand behind it. `const` behind a `*` is not kept.
pub struct CType {
    pub base: Base,
    pub is_const: bool,
    pub stars: u32,
    pub span: Span,
}

impl Drop for CType {
    fn drop(self) {
        let CType {
            base,
            is_const: _,
            stars: _,
            span: _,
        } = self;
        drop(base);
    }
}
