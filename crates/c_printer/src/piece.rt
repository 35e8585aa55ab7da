// What is put.

use c_lexer::{Constant, Keyword, NumberType, Sign};

/// A token that is put, by what it says.
#[derive(Clone, Copy)]
pub enum Piece<'t> {
    /// An identifier, by its bytes.
    Name(&'t [u8]),
    Keyword(Keyword),
    Constant(Constant),
    /// A number, by its value and its type.
    Number(u64, NumberType),
    /// A text, by the bytes that it denotes.
    Text(&'t [u8]),
    /// A character, by its byte.
    Character(u8),
    Sign(Sign),
}
