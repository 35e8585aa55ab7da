// What is found in front of bytes.

use crate::token::TokenKind;

/// A token of a length.
#[derive(Clone, Copy)]
pub struct Found {
    pub kind: TokenKind,
    pub len: usize,
}

/// White space and comments of a length, and whether a line feed stands in the white space among them.
#[derive(Clone, Copy)]
pub struct Gap {
    pub len: usize,
    pub breaks_line: bool,
}
