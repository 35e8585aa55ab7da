// What is found in front of bytes: a token, or a fault. Places are counted from the first of these bytes.

use crate::token::TokenKind;
use static_rules::Rule;

/// A token of a length.
#[derive(Clone, Copy)]
pub struct Found {
    pub kind: TokenKind,
    pub len: usize,
}

/// A broken rule, and the bytes that are named.
#[derive(Clone, Copy)]
pub struct Fault {
    pub rule: Rule,
    pub start: usize,
    pub len: usize,
}
