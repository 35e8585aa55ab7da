// The tokens of the grammar behind a place: those of the lexer, but that the name of an included file is one.

use c_lexer::Lexer;

/// What stands in front of a token.
#[derive(Clone, Copy)]
pub enum Before {
    Other,
    /// The `#` that begins a line.
    Hash,
    /// That, and `include` on the same line.
    IncludeWord,
}

/// A place of a text, and what stands in front of it.
#[derive(Clone, Copy)]
pub struct Front<'t> {
    pub lexer: Lexer<'t>,
    pub before: Before,
}
