// A token of the grammar.

use c_lexer::TokenKind;

/// A file that an include line names.
#[derive(Clone, Copy)]
pub enum IncludedFile {
    /// `<glib.h>`
    Glib,
    /// `<glib-object.h>`
    GlibObject,
    /// `<gio/gio.h>`
    Gio,
    /// `<string.h>`
    String,
    /// `<stdlib.h>`
    Stdlib,
    /// `"NAME.h"`, whose token has the text `NAME`.
    Own,
}

/// What a token is to the grammar.
#[derive(Clone, Copy)]
pub enum Terminal {
    /// A token of the lexer.
    Of(TokenKind),
    /// The name of an included file, which the lexer cuts into several.
    File(IncludedFile),
}

/// A token of the grammar: what it is, its bytes as they are written, where it stands, and whether it is the first on its line.
#[derive(Clone, Copy)]
pub struct Token<'t> {
    pub terminal: Terminal,
    pub text: &'t [u8],
    pub start: u32,
    pub end: u32,
    pub begins_line: bool,
}
