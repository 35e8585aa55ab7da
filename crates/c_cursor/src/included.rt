// What is found of an included file.

use c_lexer::Lexer;
use c_nodes::Token;

/// An included file as one token, and the lexer behind it.
#[derive(Clone, Copy)]
pub struct Included<'t> {
    pub token: Token<'t>,
    pub behind: Lexer<'t>,
}
