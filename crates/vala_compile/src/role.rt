// What a token is to a program.

ghost use Rattle.std.specs.Prelude.{◌≡◌};
ghost use Rattle.vala_grammar.specs.Trees.{same_bytes};
ghost use Rattle.vala_grammar.specs.declared.sort.Sort.TheVariants as s;
ghost use Rattle.vala_compile.specs.Carried.{lexeme, role_by, role_of};

use vala_grammar::{Sort, sort_of};
use vala_lexer::Token;

/// A token by what it stands for in a program that is carried to C.
#[derive(Clone, Copy)]
pub enum Role {
    Void,
    /// The name `main`.
    Main,
    /// The name `print`.
    Print,
    OpenParen,
    CloseParen,
    OpenBrace,
    CloseBrace,
    Semicolon,
    Text,
    /// A token that no such program has.
    Other,
}

fn same_bytes(one: &[u8], other: &[u8]) -> bool
    ensures { result ≡ same_bytes one.now other.now }
{
    match one {
        [] => other.is_empty(),
        [a, one @ ..] => match other {
            [] => false,
            [b, other @ ..] => *a == *b && same_bytes(one, other),
        },
    }
}

fn role_of_name(text: &[u8]) -> Role
    ensures { result ≡ role_by s.Identifier text.now }
{
    if same_bytes(text, b"main") {
        Role::Main
    } else if same_bytes(text, b"print") {
        Role::Print
    } else {
        Role::Other
    }
}

/// What a token is.
pub fn role_of(token: &Token<'_>) -> Role
    ensures { result ≡ role_of (lexeme token.now) }
{
    match sort_of(token.kind) {
        Sort::Void => Role::Void,
        Sort::Identifier => role_of_name(token.text),
        Sort::OpenParen => Role::OpenParen,
        Sort::CloseParen => Role::CloseParen,
        Sort::OpenBrace => Role::OpenBrace,
        Sort::CloseBrace => Role::CloseBrace,
        Sort::Semicolon => Role::Semicolon,
        Sort::Text => Role::Text,
        _ => Role::Other,
    }
}
