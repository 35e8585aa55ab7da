// What is made up behind the place where a text stops.

ghost use Rattle.std.specs.Prelude.{◌≡◌};
ghost use Rattle.c_grammar.specs.Mending as made;
ghost use Rattle.c_nodes.specs.Seen.{seen};
ghost use Rattle.c_cursor.specs.Made as spec;

use crate::sets::Set;
use c_lexer::{Constant, Keyword, NumberType, Sign, TokenKind};
use c_nodes::{IncludedFile, Terminal, Token};

// A token without length.
fn made(terminal: Terminal, text: &[u8], place: u32, begins_line: bool) -> Token<'_>
    ensures { seen result ≡ spec.made_from terminal text.now place begins_line }
{
    Token {
        terminal,
        text,
        start: place,
        end: place,
        begins_line,
    }
}

fn made_sign<'t>(sign: Sign, place: u32) -> Token<'t>
    ensures { seen result ≡ made.made_sign place sign }
{
    made(Terminal::Of(TokenKind::Sign(sign)), b"", place, false)
}

fn made_word<'t>(word: Keyword, place: u32) -> Token<'t>
    ensures { seen result ≡ made.made_word place word }
{
    made(Terminal::Of(TokenKind::Keyword(word)), b"", place, true)
}

fn made_name(letters: &[u8], place: u32) -> Token<'_>
    ensures { seen result ≡ made.made_name place letters.now }
{
    made(Terminal::Of(TokenKind::Identifier), letters, place, false)
}

/// A token of a set that is asked for. A type is `int`, and a name has no letters.
pub fn made_up<'t>(set: Set<'t>, place: u32) -> Token<'t>
    ensures { seen result ≡ spec.made_for place set.entry }
{
    match set {
        Set::Sign(sign) => made_sign(sign, place),
        Set::Word(word) => made_word(word, place),
        Set::Number => made(
            Terminal::Of(TokenKind::Number(0, NumberType::Gint)),
            b"",
            place,
            false,
        ),
        Set::Null => made(
            Terminal::Of(TokenKind::Constant(Constant::Null)),
            b"",
            place,
            false,
        ),
        Set::File => made(Terminal::File(IncludedFile::Glib), b"", place, false),
        Set::IncludeWord => made_name(b"include", place),
        Set::InitFunc => made_name(b"GInterfaceInitFunc", place),
        Set::Tag => made_name(b"_", place),
        Set::NameOf(letters) => made_name(letters, place),
        Set::CharBase => made_word(Keyword::Char, place),
        Set::Base(_) | Set::BaseOnLine(_) | Set::KeyBase | Set::OtherBase | Set::IntBase => {
            made_word(Keyword::Int, place)
        }
        _ => made_name(b"", place),
    }
}
