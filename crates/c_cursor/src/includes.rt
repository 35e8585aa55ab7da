// The names of included files, which are several tokens of the lexer and one of the grammar.

ghost use Rattle.std.specs.Prelude.{◌≡◌, ◌&&◌, ◌||◌, ◌==◌, not, ◌∷◌, [], ◌<◌, ◌-◌, drop, take, length, Some, Ok};
ghost use Rattle.std.specs.List.{list_all};
ghost use Rattle.c_lexer.specs.Bytes as bytes;
ghost use Rattle.c_lexer.specs.Tokens.{behind_next, left, next_of};
ghost use Rattle.c_tree.specs.Words as words;
ghost use Rattle.c_cursor.specs.Files.{FindsAt, file_among, spelled};
ghost use Rattle.c_cursor.specs.Fronts.{lexeme};
ghost use Rattle.c_cursor.specs.Rest.{bad_of, tokens_of};

use crate::included::Included;
use c_lexer::{Lexer, Sign, Token as Lexeme, TokenKind};
use c_nodes::{IncludedFile, Terminal, Token};

/// A file of the system, how it is spelled, and how many tokens of the lexer that are.
#[derive(Clone, Copy)]
struct SystemFile {
    file: IncludedFile,
    spelling: &'static [u8],
    tokens: usize,
}

const SYSTEM_FILES: [SystemFile; 5] = [
    SystemFile {
        file: IncludedFile::Glib,
        spelling: b"<glib.h>",
        tokens: 5,
    },
    SystemFile {
        file: IncludedFile::GlibObject,
        spelling: b"<glib-object.h>",
        tokens: 7,
    },
    SystemFile {
        file: IncludedFile::Gio,
        spelling: b"<gio/gio.h>",
        tokens: 7,
    },
    SystemFile {
        file: IncludedFile::String,
        spelling: b"<string.h>",
        tokens: 5,
    },
    SystemFile {
        file: IncludedFile::Stdlib,
        spelling: b"<stdlib.h>",
        tokens: 5,
    },
];

/// The file that is named from a token on, which the lexer stands in front of.
pub fn file_at<'t>(lexer: Lexer<'t>, first: Lexeme<'t>) -> Option<Included<'t>>
    requires { next_of (left lexer) ≡ Ok (Some (lexeme first)) }
    ensures { FindsAt (λ ts. words.file_at first.entry.kind (lexeme first.entry) ts) lexer.entry (lexeme first.entry) result }
{
    match first.kind {
        TokenKind::Sign(Sign::Less) => system_file(lexer, first),
        TokenKind::Text => own_file(lexer, first),
        _ => None,
    }
}

fn system_file<'t>(lexer: Lexer<'t>, first: Lexeme<'t>) -> Option<Included<'t>>
    requires { next_of (left lexer) ≡ Ok (Some (lexeme first)) }
    ensures { FindsAt (λ ts. words.system_file first.entry.start (lexeme first.entry ∷ ts)) lexer.entry (lexeme first.entry) result }
{
    for known in SYSTEM_FILES {
        match this_file(lexer, first, known) {
            Some(found) => return Some(found),
            None => {}
        }
    }
    None
}

// This file, if the tokens have its spelling.
#[tactic(auto, using(crate::proofs::FileLaws::this_laws))]
fn this_file<'t>(lexer: Lexer<'t>, first: Lexeme<'t>, known: SystemFile) -> Option<Included<'t>>
    requires next { next_of (left lexer) ≡ Ok (Some (lexeme first)) }
    requires some { 0 < known.tokens }
    ensures { FindsAt (λ ts. file_among (known ∷ []) first.entry.start (lexeme first.entry ∷ ts)) lexer.entry (lexeme first.entry) result }
{
    match spelled_end(lexer, first.start, known.tokens, known.spelling) {
        Some(end) => Some(Included {
            token: Token {
                terminal: Terminal::File(known.file),
                text: b"",
                start: first.start,
                end,
                begins_line: first.begins_line,
            },
            behind: passed(lexer, known.tokens),
        }),
        None => None,
    }
}

// Where so many tokens end, as far as they stand side by side from a place on, if they have this spelling.
#[tactic(auto, using(crate::proofs::FileLaws::spelled_laws))]
fn spelled_end(front: Lexer<'_>, at: u32, tokens: usize, spelling: &[u8]) -> Option<u32>
    ensures { result ≡ spelled at tokens (tokens_of (left front.entry)) spelling.now }
{
    if tokens == 0 {
        return end_of_none(at, spelling);
    }
    let mut lexer = front;
    match lexer.next() {
        Ok(Some(token)) => {
            if token.start != at {
                return end_of_none(at, spelling);
            }
            match spelling.strip_prefix(token.text) {
                Some(further) => spelled_end(lexer, token.end, tokens - 1, further),
                None => None,
            }
        }
        Ok(None) => end_of_none(at, spelling),
        Err(_) => end_of_none(at, spelling),
    }
}

// Where no tokens end, if they have this spelling.
fn end_of_none(at: u32, spelling: &[u8]) -> Option<u32>
    ensures { result ≡ spelled at 0 [] spelling.now }
{
    if spelling.is_empty() { Some(at) } else { None }
}

// The lexer behind so many tokens.
#[tactic(auto, using(crate::proofs::FileLaws::passed_laws))]
fn passed(front: Lexer<'_>, tokens: usize) -> Lexer<'_>
    ensures tokens { tokens_of (left result) ≡ drop tokens (tokens_of (left front.entry)) }
    ensures bad { bad_of (left result) ≡ bad_of (left front.entry) }
    ensures text { (left result).bytes ≡ (left front.entry).bytes }
{
    if tokens == 0 {
        return front;
    }
    let mut lexer = front;
    let _ = lexer.next();
    passed(lexer, tokens - 1)
}

// What stands between the quotes of a text.
fn inside(text: &[u8]) -> &[u8]
    ensures { result.now ≡ take (length text.now - 2) (drop 1 text.now) }
{
    match text {
        [_, inside @ .., _] => inside,
        _ => b"",
    }
}

#[tactic(auto, using(crate::proofs::FileLaws::own_laws))]
fn own_file<'t>(lexer: Lexer<'t>, first: Lexeme<'t>) -> Option<Included<'t>>
    requires { next_of (left lexer) ≡ Ok (Some (lexeme first)) }
    ensures { FindsAt (λ ts. words.own_file (take (length first.entry.text.now - 2) (drop 1 first.entry.text.now))) lexer.entry (lexeme first.entry) result }
{
    let name = inside(first.text).strip_suffix(b".h")?;
    if !is_file_name(name) {
        return None;
    }
    let token = Token {
        terminal: Terminal::File(IncludedFile::Own),
        text: name,
        start: first.start,
        end: first.end,
        begins_line: first.begins_line,
    };
    Some(Included {
        token,
        behind: passed(lexer, 1),
    })
}

#[tactic(auto, using(crate::proofs::ByteLaws::byte_laws))]
fn is_letter(byte: u8) -> bool
    ensures { result ≡ (bytes.is_letter byte && not (byte == 95)) }
{
    byte.is_ascii_alphabetic()
}

#[tactic(auto, using(crate::proofs::ByteLaws::byte_laws))]
fn is_word_byte(byte: u8) -> bool
    ensures { result ≡ (bytes.is_letter byte || bytes.is_digit byte) }
{
    byte.is_ascii_alphanumeric() || byte == b'_'
}

fn are_word_bytes(text: &[u8]) -> bool
    ensures { result ≡ list_all (λ b. bytes.is_letter b || bytes.is_digit b) text.now }
{
    text.iter().all(|byte| is_word_byte(*byte))
}

// A letter, and then at most 99 letters, digits and `_`.
#[tactic(auto, using(crate::proofs::ByteLaws::name_laws))]
fn is_file_name(name: &[u8]) -> bool
    ensures { result ≡ words.is_file_name name.now }
{
    match name {
        [] => false,
        [first, others @ ..] => is_letter(*first) && others.len() <= 99 && are_word_bytes(others),
    }
}
