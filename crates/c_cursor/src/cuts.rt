// Cutting the next token of the grammar.

ghost use Rattle.std.specs.Prelude.{◌≡◌, ◌≤◌, ◌∷◌, length, Some, Ok};
ghost use Rattle.c_lexer.specs.Tokens.{behind_next, left, next_of};
ghost use Rattle.c_tree.specs.Words as words;
ghost use Rattle.c_nodes.specs.Seen.{seen};
ghost use Rattle.c_cursor.specs.Ahead.{bad_ahead, start_ahead, with_ahead};
ghost use Rattle.c_cursor.specs.Files.{FindsAt};
ghost use Rattle.c_cursor.specs.Fronts.{behind_of, lexeme, stop_of, text_of, words_of};
ghost use Rattle.c_cursor.specs.Rest.{bad_of, tokens_of};

use crate::front::{Before, Front};
use crate::included::Included;
use crate::includes::file_at;
use c_lexer::{BadToken, Lexer, Token as Lexeme};
use c_nodes::{Terminal, Token};

fn plain(token: Lexeme<'_>) -> Token<'_>
    ensures { seen result ≡ words.plain (lexeme token.entry) }
{
    Token {
        terminal: Terminal::Of(token.kind),
        text: token.text,
        start: token.start,
        end: token.end,
        begins_line: token.begins_line,
    }
}

fn is_hash(token: Lexeme<'_>) -> bool
    ensures { result ≡ words.is_hash (lexeme token.entry) }
{
    token.begins_line && token.text == b"#".as_slice()
}

fn is_include(token: Lexeme<'_>) -> bool
    ensures { result ≡ words.is_include (lexeme token.entry) }
{
    !token.begins_line && token.text == b"include".as_slice()
}

// What stands in front of the token behind this one.
fn behind(before: Before, token: Lexeme<'_>) -> Before
    ensures { behind_of result ≡ words.then_behind (behind_of before) (lexeme token.entry) }
{
    match before {
        Before::Hash if is_include(token) => Before::IncludeWord,
        _ => if is_hash(token) {
            Before::Hash
        } else {
            Before::Other
        },
    }
}

// The included file that is named from this token on, which the lexer stands in front of.
fn included<'t>(before: Before, lexer: Lexer<'t>, token: Lexeme<'t>) -> Option<Included<'t>>
    requires { next_of (left lexer) ≡ Ok (Some (lexeme token)) }
    ensures { FindsAt (λ ts. words.file_behind (behind_of before) (lexeme token.entry) ts) lexer.entry (lexeme token.entry) result }
{
    match before {
        Before::IncludeWord => {
            if token.begins_line {
                None
            } else {
                file_at(lexer, token)
            }
        }
        _ => None,
    }
}

impl<'t> Front<'t> {
    /// Cuts the next token.
    #[tactic(auto, using(crate::proofs::Left::left_laws))]
    pub fn cut(&mut self) -> Result<Option<Token<'t>>, BadToken>
        ensures tokens { with_ahead result (words_of self.new) ≡ words_of self.old }
        ensures stop { bad_ahead result (stop_of self.new) ≡ stop_of self.old }
        ensures text { text_of self.new ≡ text_of self.old }
        ensures inside { start_ahead result ≤ length (text_of self.old) }
    {
        let lexer = self.lexer;
        match self.lexer.next() {
            Ok(Some(token)) => Ok(Some(self.joined(lexer, token))),
            Ok(None) => Ok(None),
            Err(stop) => Err(stop),
        }
    }

    // The token that begins with this one, which this lexer stands in front of.
    #[tactic(auto, using(crate::proofs::WordLaws::joined_laws, crate::proofs::Left::bad_next))]
    fn joined(&mut self, lexer: Lexer<'t>, token: Lexeme<'t>) -> Token<'t>
        requires next { next_of (left lexer) ≡ Ok (Some (lexeme token)) }
        requires behind { left self.old.lexer ≡ behind_next (left lexer) }
        ensures tokens { seen result ∷ words_of self.new ≡ words.words_behind (behind_of self.old.before) (tokens_of (left lexer.entry)) }
        ensures stop { stop_of self.new ≡ bad_of (left lexer.entry) }
        ensures text { text_of self.new ≡ (left lexer.entry).bytes }
        ensures start { result.start ≡ token.entry.start }
    {
        match self.before {
            Before::IncludeWord => self.behind_word(lexer, token),
            Before::Hash => {
                self.before = behind(Before::Hash, token);
                plain(token)
            }
            Before::Other => {
                self.before = behind(Before::Other, token);
                plain(token)
            }
        }
    }

    // The same where `include` may stand in front, which is seldom.
    #[inline(never)]
    #[tactic(auto, using(crate::proofs::WordLaws::joined_laws, crate::proofs::Left::bad_next))]
    fn behind_word(&mut self, lexer: Lexer<'t>, token: Lexeme<'t>) -> Token<'t>
        requires next { next_of (left lexer) ≡ Ok (Some (lexeme token)) }
        requires behind { left self.old.lexer ≡ behind_next (left lexer) }
        ensures tokens { seen result ∷ words_of self.new ≡ words.words_behind (behind_of self.old.before) (tokens_of (left lexer.entry)) }
        ensures stop { stop_of self.new ≡ bad_of (left lexer.entry) }
        ensures text { text_of self.new ≡ (left lexer.entry).bytes }
        ensures start { result.start ≡ token.entry.start }
    {
        match included(self.before, lexer, token) {
            Some(found) => {
                self.before = Before::Other;
                self.lexer = found.behind;
                found.token
            }
            None => {
                self.before = behind(self.before, token);
                plain(token)
            }
        }
    }
}
