// The tokens of the grammar, one by one, with the next one at hand, so that each is cut once.

ghost use Rattle.std.specs.Prelude.{◌≤◌, length};
ghost use Rattle.c_cursor.specs.Ahead.{start_ahead};
ghost use Rattle.c_cursor.specs.Fronts.{text_of};

use crate::front::{Before, Front};
use crate::names::Names;
use crate::sets::Set;
use c_lexer::{BadToken, Lexer};
use c_nodes::Token;

/// The tokens that are left.
#[derive(Clone, Copy)]
pub struct Cursor<'t> {
    // Behind the next token.
    front: Front<'t>,
    ahead: Result<Option<Token<'t>>, BadToken>,
    ghost inside: { start_ahead ahead ≤ length (text_of front) },
}

impl<'t> Cursor<'t> {
    ghost use Rattle.std.specs.Prelude.{◌≡◌, ◌∷◌, [], MatchOption};
    ghost use Rattle.c_lexer.specs.Tokens.{left};
    ghost use Rattle.c_tree.specs.Words.{words};
    ghost use Rattle.c_nodes.specs.Seen.{seen};
    ghost use Rattle.c_cursor.specs.Rest.{bad_of, tokens_of};
    ghost use Rattle.c_cursor.specs.Scopes.{names_of};
    ghost use Rattle.c_cursor.specs.Sets.{is_in};
    ghost use Rattle.c_cursor.specs.State.{bad, first, is_first_in, rest, seen_option, text_end};

    pub fn new(lexer: Lexer<'t>) -> Cursor<'t>
        ensures tokens { rest result ≡ words (tokens_of (left lexer.entry)) }
        ensures stop { bad result ≡ bad_of (left lexer.entry) }
        ensures ends { text_end result ≡ length (left lexer.entry).bytes }
    {
        let mut front = Front {
            lexer,
            before: Before::Other,
        };
        let ahead = front.cut();
        Cursor { front, ahead }
    }

    /// The next token, None at the end, or the place of what is no token.
    pub fn ahead(&self) -> Result<Option<Token<'t>>, BadToken>
        ensures { result ≡ self.now.ahead }
    {
        self.ahead
    }

    /// The next token, if there is one.
    pub fn token(&self) -> Option<Token<'t>>
        ensures { seen_option result ≡ first (rest self.now) }
    {
        match self.ahead {
            Ok(token) => token,
            Err(_) => None,
        }
    }

    /// Whether there is a next token, and it is in a set among names.
    #[inline(always)]
    pub fn shows(&self, names: &Names<'t>, set: Set<'t>) -> bool
        ensures { result ≡ is_first_in (is_in set.entry (names_of names.now)) (rest self.now) }
    {
        match &self.ahead {
            Ok(Some(token)) => names.have(set, token),
            _ => false,
        }
    }

    /// Takes the next token, if there is one.
    pub fn take(&mut self) -> Option<Token<'t>>
        ensures tokens { MatchOption result ((rest self.old ≡ []) × (rest self.new ≡ [])) (λ t. rest self.old ≡ seen t ∷ rest self.new) }
        ensures stop { bad self.new ≡ bad self.old }
        ensures ends { text_end self.new ≡ text_end self.old }
    {
        match self.ahead {
            Ok(Some(token)) => {
                self.ahead = self.front.cut();
                Some(token)
            }
            _ => None,
        }
    }
}
