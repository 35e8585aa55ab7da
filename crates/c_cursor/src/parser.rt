// The state of the reader: the tokens that are left, the names in scope, and whether it has stopped.
//
// At the first token that cannot stand where it is, the reader stops in front of it. From there on it makes up what it wants, and
// goes on as at the end of a text: no token is the next one, so that of several ways it takes the last.

ghost use Rattle.std.specs.Prelude.{◌≡◌, ◌<◌, ◌-◌, ◌^◌};
ghost use Rattle.c_cursor.specs.State.{text_end};

use crate::cursor::Cursor;
use crate::made::made_up;
use crate::names::Names;
use crate::no_memory::NoMemory;
use crate::places::{made_place, moved};
use crate::sets::Set;
use c_lexer::{BadToken, Lexer};
use c_nodes::{Role, Token};
use std::alloc::Global;

/// No token stands at this level.
const LEVELS: u32 = 65;

#[derive(Drop)]
pub struct Parser<'t> {
    pub alloc: Global,
    pub names: Names<'t>,
    pub cursor: Cursor<'t>,
    pub is_stopped: bool,
    /// Where the text ends.
    pub end: u32,
    ghost ends: { text_end cursor ≡ end },
    ghost short: { end < 2 ^ 32 - 1 },
}

impl<'t> Parser<'t> {
    ghost use Rattle.std.specs.Prelude.{◌≤◌, false, true, length, IfOk, IsSome, Some};
    ghost use Rattle.mending_readers.specs.Mending as mending;
    ghost use Rattle.c_lexer.specs.Tokens.{all_of};
    ghost use Rattle.c_tree.specs.Names as names;
    ghost use Rattle.c_tree.specs.Words as words;
    ghost use Rattle.c_grammar.specs.Sorts.{kind};
    ghost use Rattle.c_nodes.specs.Roles.{role_of};
    ghost use Rattle.c_nodes.specs.Seen.{seen};
    ghost use Rattle.c_cursor.specs.Gives.{IsAsked, accepted, asked, room, state, test};
    ghost use Rattle.c_cursor.specs.Rest.{bad_of, tokens_of};
    ghost use Rattle.c_cursor.specs.Scopes.{names_of};
    ghost use Rattle.c_cursor.specs.State.{bad, seen_option};
    ghost use Rattle.c_cursor.specs.Reading.{is_next, one};
    ghost use Rattle.c_cursor.specs.Steps.{Bears, Took, Where, is_asked};

    pub fn new(alloc: Global, bytes: &'t [u8]) -> Result<Parser<'t>, NoMemory>
        requires { length bytes.now < 2 ^ 32 - 1 }
        ensures state { IfOk result (λ p. state p ≡ mending.Going (words.words (tokens_of (all_of bytes.now)))) }
        ensures names { IfOk result (λ p. names_of p.names ≡ names.library_names) }
        ensures ends { IfOk result (λ p. p.end ≡ length bytes.now) }
        ensures stop { IfOk result (λ p. bad p.cursor ≡ bad_of (all_of bytes.now)) }
    {
        Ok(Parser {
            alloc,
            names: Names::new(alloc)?,
            cursor: Cursor::new(Lexer::new(bytes)),
            is_stopped: false,
            end: bytes.len() as u32,
        })
    }

    /// The role of a name.
    pub fn role(&self, token: Token<'t>) -> Role
        ensures { role_of result ≡ names.role_of (names_of self.now.names) token.entry.text.now }
    {
        self.names.role(token.text)
    }

    #[tactic(auto, using(crate::proofs::AcceptLaws::next_laws))]
    /// Whether the next token is in a set. There is none once the reader has stopped.
    #[inline(always)]
    pub fn next_in(&self, set: Set<'t>) -> bool
        ensures token { result ≡ mending.next_in kind (test set.entry self.now) (state self.now) }
        ensures next { result ≡ is_next (names_of self.now.names) set.entry (state self.now) }
    {
        if self.is_stopped {
            return false;
        }
        self.cursor.shows(&self.names, set)
    }

    /// Takes the next token if it is in a set. One whose level is too high stops the reader, and is made up.
    #[inline(always)]
    pub fn accept(&mut self, set: Set<'t>, level: u32) -> Option<Token<'t>>
        ensures token { (seen_option result, state self.new) ≡ accepted set.entry level self.old }
        ensures took { Took set.entry level self.old result self.new }
        ensures names { self.new.names ≡ self.old.names }
        ensures ends { self.new.end ≡ self.old.end }
        ensures stop { bad self.new.cursor ≡ bad self.old.cursor }
        ensures shorter { IsSome result → room (state self.new) < room (state self.old) }
        ensures low { IsSome result → self.new.is_stopped ≡ false → level < 65 }
    {
        self.accept_next(set, level)
    }

    // The same, by what the grammar says of one token.
    #[inline(always)]
    fn accept_next(&mut self, set: Set<'t>, level: u32) -> Option<Token<'t>>
        ensures token { (seen_option result, state self.new) ≡ accepted set.entry level self.old }
        ensures names { self.new.names ≡ self.old.names }
        ensures ends { self.new.end ≡ self.old.end }
        ensures stop { bad self.new.cursor ≡ bad self.old.cursor }
        ensures shorter { IsSome result → room (state self.new) < room (state self.old) }
        ensures low { IsSome result → self.new.is_stopped ≡ false → level < 65 }
    {
        if !self.next_in(set) {
            return None;
        }
        self.take_next(set, level)
    }

    // Takes the next token, which is in a set.
    #[inline(never)]
    fn take_next(&mut self, set: Set<'t>, level: u32) -> Option<Token<'t>>
        requires there { mending.next_in kind (test set self.old) (state self.old) ≡ true }
        ensures token { (seen_option result, state self.new) ≡ accepted set.entry level self.old }
        ensures names { self.new.names ≡ self.old.names }
        ensures ends { self.new.end ≡ self.old.end }
        ensures stop { bad self.new.cursor ≡ bad self.old.cursor }
        ensures shorter { IsSome result → room (state self.new) < room (state self.old) }
        ensures low { IsSome result → self.new.is_stopped ≡ false → level < 65 }
    {
        if level < LEVELS {
            return self.cursor.take();
        }
        self.is_stopped = true;
        let next = self.cursor.token();
        let place = made_place(next, self.end);
        moved(next, place)
    }

    /// Takes a token of a set. Where the next one is not in it, the reader stops and makes one up.
    #[inline(always)]
    pub fn expect(&mut self, set: Set<'t>, level: u32) -> Token<'t>
        ensures token { (before : words.Word) → IsAsked set.entry before → (seen result, state self.new) ≡ asked set.entry level before self.old }
        ensures took { Where (is_asked set.entry) (one self.old.end (names_of self.old.names) set.entry level (state self.old) ≡ Some (seen result, state self.new)) }
        ensures bears { Bears set.entry result }
        ensures shorter { room (state self.new) ≤ room (state self.old) }
        ensures names { self.new.names ≡ self.old.names }
        ensures ends { self.new.end ≡ self.old.end }
        ensures stop { bad self.new.cursor ≡ bad self.old.cursor }
        ensures low { self.new.is_stopped ≡ false → level < 65 }
    {
        match self.accept(set, level) {
            Some(token) => token,
            None => {
                self.is_stopped = true;
                made_up(set, made_place(self.cursor.token(), self.end))
            }
        }
    }
}
