// The tokens of a file with the next one at hand, so that each is cut once.

ghost use Rattle.std.specs.Prelude.{◌≡◌, ◌<◌, IsOk};
ghost use Rattle.predictive_grammar.specs.Steps.{shift, fail, Syntax};
ghost use Rattle.vala_lexer.specs.Tokens.{left, shown, next_of, behind_next};
ghost use Rattle.vala_grammar.specs.Answer.{limits};
ghost use Rattle.vala_grammar.specs.Tests.{is, among};
ghost use Rattle.vala_cursor.specs.Gets.{Gives, seen, seen_option, next, got, sort_at, sort_shown, token_at, token_shown};
ghost use Rattle.vala_cursor.specs.Parsed.{refused};
ghost use Rattle.vala_cursor.specs.Rest.{tokens_of, stop_of};

use crate::faults::fault_at;
use crate::stop::{Flaw, Stop};
use static_rules::Refusal;
use vala_grammar::{Sort, sort_of};
use vala_lexer::{Lexer, Token};
use vg_base::{Fault, Span};

/// A token's level is below this.
const LEVELS: u32 = 201;

/// Before an item of a list stand fewer than this.
const ITEMS: usize = 200;

/// The lexer in front of the next token, and that behind it.
#[derive(Drop)]
pub struct Cursor<'t> {
    front: Lexer<'t>,
    behind: Lexer<'t>,
    ahead: Result<Option<Token<'t>>, Refusal>,
    ghost next: { shown ahead ≡ next_of (left front) },
    ghost after: { left behind ≡ behind_next (left front) },
}

fn token_ahead<'t>(answer: Result<Option<Token<'t>>, Refusal>) -> Option<Token<'t>>
    ensures { seen_option result ≡ token_shown (shown answer.entry) }
{
    match answer {
        Ok(token) => token,
        Err(_) => None,
    }
}

fn sort_ahead(answer: Result<Option<Token<'_>>, Refusal>) -> Option<Sort>
    ensures { result ≡ sort_shown (shown answer.entry) }
{
    match answer {
        Ok(Some(token)) => Some(sort_of(token.kind)),
        _ => None,
    }
}

impl<'t> Cursor<'t> {
    pub fn new(lexer: Lexer<'t>) -> Cursor<'t>
        ensures { result.front ≡ lexer.entry }
    {
        let mut behind = lexer;
        let ahead = behind.next();
        Cursor {
            front: lexer,
            behind,
            ahead,
        }
    }

    /// The lexer in front of the next token.
    pub fn lexer(&self) -> Lexer<'t>
        ensures { result ≡ self.now.front }
    {
        self.front
    }

    /// The fault at the next token, or what stops the tokens there. The file ends at `end`.
    pub fn fault(&self, stop: Stop, end: Span) -> Fault<Refusal>
        ensures { result ≡ refused stop end (next_of (left self.now.front)) }
    {
        fault_at(self.ahead, stop, end)
    }

    /// The next token.
    #[tactic(auto, using(crate::proofs::Left::token_ahead))]
    pub fn token(&self) -> Option<Token<'t>>
        ensures { seen_option result ≡ token_at (tokens_of (left self.now.front)) }
    {
        token_ahead(self.ahead)
    }

    /// The next token's sort.
    #[tactic(auto, using(crate::proofs::Left::sort_ahead))]
    pub fn sort(&self) -> Option<Sort>
        ensures { result ≡ sort_at (tokens_of (left self.now.front)) }
    {
        sort_ahead(self.ahead)
    }

    /// Whether the next token is of the sort.
    pub fn is(&self, sort: Sort) -> bool
        ensures { result ≡ next (is sort) (tokens_of (left self.now.front)) }
    {
        match self.sort() {
            Some(found) => same_sort(found, sort),
            None => false,
        }
    }

    /// Takes the next token, which a text may go on with.
    #[tactic(auto, using(crate::proofs::Left::ahead_laws))]
    pub fn shift(&mut self, items: usize, level: u32) -> Result<Token<'t>, Stop>
        ensures token { Gives seen (shift limits level items (tokens_of (left self.old.front))) result (tokens_of (left self.new.front)) }
        ensures kept { stop_of (left self.new.front) ≡ stop_of (left self.old.front) }
        ensures low { IsOk result → level < 201 }
        ensures few { IsOk result → items < 200 }
    {
        let Ok(Some(token)) = self.ahead else {
            return Err(Stop::Flawed(Flaw::Syntax));
        };
        if level >= LEVELS {
            return Err(Stop::Flawed(Flaw::Nesting));
        }
        if items >= ITEMS {
            return Err(Stop::Flawed(Flaw::Number));
        }
        self.front = self.behind;
        self.ahead = self.behind.next();
        Ok(token)
    }

    /// Takes a token of the sort.
    #[tactic(auto, unfolding(crate::specs::Gets::got))]
    pub fn expect(&mut self, sort: Sort, level: u32) -> Result<Token<'t>, Stop>
        ensures token { Gives seen (got (is sort) 0 level (tokens_of (left self.old.front))) result (tokens_of (left self.new.front)) }
        ensures kept { stop_of (left self.new.front) ≡ stop_of (left self.old.front) }
        ensures low { IsOk result → level < 201 }
    {
        if self.is(sort) {
            self.shift(0, level)
        } else {
            Err(Stop::Flawed(Flaw::Syntax))
        }
    }

    /// Takes a token of the sort behind which one more item of a list stands.
    #[tactic(auto, unfolding(crate::specs::Gets::got))]
    pub fn expect_item(&mut self, sort: Sort, items: usize, level: u32) -> Result<Token<'t>, Stop>
        ensures token { Gives seen (got (is sort) items level (tokens_of (left self.old.front))) result (tokens_of (left self.new.front)) }
        ensures kept { stop_of (left self.new.front) ≡ stop_of (left self.old.front) }
        ensures few { IsOk result → items < 200 }
    {
        if self.is(sort) {
            self.shift(items, level)
        } else {
            Err(Stop::Flawed(Flaw::Syntax))
        }
    }

    /// Whether the next token is of one of the sorts.
    pub fn is_among(&self, sorts: &[Sort]) -> bool
        ensures { result ≡ next (among sorts.now) (tokens_of (left self.now.front)) }
    {
        match self.sort() {
            Some(found) => is_one_of(sorts, found),
            None => false,
        }
    }

    /// Takes a token of one of the sorts.
    #[tactic(auto, unfolding(crate::specs::Gets::got))]
    pub fn take_among(&mut self, sorts: &[Sort], level: u32) -> Result<Token<'t>, Stop>
        ensures token { Gives seen (got (among sorts.now) 0 level (tokens_of (left self.old.front))) result (tokens_of (left self.new.front)) }
        ensures kept { stop_of (left self.new.front) ≡ stop_of (left self.old.front) }
        ensures low { IsOk result → level < 201 }
    {
        if self.is_among(sorts) {
            self.shift(0, level)
        } else {
            Err(Stop::Flawed(Flaw::Syntax))
        }
    }
}

/// Whether the sort is one of the sorts.
pub fn is_one_of(sorts: &[Sort], sort: Sort) -> bool
    ensures { result ≡ among sorts.now sort }
{
    match sorts {
        [] => false,
        [first, others @ ..] => same_sort(sort, *first) || is_one_of(others, sort),
    }
}

/// Whether the first is the second.
#[tactic(auto, using(vala_grammar::proofs::Finite::is_flag))]
pub fn same_sort(sort: Sort, other: Sort) -> bool
    ensures { result ≡ is other sort }
{
    sort == other
}
