// Expressions.

ghost use Rattle.std.specs.Prelude.{◌≡◌, ◌≤◌};
ghost use Rattle.vala_grammar.specs.Parts as part;
ghost use Rattle.vala_grammar.specs.Read.{vala_reader};
ghost use Rattle.vala_cursor.specs.Ahead.{reads, rest, stop};
ghost use Rattle.vala_expressions.specs.Asks.{Nests, weight};
ghost use Rattle.vala_expressions.specs.Chains.{behind_bracket};
ghost use Rattle.vala_cursor.specs.Gets.{Gets, seen};

use crate::asks::{Ask, Grammar, Reply};
use sqlite_items::{Boxed, Items};
use std::alloc::Global;
use vala_cursor::{Cursor, Flaw, Stop};
use vala_grammar::{Bracketed, Chain, Signs, Sort, Tier};
use vala_lexer::Token;
use vala_nodes::{names as types, operands as build};
use vala_tree::Expr;

impl<F: Fn(Global, &mut Cursor<'_>, u32, Ask) -> Result<Reply, Stop>> Grammar<F> {
    /// An expression.
    #[tactic(auto, using(crate::proofs::ChainLaws::whole_law, vala_cursor::proofs::Steps::just))]
    pub fn whole(&self, cursor: &mut Cursor<'_>, level: u32) -> Result<Boxed<Expr>, Stop>
        requires nests { Nests self.now.weight (F.pre self.now.deep) (F.post self.now.deep) }
        requires low { level ≤ 201 }
        requires within { self.now.weight ≤ weight 0 level }
        ensures tree { Gets (vala_reader part.Whole level (rest cursor.old)) result (rest cursor.new) }
        ensures kept { stop cursor.new ≡ stop cursor.old }
    {
        if cursor.is(Sort::Slash) {
            return Err(Stop::Flawed(Flaw::LeftOut));
        }
        self.value(cursor, level)
    }

    #[tactic(auto, using(crate::proofs::ChainLaws::value_law, vala_cursor::proofs::Steps::just))]
    pub fn value(&self, cursor: &mut Cursor<'_>, level: u32) -> Result<Boxed<Expr>, Stop>
        requires nests { Nests self.now.weight (F.pre self.now.deep) (F.post self.now.deep) }
        requires low { level ≤ 201 }
        requires within { self.now.weight ≤ weight 0 level }
        ensures tree { Gets (vala_reader part.Value level (rest cursor.old)) result (rest cursor.new) }
        ensures kept { stop cursor.new ≡ stop cursor.old }
    {
        if cursor.is(Sort::Identifier) {
            let word = cursor.expect(Sort::Identifier, level)?;
            return self.after_word(cursor, level, word);
        }
        self.nameless(cursor, level)
    }

    /// An expression that begins with no name.
    #[tactic(auto, using(crate::proofs::ChainLaws::nameless_law, vala_cursor::proofs::Steps::just))]
    pub fn nameless(&self, cursor: &mut Cursor<'_>, level: u32) -> Result<Boxed<Expr>, Stop>
        requires nests { Nests self.now.weight (F.pre self.now.deep) (F.post self.now.deep) }
        requires low { level ≤ 201 }
        requires within { self.now.weight ≤ weight 0 level }
        ensures tree { Gets (vala_reader part.Nameless level (rest cursor.old)) result (rest cursor.new) }
        ensures kept { stop cursor.new ≡ stop cursor.old }
    {
        if cursor.is(Sort::Yield) {
            let token = cursor.expect(Sort::Yield, level)?;
            let call = self.deep_yield_call(cursor, level + 1)?;
            let first = build::plain(build::yielded(self.alloc, token, call)?);
            let operand = self.suffix(cursor, level, first)?;
            return self.onward(cursor, level, operand);
        }
        self.immediate(cursor, level)
    }

    /// An expression that begins with neither a name nor `yield`.
    #[tactic(auto, using(crate::proofs::ChainLaws::immediate_law, vala_cursor::proofs::Steps::just))]
    pub fn immediate(&self, cursor: &mut Cursor<'_>, level: u32) -> Result<Boxed<Expr>, Stop>
        requires nests { Nests self.now.weight (F.pre self.now.deep) (F.post self.now.deep) }
        requires low { level ≤ 201 }
        requires within { self.now.weight ≤ weight 0 level }
        ensures tree { Gets (vala_reader part.Immediate level (rest cursor.old)) result (rest cursor.new) }
        ensures kept { stop cursor.new ≡ stop cursor.old }
    {
        if cursor.is(Sort::OpenParen) {
            let opening = cursor.expect(Sort::OpenParen, level)?;
            let begun = self.bracket(cursor, level, true, opening)?;
            return self.after_bracket(cursor, level, begun);
        }
        let operand = self.direct(cursor, level, Signs::All)?;
        self.onward(cursor, level, operand)
    }

    #[tactic(auto, using(crate::proofs::ChainLaws::behind_laws, vala_cursor::proofs::Steps::just))]
    fn after_bracket(
        &self,
        cursor: &mut Cursor<'_>,
        level: u32,
        begun: Bracketed,
    ) -> Result<Boxed<Expr>, Stop>
        requires nests { Nests self.now.weight (F.pre self.now.deep) (F.post self.now.deep) }
        requires low { level ≤ 201 }
        requires within { self.now.weight ≤ weight 0 level }
        ensures tree { Gets (reads (behind_bracket begun) level (rest cursor.old)) result (rest cursor.new) }
        ensures kept { stop cursor.new ≡ stop cursor.old }
    {
        match begun {
            Bracketed::Lambda(tree) => Ok(tree),
            Bracketed::Operand(operand) => self.onward(cursor, level, operand),
        }
    }

    /// What follows a word that an expression begins with.
    #[tactic(auto, using(crate::proofs::ChainLaws::after_word_law, vala_cursor::proofs::Steps::just))]
    pub fn after_word(
        &self,
        cursor: &mut Cursor<'_>,
        level: u32,
        word: Token<'_>,
    ) -> Result<Boxed<Expr>, Stop>
        requires nests { Nests self.now.weight (F.pre self.now.deep) (F.post self.now.deep) }
        requires low { level ≤ 201 }
        requires within { self.now.weight ≤ weight 0 level }
        ensures tree { Gets (vala_reader (part.AfterWord (seen word.entry)) level (rest cursor.old)) result (rest cursor.new) }
        ensures kept { stop cursor.new ≡ stop cursor.old }
    {
        if cursor.is(Sort::Arrow) {
            cursor.expect(Sort::Arrow, level)?;
            let mut parameters = Items::new(self.alloc);
            parameters.push(types::identifier(self.alloc, word)?)?;
            return self.lambda_end(cursor, level + 1, word.span, parameters);
        }
        let first = build::plain(build::name(self.alloc, word)?);
        let operand = self.suffix(cursor, level, first)?;
        self.onward(cursor, level, operand)
    }

    /// What follows an operand that an expression begins with.
    #[tactic(auto, using(crate::proofs::ChainLaws::onward_law, vala_cursor::proofs::Steps::just))]
    pub fn onward(
        &self,
        cursor: &mut Cursor<'_>,
        level: u32,
        first: Chain,
    ) -> Result<Boxed<Expr>, Stop>
        requires nests { Nests self.now.weight (F.pre self.now.deep) (F.post self.now.deep) }
        requires low { level ≤ 201 }
        requires within { self.now.weight ≤ weight 0 level }
        ensures tree { Gets (vala_reader (part.Onward first) level (rest cursor.old)) result (rest cursor.new) }
        ensures kept { stop cursor.new ≡ stop cursor.old }
    {
        let joined = self.upto(cursor, level, 0, Tier::Or, first)?;
        let joined = self.coalesce_tail(cursor, level, 0, joined)?;
        let value = self.choice_tail(cursor, level, joined)?;
        self.assign_tail(cursor, level, value)
    }

    /// An expression without a lambda or an assignment.
    #[tactic(auto, using(crate::proofs::ChainLaws::test_law, vala_cursor::proofs::Steps::just))]
    pub fn test(&self, cursor: &mut Cursor<'_>, level: u32) -> Result<Boxed<Expr>, Stop>
        requires nests { Nests self.now.weight (F.pre self.now.deep) (F.post self.now.deep) }
        requires low { level ≤ 201 }
        requires within { self.now.weight ≤ weight 0 level }
        ensures tree { Gets (vala_reader part.Test level (rest cursor.old)) result (rest cursor.new) }
        ensures kept { stop cursor.new ≡ stop cursor.old }
    {
        let first = self.prefix(cursor, level, Signs::All)?;
        let joined = self.upto(cursor, level, 0, Tier::Or, first)?;
        let joined = self.coalesce_tail(cursor, level, 0, joined)?;
        self.choice_tail(cursor, level, joined)
    }
}
