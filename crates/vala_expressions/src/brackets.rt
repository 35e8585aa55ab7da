// What begins with a bracket.

ghost use Rattle.std.specs.Prelude.{◌≡◌, ◌<◌, ◌≤◌, false};
ghost use Rattle.vala_grammar.specs.Grammar.{bracket_of, opened};
ghost use Rattle.vala_grammar.specs.Parts as part;
ghost use Rattle.vala_grammar.specs.Read.{vala_reader};
ghost use Rattle.vala_grammar.specs.Tests.{is};
ghost use Rattle.vala_grammar.specs.declared.sort.Sort.TheVariants as s;
ghost use Rattle.vala_cursor.specs.Ahead.{reads, rest, stop};
ghost use Rattle.vala_expressions.specs.Asks.{Nests, weight};
ghost use Rattle.vala_expressions.specs.Brackets.{bracket_ended, cast_ended, cast_to, names_ended, owned_behind};
ghost use Rattle.vala_cursor.specs.Gets.{Gets, next, seen};

use crate::asks::{Ask, Grammar, Reply};
use crate::{names, tiers};
use sqlite_items::{Boxed, Items};
use std::alloc::Global;
use vala_cursor::{Cursor, Flaw, Stop};
use vala_grammar::{Bracketed, Chain, Context, Opening, Signs, Sort};
use vala_lexer::Token;
use vala_nodes::{brackets as bracket, chains as chain, names as types, operands as build};
use vala_tree::{Expr, NameTree, TypeTree};

impl<F: Fn(Global, &mut Cursor<'_>, u32, Ask) -> Result<Reply, Stop>> Grammar<F> {
    /// What follows `(`.
    #[tactic(auto, using(crate::proofs::BracketLaws::bracket_law))]
    pub fn bracket(
        &self,
        cursor: &mut Cursor<'_>,
        level: u32,
        top: bool,
        opening: Token<'_>,
    ) -> Result<Bracketed, Stop>
        requires nests { Nests self.now.weight (F.pre self.now.deep) (F.post self.now.deep) }
        requires low { level < 201 }
        requires within { self.now.weight ≤ weight 0 level }
        ensures tree { Gets (vala_reader (part.Bracket top (seen opening.entry)) level (rest cursor.old)) result (rest cursor.new) }
        ensures kept { stop cursor.new ≡ stop cursor.old }
    {
        if top && cursor.is(Sort::CloseParen) {
            cursor.expect(Sort::CloseParen, level + 1)?;
            cursor.expect(Sort::Arrow, level)?;
            let parameters = Items::new(self.alloc);
            let tree = self.lambda_end(cursor, level + 1, opening.span, parameters)?;
            return Ok(Bracketed::Lambda(tree));
        }
        self.inside(cursor, level, top, opening)
    }

    #[tactic(auto, using(crate::proofs::BracketLaws::inside_law, vala_cursor::proofs::Steps::just))]
    fn inside(
        &self,
        cursor: &mut Cursor<'_>,
        level: u32,
        top: bool,
        opening: Token<'_>,
    ) -> Result<Bracketed, Stop>
        requires nests { Nests self.now.weight (F.pre self.now.deep) (F.post self.now.deep) }
        requires low { level < 201 }
        requires within { self.now.weight ≤ weight 0 level }
        ensures tree { Gets (reads (bracket_of top (seen opening.entry)) level (rest cursor.old)) result (rest cursor.new) }
        ensures kept { stop cursor.new ≡ stop cursor.old }
    {
        if cursor.is(Sort::Owned) {
            return self.owned_inside(cursor, level, opening);
        }
        if cursor.is(Sort::Unowned) {
            let word = cursor.expect(Sort::Unowned, level + 1)?;
            return self.cast_to_type(cursor, level, opening, word);
        }
        if cursor.is(Sort::Void) {
            let token = cursor.expect(Sort::Void, level + 1)?;
            return self.cast_end(cursor, level, opening, types::void_type(None, token));
        }
        if cursor.is(Sort::Identifier) {
            let begun = self.opening_name(cursor, level + 1, Context::Bracket)?;
            return self.after_opening(cursor, level, top, opening, begun);
        }
        if cursor.is(Sort::Slash) {
            return Err(Stop::Flawed(Flaw::LeftOut));
        }
        let inner = self.deep_nameless(cursor, level + 1)?;
        self.bracket_end(cursor, level, opening, inner)
    }

    fn owned_inside(
        &self,
        cursor: &mut Cursor<'_>,
        level: u32,
        opening: Token<'_>,
    ) -> Result<Bracketed, Stop>
        requires nests { Nests self.now.weight (F.pre self.now.deep) (F.post self.now.deep) }
        requires low { level < 201 }
        requires within { self.now.weight ≤ weight 0 level }
        ensures tree { Gets (owned_behind (seen opening.entry) level (rest cursor.old)) result (rest cursor.new) }
        ensures kept { stop cursor.new ≡ stop cursor.old }
    {
        let word = cursor.expect(Sort::Owned, level + 1)?;
        if cursor.is(Sort::CloseParen) {
            cursor.expect(Sort::CloseParen, level + 1)?;
            let operand = self.deep_prefix(cursor, level + 1, Signs::All)?;
            return Ok(Bracketed::Operand(chain::moved(self.alloc, opening, operand)?));
        }
        self.cast_to_type(cursor, level, opening, word)
    }

    /// A cast to a type behind the word in front of it.
    fn cast_to_type(
        &self,
        cursor: &mut Cursor<'_>,
        level: u32,
        opening: Token<'_>,
        word: Token<'_>,
    ) -> Result<Bracketed, Stop>
        requires nests { Nests self.now.weight (F.pre self.now.deep) (F.post self.now.deep) }
        requires low { level < 201 }
        requires within { self.now.weight ≤ weight 0 level }
        ensures tree { Gets (cast_to (seen opening.entry) (seen word.entry) level (rest cursor.old)) result (rest cursor.new) }
        ensures kept { stop cursor.new ≡ stop cursor.old }
    {
        let target = names::type_body(self.alloc, cursor, level + 1, Some(word))?;
        self.cast_end(cursor, level, opening, target)
    }

    /// The end of a cast.
    #[tactic(auto, using(crate::proofs::BracketLaws::cast_end_law))]
    fn cast_end(
        &self,
        cursor: &mut Cursor<'_>,
        level: u32,
        opening: Token<'_>,
        target: TypeTree,
    ) -> Result<Bracketed, Stop>
        requires nests { Nests self.now.weight (F.pre self.now.deep) (F.post self.now.deep) }
        requires low { level < 201 }
        requires within { self.now.weight ≤ weight 0 level }
        ensures tree { Gets (cast_ended (seen opening.entry) target level (rest cursor.old)) result (rest cursor.new) }
        ensures kept { stop cursor.new ≡ stop cursor.old }
    {
        if cursor.is_among(&[Sort::Star, Sort::Less]) {
            return Err(Stop::Flawed(Flaw::LeftOut));
        }
        cursor.expect(Sort::CloseParen, level + 1)?;
        let operand = self.deep_prefix(cursor, level + 1, Signs::Cast)?;
        Ok(Bracketed::Operand(chain::cast(self.alloc, opening, target, operand)?))
    }

    /// An expression that begins with no name, and no `/`.
    #[tactic(auto, using(crate::proofs::ChainLaws::whole_law, crate::proofs::ChainLaws::value_law, vala_cursor::proofs::Steps::just))]
    pub fn deep_nameless(&self, cursor: &mut Cursor<'_>, level: u32) -> Result<Boxed<Expr>, Stop>
        requires nests { Nests self.now.weight (F.pre self.now.deep) (F.post self.now.deep) }
        requires low { level ≤ 201 }
        requires within { self.now.weight < weight 0 level }
        requires no_slash { next (is s.Slash) (rest cursor.old) ≡ false }
        requires no_name { next (is s.Identifier) (rest cursor.old) ≡ false }
        ensures tree { Gets (vala_reader part.Nameless level (rest cursor.old)) result (rest cursor.new) }
        ensures kept { stop cursor.new ≡ stop cursor.old }
    {
        self.deep_whole(cursor, level)
    }

    /// An operand that begins with no `/`.
    #[tactic(auto, using(crate::proofs::ChainLaws::prefix_law, vala_cursor::proofs::Steps::just))]
    fn deep_unary(&self, cursor: &mut Cursor<'_>, level: u32, signs: Signs) -> Result<Chain, Stop>
        requires nests { Nests self.now.weight (F.pre self.now.deep) (F.post self.now.deep) }
        requires low { level ≤ 201 }
        requires within { self.now.weight < weight 0 level }
        requires no_slash { next (is s.Slash) (rest cursor.old) ≡ false }
        ensures tree { Gets (vala_reader (part.Unary signs) level (rest cursor.old)) result (rest cursor.new) }
        ensures kept { stop cursor.new ≡ stop cursor.old }
    {
        self.deep_prefix(cursor, level, signs)
    }

    /// What follows a type, names or an expression behind `(`.
    #[tactic(auto, using(crate::proofs::BracketLaws::opened_laws))]
    fn after_opening(
        &self,
        cursor: &mut Cursor<'_>,
        level: u32,
        top: bool,
        opening: Token<'_>,
        begun: Opening,
    ) -> Result<Bracketed, Stop>
        requires nests { Nests self.now.weight (F.pre self.now.deep) (F.post self.now.deep) }
        requires low { level < 201 }
        requires within { self.now.weight ≤ weight 0 level }
        ensures tree { Gets (reads (opened top (seen opening.entry) begun) level (rest cursor.old)) result (rest cursor.new) }
        ensures kept { stop cursor.new ≡ stop cursor.old }
    {
        match begun {
            Opening::Type(target) => self.cast_end(cursor, level, opening, target),
            Opening::Names(name) => self.names_in_bracket(cursor, level, top, opening, name),
            Opening::Value(inner) => self.bracket_end(cursor, level, opening, inner),
        }
    }

    /// `)` behind an expression, and what follows it.
    fn bracket_end(
        &self,
        cursor: &mut Cursor<'_>,
        level: u32,
        opening: Token<'_>,
        inner: Boxed<Expr>,
    ) -> Result<Bracketed, Stop>
        requires nests { Nests self.now.weight (F.pre self.now.deep) (F.post self.now.deep) }
        requires low { level < 201 }
        requires within { self.now.weight ≤ weight 0 level }
        ensures tree { Gets (bracket_ended (seen opening.entry) inner level (rest cursor.old)) result (rest cursor.new) }
        ensures kept { stop cursor.new ≡ stop cursor.old }
    {
        let close = cursor.expect(Sort::CloseParen, level + 1)?;
        let whole = build::bracketed(self.alloc, opening.span, inner, close.span)?;
        let operand = self.suffix(cursor, level, build::plain(whole))?;
        Ok(Bracketed::Operand(operand))
    }

    /// What follows names behind `(`.
    fn names_in_bracket(
        &self,
        cursor: &mut Cursor<'_>,
        level: u32,
        top: bool,
        opening: Token<'_>,
        name: NameTree,
    ) -> Result<Bracketed, Stop>
        requires nests { Nests self.now.weight (F.pre self.now.deep) (F.post self.now.deep) }
        requires low { level < 201 }
        requires within { self.now.weight ≤ weight 0 level }
        ensures tree { Gets (names_ended top (seen opening.entry) name level (rest cursor.old)) result (rest cursor.new) }
        ensures kept { stop cursor.new ≡ stop cursor.old }
    {
        if top && types::is_one_word(&name) && cursor.is(Sort::Comma) {
            cursor.expect(Sort::Comma, level + 1)?;
            let parameters = self.lambda_more(cursor, level + 1, name.into_words())?;
            cursor.expect(Sort::Arrow, level)?;
            let tree = self.lambda_end(cursor, level + 1, opening.span, parameters)?;
            return Ok(Bracketed::Lambda(tree));
        }
        let close = cursor.expect(Sort::CloseParen, level + 1)?;
        self.behind_names(cursor, level, top, opening, name, close)
    }

    /// What follows names in brackets.
    #[tactic(auto, using(crate::proofs::BracketLaws::behind_names_law))]
    fn behind_names(
        &self,
        cursor: &mut Cursor<'_>,
        level: u32,
        top: bool,
        opening: Token<'_>,
        name: NameTree,
        close: Token<'_>,
    ) -> Result<Bracketed, Stop>
        requires nests { Nests self.now.weight (F.pre self.now.deep) (F.post self.now.deep) }
        requires low { level < 201 }
        requires within { self.now.weight ≤ weight 0 level }
        ensures tree { Gets (vala_reader (part.BehindNames top (seen opening.entry) name (seen close.entry)) level (rest cursor.old)) result (rest cursor.new) }
        ensures kept { stop cursor.new ≡ stop cursor.old }
    {
        let signs = bracket::signs_behind(&name);
        if tiers::operand_next(cursor, signs) {
            let operand = self.deep_unary(cursor, level + 1, signs)?;
            let target = types::single_type(None, name, None);
            return Ok(Bracketed::Operand(chain::cast(self.alloc, opening, target, operand)?));
        }
        if top && types::is_one_word(&name) && cursor.is(Sort::Arrow) {
            cursor.expect(Sort::Arrow, level)?;
            let tree = self.lambda_end(cursor, level + 1, opening.span, name.into_words())?;
            return Ok(Bracketed::Lambda(tree));
        }
        let first = bracket::bracketed_names(self.alloc, opening.span, name, close.span)?;
        Ok(Bracketed::Operand(self.suffix(cursor, level, first)?))
    }
}
