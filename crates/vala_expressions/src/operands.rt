// Operands and what follows them.

ghost use Rattle.std.specs.Prelude.{◌≡◌, ◌<◌, ◌≤◌, List, [], ◌∷◌};
ghost use Rattle.vala_grammar.specs.Parts as part;
ghost use Rattle.vala_grammar.specs.Read.{vala_reader};
ghost use Rattle.vala_cursor.specs.Ahead.{rest, stop};
ghost use Rattle.vala_expressions.specs.Asks.{Nests, weight};
ghost use Rattle.vala_expressions.specs.Chains.{object_ended};
ghost use Rattle.vala_cursor.specs.Gets.{Gets, seen};

use crate::asks::{Ask, Grammar, Reply};
use crate::names;
use sqlite_items::Boxed;
use std::alloc::Global;
use vala_cursor::{Cursor, Flaw, Stop};
use vala_grammar::{Arguments, Sort};
use vala_lexer::Token;
use vala_nodes::operands as build;
use vala_tree::{Expr, NameTree};
use vg_base::Span;

impl<F: Fn(Global, &mut Cursor<'_>, u32, Ask) -> Result<Reply, Stop>> Grammar<F> {
    /// What begins with a word or `yield`, or needs no more than itself.
    #[tactic(auto, using(crate::proofs::OperandLaws::primary_law, vala_cursor::proofs::Steps::just))]
    pub fn primary(&self, cursor: &mut Cursor<'_>, level: u32) -> Result<Boxed<Expr>, Stop>
        requires nests { Nests self.now.weight (F.pre self.now.deep) (F.post self.now.deep) }
        requires within { self.now.weight ≤ weight 0 level }
        ensures tree { Gets (vala_reader part.Primary level (rest cursor.old)) result (rest cursor.new) }
        ensures kept { stop cursor.new ≡ stop cursor.old }
    {
        if cursor.is(Sort::Identifier) {
            let token = cursor.expect(Sort::Identifier, level)?;
            return Ok(build::name(self.alloc, token)?);
        }
        if cursor.is(Sort::Yield) {
            let token = cursor.expect(Sort::Yield, level)?;
            let call = self.deep_yield_call(cursor, level + 1)?;
            return Ok(build::yielded(self.alloc, token, call)?);
        }
        self.atom(cursor, level)
    }

    /// What begins with no word that names, no `yield` and no bracket.
    #[tactic(auto, using(crate::proofs::OperandLaws::atom_law, vala_cursor::proofs::Steps::just))]
    pub fn atom(&self, cursor: &mut Cursor<'_>, level: u32) -> Result<Boxed<Expr>, Stop>
        requires nests { Nests self.now.weight (F.pre self.now.deep) (F.post self.now.deep) }
        requires within { self.now.weight ≤ weight 0 level }
        ensures tree { Gets (vala_reader part.Atom level (rest cursor.old)) result (rest cursor.new) }
        ensures kept { stop cursor.new ≡ stop cursor.old }
    {
        if cursor.is_among(&[Sort::Literal, Sort::Text]) {
            let token = cursor.take_among(&[Sort::Literal, Sort::Text], level)?;
            return Ok(build::constant(self.alloc, token)?);
        }
        if cursor.is(Sort::This) {
            let span = cursor.expect(Sort::This, level)?.span;
            return Ok(Boxed::new(self.alloc, Expr::This(span))?);
        }
        if cursor.is(Sort::Base) {
            let span = cursor.expect(Sort::Base, level)?.span;
            return Ok(Boxed::new(self.alloc, Expr::Base(span))?);
        }
        let token = cursor.expect(Sort::New, level)?;
        let name = names::name(self.alloc, cursor, level)?;
        self.new_more(cursor, level, token, name)
    }

    /// What follows `new` and a name.
    #[tactic(auto, using(crate::proofs::OperandLaws::new_more_law, vala_cursor::proofs::Steps::just))]
    fn new_more(
        &self,
        cursor: &mut Cursor<'_>,
        level: u32,
        token: Token<'_>,
        name: NameTree,
    ) -> Result<Boxed<Expr>, Stop>
        requires nests { Nests self.now.weight (F.pre self.now.deep) (F.post self.now.deep) }
        requires within { self.now.weight ≤ weight 0 level }
        ensures tree { Gets (vala_reader (part.NewMore (seen token.entry) name) level (rest cursor.old)) result (rest cursor.new) }
        ensures kept { stop cursor.new ≡ stop cursor.old }
    {
        if cursor.is(Sort::OpenParen) {
            cursor.expect(Sort::OpenParen, level)?;
            let arguments = self.args(cursor, level + 1)?;
            return object_end(self.alloc, cursor, token, name, arguments);
        }
        if cursor.is(Sort::Question) {
            let mark = cursor.expect(Sort::Question, level)?.span;
            return self.new_array(cursor, level, token, name, Some(mark));
        }
        self.new_array(cursor, level, token, name, None)
    }

    /// The size of a new array, and its items.
    #[tactic(auto, using(crate::proofs::OperandLaws::new_array_law, vala_cursor::proofs::Steps::just))]
    fn new_array(
        &self,
        cursor: &mut Cursor<'_>,
        level: u32,
        token: Token<'_>,
        name: NameTree,
        mark: Option<Span>,
    ) -> Result<Boxed<Expr>, Stop>
        requires nests { Nests self.now.weight (F.pre self.now.deep) (F.post self.now.deep) }
        requires within { self.now.weight ≤ weight 0 level }
        ensures tree { Gets (vala_reader (part.NewArray (seen token.entry) name mark) level (rest cursor.old)) result (rest cursor.new) }
        ensures kept { stop cursor.new ≡ stop cursor.old }
    {
        if cursor.is_among(&[Sort::Star, Sort::Less]) {
            return Err(Stop::Flawed(Flaw::LeftOut));
        }
        cursor.expect(Sort::OpenBracket, level)?;
        if cursor.is(Sort::Comma) {
            return Err(Stop::Flawed(Flaw::LeftOut));
        }
        if cursor.is(Sort::CloseBracket) {
            let close = cursor.expect(Sort::CloseBracket, level + 1)?;
            return self.new_items(cursor, level, token, name, mark, None, close);
        }
        let size = self.deep_whole(cursor, level + 1)?;
        let close = cursor.expect(Sort::CloseBracket, level + 1)?;
        self.new_items(cursor, level, token, name, mark, Some(size), close)
    }

    #[tactic(auto, using(crate::proofs::OperandLaws::new_items_law))]
    fn new_items(
        &self,
        cursor: &mut Cursor<'_>,
        level: u32,
        token: Token<'_>,
        name: NameTree,
        mark: Option<Span>,
        size: Option<Boxed<Expr>>,
        close: Token<'_>,
    ) -> Result<Boxed<Expr>, Stop>
        requires nests { Nests self.now.weight (F.pre self.now.deep) (F.post self.now.deep) }
        requires within { self.now.weight ≤ weight 0 level }
        ensures tree { Gets (vala_reader (part.NewItems (seen token.entry) name mark size (seen close.entry)) level (rest cursor.old)) result (rest cursor.new) }
        ensures kept { stop cursor.new ≡ stop cursor.old }
    {
        if cursor.is(Sort::OpenBrace) {
            cursor.expect(Sort::OpenBrace, level)?;
            let items = self.items(cursor, level + 1)?;
            return Ok(build::new_array_of(self.alloc, token, name, mark, size, items)?);
        }
        Ok(build::new_array(self.alloc, token, name, mark, size, close.span)?)
    }

    /// The call behind `yield`.
    #[tactic(auto, using(crate::proofs::OperandLaws::yield_call_law, vala_cursor::proofs::Steps::just))]
    pub fn yield_call(&self, cursor: &mut Cursor<'_>, level: u32) -> Result<Boxed<Expr>, Stop>
        requires nests { Nests self.now.weight (F.pre self.now.deep) (F.post self.now.deep) }
        requires within { self.now.weight ≤ weight 0 level }
        ensures tree { Gets (vala_reader part.YieldCall level (rest cursor.old)) result (rest cursor.new) }
        ensures kept { stop cursor.new ≡ stop cursor.old }
    {
        if cursor.is(Sort::Slash) {
            return Err(Stop::Flawed(Flaw::LeftOut));
        }
        if cursor.is(Sort::OpenParen) {
            let opening = cursor.expect(Sort::OpenParen, level)?;
            let inner = self.deep_whole(cursor, level + 1)?;
            let close = cursor.expect(Sort::CloseParen, level + 1)?;
            let first = build::bracketed(self.alloc, opening.span, inner, close.span)?;
            return self.call_more(cursor, level, first);
        }
        let first = self.primary(cursor, level)?;
        self.call_more(cursor, level, first)
    }

    #[tactic(auto, using(crate::proofs::OperandLaws::call_more_law, vala_cursor::proofs::Steps::just))]
    fn call_more(
        &self,
        cursor: &mut Cursor<'_>,
        level: u32,
        first: Boxed<Expr>,
    ) -> Result<Boxed<Expr>, Stop>
        requires nests { Nests self.now.weight (F.pre self.now.deep) (F.post self.now.deep) }
        requires within { self.now.weight ≤ weight 0 level }
        ensures tree { Gets (vala_reader (part.CallMore first) level (rest cursor.old)) result (rest cursor.new) }
        ensures kept { stop cursor.new ≡ stop cursor.old }
    {
        let mut left = first;
        let mut level = level;
        'words: while cursor.is(Sort::Dot) {
            cursor.expect(Sort::Dot, level)?;
            let word = cursor.expect(Sort::Identifier, level)?;
            left = build::member_word(self.alloc, left, word)?;
            level += 1;
        }
        cursor.expect(Sort::OpenParen, level)?;
        let arguments = self.args(cursor, level + 1)?;
        Ok(build::call(self.alloc, left, arguments)?)
    }
}

/// What follows the arguments of a new object: no braces.
#[tactic(auto, unfolding(crate::specs::Chains::object_ended))]
fn object_end(
    alloc: Global,
    cursor: &mut Cursor<'_>,
    token: Token<'_>,
    name: NameTree,
    arguments: Arguments,
) -> Result<Boxed<Expr>, Stop>
    ensures tree { Gets (object_ended (seen token.entry) name arguments (rest cursor.old)) result (rest cursor.new) }
    ensures kept { stop cursor.new ≡ stop cursor.old }
{
    if cursor.is(Sort::OpenBrace) {
        return Err(Stop::Flawed(Flaw::LeftOut));
    }
    Ok(build::new_object(alloc, token, name, arguments)?)
}
