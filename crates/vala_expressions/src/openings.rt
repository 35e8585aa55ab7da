// What may be a type or an expression.

ghost use Rattle.std.specs.Prelude.{◌≡◌, ◌<◌, ◌≤◌, true};
ghost use Rattle.vala_grammar.specs.Parts as part;
ghost use Rattle.vala_grammar.specs.Read.{vala_reader};
ghost use Rattle.vala_grammar.specs.Tests.{opens_choice};
ghost use Rattle.vala_cursor.specs.Ahead.{rest, stop};
ghost use Rattle.vala_expressions.specs.Asks.{Nests, weight};
ghost use Rattle.vala_expressions.specs.Brackets.{array_lead, choice_of_names, choice_start, lead_at, lead_called, lead_ended, lead_indexed, marked_array, names_further, names_lead, names_then};
ghost use Rattle.vala_cursor.specs.Gets.{Gets, next};

use crate::asks::{Ask, Grammar, Reply};
use crate::tiers;
use sqlite_items::Boxed;
use std::alloc::Global;
use vala_cursor::{Cursor, Flaw, Stop};
use vala_grammar::{Chain, Context, Lead, Opening, Sort, Tier};
use vala_nodes::{brackets as bracket, names as types, operands as build};
use vala_tree::{Expr, NameTree};
use vg_base::Span;

impl<F: Fn(Global, &mut Cursor<'_>, u32, Ask) -> Result<Reply, Stop>> Grammar<F> {
    /// What may be a type or an expression.
    #[tactic(auto, using(crate::proofs::BracketLaws::leads_laws))]
    pub fn opening_name(
        &self,
        cursor: &mut Cursor<'_>,
        level: u32,
        context: Context,
    ) -> Result<Opening, Stop>
        requires nests { Nests self.now.weight (F.pre self.now.deep) (F.post self.now.deep) }
        requires low { level ≤ 201 }
        requires within { self.now.weight ≤ weight 0 level }
        ensures tree { Gets (vala_reader (part.OpeningName context) level (rest cursor.old)) result (rest cursor.new) }
        ensures kept { stop cursor.new ≡ stop cursor.old }
    {
        let token = cursor.expect(Sort::Identifier, level)?;
        let first = types::one_word(self.alloc, token)?;
        let lead = self.lead_more(cursor, level, first)?;
        match lead {
            Lead::Array(name, close) => array_type_lead(cursor, level, name, close),
            Lead::Value(first) => Ok(Opening::Value(self.onward(cursor, level, first)?)),
            Lead::Names(name) => self.after_lead(cursor, level, context, name),
        }
    }

    /// What follows names that may be a type.
    fn after_lead(
        &self,
        cursor: &mut Cursor<'_>,
        level: u32,
        context: Context,
        name: NameTree,
    ) -> Result<Opening, Stop>
        requires nests { Nests self.now.weight (F.pre self.now.deep) (F.post self.now.deep) }
        requires low { level ≤ 201 }
        requires within { self.now.weight ≤ weight 0 level }
        ensures tree { Gets (names_lead context name level (rest cursor.old)) result (rest cursor.new) }
        ensures kept { stop cursor.new ≡ stop cursor.old }
    {
        if cursor.is(Sort::Question) {
            let mark = cursor.expect(Sort::Question, level)?.span;
            return self.marked(cursor, level, context, name, mark);
        }
        if types::is_one_word(&name) && cursor.is(Sort::Arrow) {
            cursor.expect(Sort::Arrow, level)?;
            let start = name.span;
            let tree = self.lambda_end(cursor, level + 1, start, name.into_words())?;
            return Ok(Opening::Value(tree));
        }
        self.names_onward(cursor, level, name)
    }

    /// The operators that follow names.
    fn names_onward(
        &self,
        cursor: &mut Cursor<'_>,
        level: u32,
        name: NameTree,
    ) -> Result<Opening, Stop>
        requires nests { Nests self.now.weight (F.pre self.now.deep) (F.post self.now.deep) }
        requires low { level ≤ 201 }
        requires within { self.now.weight ≤ weight 0 level }
        ensures tree { Gets (names_further name level (rest cursor.old)) result (rest cursor.new) }
        ensures kept { stop cursor.new ≡ stop cursor.old }
    {
        let first = bracket::alone(self.alloc, bracket::copied(self.alloc, &name)?)?;
        let joined = self.upto(cursor, level, 0, Tier::Or, first)?;
        let joined = self.coalesce_tail(cursor, level, 0, joined)?;
        self.after_names(cursor, level, name, joined)
    }

    #[tactic(auto, using(crate::proofs::ChainLaws::assign_tail_law))]
    fn after_names(
        &self,
        cursor: &mut Cursor<'_>,
        level: u32,
        name: NameTree,
        joined: Chain,
    ) -> Result<Opening, Stop>
        requires nests { Nests self.now.weight (F.pre self.now.deep) (F.post self.now.deep) }
        requires low { level ≤ 201 }
        requires within { self.now.weight ≤ weight 0 level }
        ensures tree { Gets (names_then name joined joined.last level (rest cursor.old)) result (rest cursor.new) }
        ensures kept { stop cursor.new ≡ stop cursor.old }
    {
        if !tiers::ends_alone(&joined.last) {
            let value = self.choice_tail(cursor, level, joined)?;
            return Ok(Opening::Value(self.assign_tail(cursor, level, value)?));
        }
        if !cursor.is_among(&[Sort::Assign, Sort::Update]) {
            return Ok(Opening::Names(name));
        }
        Ok(Opening::Value(self.assign_tail(cursor, level, joined.into_value())?))
    }

    /// Names, and what follows them as an operand or `[]`.
    #[tactic(auto, using(crate::proofs::BracketLaws::lead_more_law, vala_cursor::proofs::Steps::just))]
    fn lead_more(&self, cursor: &mut Cursor<'_>, level: u32, first: NameTree) -> Result<Lead, Stop>
        requires nests { Nests self.now.weight (F.pre self.now.deep) (F.post self.now.deep) }
        requires low { level ≤ 201 }
        requires within { self.now.weight ≤ weight 0 level }
        ensures tree { Gets (vala_reader (part.LeadMore first) level (rest cursor.old)) result (rest cursor.new) }
        ensures kept { stop cursor.new ≡ stop cursor.old }
    {
        let mut name = first;
        let mut level = level;
        'words: while cursor.is(Sort::Dot) {
            cursor.expect(Sort::Dot, level)?;
            let token = cursor.expect(Sort::Identifier, level)?;
            name = types::one_more_word(self.alloc, name, token)?;
            level += 1;
        }
        self.lead_end(cursor, level, name)
    }

    /// What follows the last word.
    #[tactic(auto, unfolding(crate::specs::Brackets::lead_ended))]
    fn lead_end(&self, cursor: &mut Cursor<'_>, level: u32, name: NameTree) -> Result<Lead, Stop>
        requires nests { Nests self.now.weight (F.pre self.now.deep) (F.post self.now.deep) }
        requires low { level ≤ 201 }
        requires within { self.now.weight ≤ weight 0 level }
        ensures tree { Gets (lead_ended name level (rest cursor.old)) result (rest cursor.new) }
        ensures kept { stop cursor.new ≡ stop cursor.old }
    {
        if cursor.is(Sort::OpenBracket) {
            return self.lead_index(cursor, level, name);
        }
        if cursor.is(Sort::Step) {
            let token = cursor.expect(Sort::Step, level)?;
            let left = bracket::names(self.alloc, name)?;
            let first = build::plain(build::step(self.alloc, left, token)?);
            return Ok(Lead::Value(self.suffix(cursor, level + 1, first)?));
        }
        if cursor.is(Sort::OpenParen) {
            return self.lead_call(cursor, level, name);
        }
        Ok(Lead::Names(name))
    }

    #[tactic(auto, unfolding(crate::specs::Brackets::lead_called))]
    fn lead_call(&self, cursor: &mut Cursor<'_>, level: u32, name: NameTree) -> Result<Lead, Stop>
        requires nests { Nests self.now.weight (F.pre self.now.deep) (F.post self.now.deep) }
        requires low { level ≤ 201 }
        requires within { self.now.weight ≤ weight 0 level }
        ensures tree { Gets (lead_called name level (rest cursor.old)) result (rest cursor.new) }
        ensures kept { stop cursor.new ≡ stop cursor.old }
    {
        cursor.expect(Sort::OpenParen, level)?;
        let arguments = self.args(cursor, level + 1)?;
        let left = bracket::names(self.alloc, name)?;
        let first = build::plain(build::call(self.alloc, left, arguments)?);
        Ok(Lead::Value(self.suffix(cursor, level + 1, first)?))
    }

    #[tactic(auto, unfolding(crate::specs::Brackets::lead_indexed))]
    fn lead_index(&self, cursor: &mut Cursor<'_>, level: u32, name: NameTree) -> Result<Lead, Stop>
        requires nests { Nests self.now.weight (F.pre self.now.deep) (F.post self.now.deep) }
        requires low { level ≤ 201 }
        requires within { self.now.weight ≤ weight 0 level }
        ensures tree { Gets (lead_indexed name level (rest cursor.old)) result (rest cursor.new) }
        ensures kept { stop cursor.new ≡ stop cursor.old }
    {
        cursor.expect(Sort::OpenBracket, level)?;
        if cursor.is(Sort::Comma) {
            return Err(Stop::Flawed(Flaw::LeftOut));
        }
        if cursor.is(Sort::CloseBracket) {
            let close = cursor.expect(Sort::CloseBracket, level + 1)?.span;
            return Ok(Lead::Array(name, close));
        }
        let at = self.deep_whole(cursor, level + 1)?;
        self.index_end(cursor, level, name, at)
    }

    #[tactic(auto, unfolding(crate::specs::Brackets::lead_at))]
    fn index_end(
        &self,
        cursor: &mut Cursor<'_>,
        level: u32,
        name: NameTree,
        at: Boxed<Expr>,
    ) -> Result<Lead, Stop>
        requires nests { Nests self.now.weight (F.pre self.now.deep) (F.post self.now.deep) }
        requires low { level ≤ 201 }
        requires within { self.now.weight ≤ weight 0 level }
        ensures tree { Gets (lead_at name at level (rest cursor.old)) result (rest cursor.new) }
        ensures kept { stop cursor.new ≡ stop cursor.old }
    {
        if cursor.is(Sort::Colon) {
            return Err(Stop::Flawed(Flaw::LeftOut));
        }
        let close = cursor.expect(Sort::CloseBracket, level + 1)?;
        let left = bracket::names(self.alloc, name)?;
        let first = build::plain(build::index(self.alloc, left, at, close)?);
        Ok(Lead::Value(self.suffix(cursor, level + 1, first)?))
    }

    /// What follows names and `?`.
    #[tactic(auto, using(crate::proofs::BracketLaws::marked_law))]
    fn marked(
        &self,
        cursor: &mut Cursor<'_>,
        level: u32,
        context: Context,
        name: NameTree,
        mark: Span,
    ) -> Result<Opening, Stop>
        requires nests { Nests self.now.weight (F.pre self.now.deep) (F.post self.now.deep) }
        requires low { level < 201 }
        requires within { self.now.weight ≤ weight 0 level }
        ensures tree { Gets (vala_reader (part.Marked context name mark) level (rest cursor.old)) result (rest cursor.new) }
        ensures kept { stop cursor.new ≡ stop cursor.old }
    {
        if cursor.is(Sort::Slash) {
            return Err(Stop::Flawed(Flaw::LeftOut));
        }
        if cursor.is(Sort::OpenBracket) {
            return array_type_marked(cursor, level, name, mark);
        }
        if tiers::choice_next(cursor, context) {
            let yes = self.deep_choice(cursor, level + 1, context)?;
            return self.names_chosen(cursor, level, name, yes);
        }
        let tree = types::single_type(None, name, Some(mark));
        Ok(Opening::Type(tree))
    }

    /// What stands between `?` and `:` behind names.
    #[tactic(auto, using(crate::proofs::BracketLaws::opens_laws))]
    fn deep_choice(
        &self,
        cursor: &mut Cursor<'_>,
        level: u32,
        context: Context,
    ) -> Result<Boxed<Expr>, Stop>
        requires nests { Nests self.now.weight (F.pre self.now.deep) (F.post self.now.deep) }
        requires low { level ≤ 201 }
        requires within { self.now.weight < weight 0 level }
        requires opens { next (opens_choice context) (rest cursor.old) ≡ true }
        ensures tree { Gets (choice_start context level (rest cursor.old)) result (rest cursor.new) }
        ensures kept { stop cursor.new ≡ stop cursor.old }
    {
        match context {
            Context::Statement => self.deep_nameless(cursor, level),
            Context::Bracket => self.deep_value(cursor, level),
        }
    }

    /// `: c` behind names, `?` and an expression, and what follows that.
    #[tactic(auto, using(crate::proofs::BracketLaws::choice_of_names_law))]
    fn names_chosen(
        &self,
        cursor: &mut Cursor<'_>,
        level: u32,
        name: NameTree,
        yes: Boxed<Expr>,
    ) -> Result<Opening, Stop>
        requires nests { Nests self.now.weight (F.pre self.now.deep) (F.post self.now.deep) }
        requires low { level ≤ 201 }
        requires within { self.now.weight ≤ weight 0 level }
        ensures tree { Gets (choice_of_names name yes level (rest cursor.old)) result (rest cursor.new) }
        ensures kept { stop cursor.new ≡ stop cursor.old }
    {
        let test = bracket::names(self.alloc, name)?;
        let value = self.end_choice(cursor, level, test, yes)?;
        Ok(Opening::Value(self.assign_tail(cursor, level, value)?))
    }
}

/// What follows `[]` behind names.
fn array_type_lead(
    cursor: &mut Cursor<'_>,
    level: u32,
    name: NameTree,
    close: Span,
) -> Result<Opening, Stop>
    ensures tree { Gets (array_lead name close level (rest cursor.old)) result (rest cursor.new) }
    ensures kept { stop cursor.new ≡ stop cursor.old }
{
    if !cursor.is(Sort::Question) {
        let tree = types::array_type(None, name, None, close, None);
        return Ok(Opening::Type(tree));
    }
    let mark = cursor.expect(Sort::Question, level)?.span;
    let tree = types::array_type(None, name, None, close, Some(mark));
    Ok(Opening::Type(tree))
}

/// `[]` behind names and `?`.
fn array_type_marked(
    cursor: &mut Cursor<'_>,
    level: u32,
    name: NameTree,
    mark: Span,
) -> Result<Opening, Stop>
    ensures tree { Gets (marked_array name mark level (rest cursor.old)) result (rest cursor.new) }
    ensures kept { stop cursor.new ≡ stop cursor.old }
{
    cursor.expect(Sort::OpenBracket, level)?;
    if cursor.is(Sort::Comma) {
        return Err(Stop::Flawed(Flaw::LeftOut));
    }
    let close = cursor.expect(Sort::CloseBracket, level + 1)?.span;
    if !cursor.is(Sort::Question) {
        let tree = types::array_type(None, name, Some(mark), close, None);
        return Ok(Opening::Type(tree));
    }
    let behind = cursor.expect(Sort::Question, level)?.span;
    let tree = types::array_type(None, name, Some(mark), close, Some(behind));
    Ok(Opening::Type(tree))
}
