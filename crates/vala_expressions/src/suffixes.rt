// Members, indexes, steps and calls behind an operand.

ghost use Rattle.std.specs.Prelude.{◌≡◌, ◌<◌, ◌≤◌, IsOk};
ghost use Rattle.vala_grammar.specs.Parts as part;
ghost use Rattle.vala_grammar.specs.Read.{vala_reader};
ghost use Rattle.vala_cursor.specs.Ahead.{rest, stop};
ghost use Rattle.vala_cursor.specs.Gets.{Gets};
ghost use Rattle.vala_expressions.specs.Asks.{Nests, weight};
ghost use Rattle.vala_expressions.specs.Chains.{call_link, index_link, member_link, one_link, step_link};

use crate::asks::{Ask, Grammar, Reply};
use crate::tiers;
use sqlite_items::Boxed;
use std::alloc::Global;
use vala_cursor::{Cursor, Flaw, Stop};
use vala_grammar::{Chain, Sort};
use vala_nodes::operands as nodes;
use vala_tree::Expr;

impl<F: Fn(Global, &mut Cursor<'_>, u32, Ask) -> Result<Reply, Stop>> Grammar<F> {
    /// What follows an operand.
    #[tactic(auto, using(crate::proofs::SuffixLaws::suffix_law, vala_cursor::proofs::Steps::just))]
    pub fn suffix(&self, cursor: &mut Cursor<'_>, level: u32, first: Chain) -> Result<Chain, Stop>
        requires nests { Nests self.now.weight (F.pre self.now.deep) (F.post self.now.deep) }
        requires low { level ≤ 201 }
        requires within { self.now.weight ≤ weight 0 level }
        ensures tree { Gets (vala_reader (part.Suffix first) level (rest cursor.old)) result (rest cursor.new) }
        ensures kept { stop cursor.new ≡ stop cursor.old }
    {
        let mut operand = first;
        let mut level = level;
        'links: while tiers::link_next(cursor, &operand.last) {
            operand = self.link(cursor, level, operand.into_value())?;
            level += 1;
        }
        Ok(operand)
    }

    fn link(&self, cursor: &mut Cursor<'_>, level: u32, left: Boxed<Expr>) -> Result<Chain, Stop>
        requires nests { Nests self.now.weight (F.pre self.now.deep) (F.post self.now.deep) }
        requires low { level ≤ 201 }
        requires within { self.now.weight ≤ weight 0 level }
        ensures tree { Gets (one_link left level (rest cursor.old)) result (rest cursor.new) }
        ensures kept { stop cursor.new ≡ stop cursor.old }
        ensures low { IsOk result → level < 201 }
    {
        if cursor.is(Sort::Dot) {
            return self.member_link(cursor, level, left);
        }
        if cursor.is(Sort::OpenBracket) {
            return self.index_link(cursor, level, left);
        }
        if cursor.is(Sort::Step) {
            return self.step_link(cursor, level, left);
        }
        self.call_link(cursor, level, left)
    }

    fn member_link(
        &self,
        cursor: &mut Cursor<'_>,
        level: u32,
        left: Boxed<Expr>,
    ) -> Result<Chain, Stop>
        ensures tree { Gets (member_link left level (rest cursor.old)) result (rest cursor.new) }
        ensures kept { stop cursor.new ≡ stop cursor.old }
        ensures low { IsOk result → level < 201 }
    {
        cursor.expect(Sort::Dot, level)?;
        let word = cursor.expect(Sort::Identifier, level)?;
        Ok(nodes::plain(nodes::member_word(self.alloc, left, word)?))
    }

    fn index_link(
        &self,
        cursor: &mut Cursor<'_>,
        level: u32,
        left: Boxed<Expr>,
    ) -> Result<Chain, Stop>
        requires nests { Nests self.now.weight (F.pre self.now.deep) (F.post self.now.deep) }
        requires low { level ≤ 201 }
        requires within { self.now.weight ≤ weight 0 level }
        ensures tree { Gets (index_link left level (rest cursor.old)) result (rest cursor.new) }
        ensures kept { stop cursor.new ≡ stop cursor.old }
        ensures low { IsOk result → level < 201 }
    {
        cursor.expect(Sort::OpenBracket, level)?;
        let index = self.deep_whole(cursor, level + 1)?;
        if cursor.is(Sort::Colon) {
            return Err(Stop::Flawed(Flaw::LeftOut));
        }
        let close = cursor.expect(Sort::CloseBracket, level + 1)?;
        Ok(nodes::plain(nodes::index(self.alloc, left, index, close)?))
    }

    fn step_link(
        &self,
        cursor: &mut Cursor<'_>,
        level: u32,
        left: Boxed<Expr>,
    ) -> Result<Chain, Stop>
        ensures tree { Gets (step_link left level (rest cursor.old)) result (rest cursor.new) }
        ensures kept { stop cursor.new ≡ stop cursor.old }
        ensures low { IsOk result → level < 201 }
    {
        let token = cursor.expect(Sort::Step, level)?;
        Ok(nodes::plain(nodes::step(self.alloc, left, token)?))
    }

    fn call_link(
        &self,
        cursor: &mut Cursor<'_>,
        level: u32,
        left: Boxed<Expr>,
    ) -> Result<Chain, Stop>
        requires nests { Nests self.now.weight (F.pre self.now.deep) (F.post self.now.deep) }
        requires low { level ≤ 201 }
        requires within { self.now.weight ≤ weight 0 level }
        ensures tree { Gets (call_link left level (rest cursor.old)) result (rest cursor.new) }
        ensures kept { stop cursor.new ≡ stop cursor.old }
        ensures low { IsOk result → level < 201 }
    {
        cursor.expect(Sort::OpenParen, level)?;
        let arguments = self.args(cursor, level + 1)?;
        Ok(nodes::plain(nodes::call(self.alloc, left, arguments)?))
    }
}
