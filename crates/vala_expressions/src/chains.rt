// Operators that bind to the left, and `??`.

ghost use Rattle.std.specs.Prelude.{◌≡◌, ◌<◌, ◌≤◌, IsOk};
ghost use Rattle.vala_grammar.specs.Parts as part;
ghost use Rattle.vala_grammar.specs.Read.{vala_reader};
ghost use Rattle.vala_cursor.specs.Ahead.{rest, stop};
ghost use Rattle.vala_expressions.specs.Asks.{Nests, weight};
ghost use Rattle.vala_expressions.specs.Chains.{one_further};
ghost use Rattle.vala_cursor.specs.Gets.{Gets};

use crate::asks::{Ask, Grammar, Reply};
use crate::tiers;
use std::alloc::Global;
use vala_cursor::{Cursor, Stop};
use vala_grammar::{Chain, Signs, Sort, Tier};
use vala_nodes::chains as chain;

impl<F: Fn(Global, &mut Cursor<'_>, u32, Ask) -> Result<Reply, Stop>> Grammar<F> {
    fn deep_operand(
        &self,
        cursor: &mut Cursor<'_>,
        level: u32,
        depth: u32,
        tier: Tier,
    ) -> Result<Chain, Stop>
        requires nests { Nests self.now.weight (F.pre self.now.deep) (F.post self.now.deep) }
        requires low { level ≤ 201 }
        requires over { depth ≤ level }
        requires within { self.now.weight < weight depth level }
        ensures tree { Gets (vala_reader (part.Operand depth tier) level (rest cursor.old)) result (rest cursor.new) }
        ensures kept { stop cursor.new ≡ stop cursor.old }
    {
        match (self.deep)(self.alloc, cursor, level, Ask::Operand(depth, tier))? {
            Reply::Chain(tree) => Ok(tree),
            _ => unreachable!(),
        }
    }

    fn deep_coalesce_operand(
        &self,
        cursor: &mut Cursor<'_>,
        level: u32,
        depth: u32,
    ) -> Result<Chain, Stop>
        requires nests { Nests self.now.weight (F.pre self.now.deep) (F.post self.now.deep) }
        requires low { level ≤ 201 }
        requires over { depth ≤ level }
        requires within { self.now.weight < weight depth level }
        ensures tree { Gets (vala_reader (part.CoalesceOperand depth) level (rest cursor.old)) result (rest cursor.new) }
        ensures kept { stop cursor.new ≡ stop cursor.old }
    {
        match (self.deep)(self.alloc, cursor, level, Ask::CoalesceOperand(depth))? {
            Reply::Chain(tree) => Ok(tree),
            _ => unreachable!(),
        }
    }

    /// The operators up to a tier behind an operand.
    #[tactic(auto, using(crate::proofs::ChainLaws::upto_laws, vala_cursor::proofs::Steps::just))]
    pub fn upto(
        &self,
        cursor: &mut Cursor<'_>,
        level: u32,
        depth: u32,
        tier: Tier,
        first: Chain,
    ) -> Result<Chain, Stop>
        requires nests { Nests self.now.weight (F.pre self.now.deep) (F.post self.now.deep) }
        requires low { level ≤ 201 }
        requires over { depth ≤ level }
        requires within { self.now.weight ≤ weight depth level }
        ensures tree { Gets (vala_reader (part.Upto depth tier first) level (rest cursor.old)) result (rest cursor.new) }
        ensures kept { stop cursor.new ≡ stop cursor.old }
    {
        let Some(inner) = tiers::tighter_than(tier) else {
            return self.rest_of_tier(cursor, level, depth, tier, first);
        };
        let joined = self.upto(cursor, level, depth, inner, first)?;
        self.rest_of_tier(cursor, level, depth, tier, joined)
    }

    /// The operators of a tier behind an operand.
    #[tactic(auto, using(crate::proofs::ChainLaws::rest_law))]
    fn rest_of_tier(
        &self,
        cursor: &mut Cursor<'_>,
        level: u32,
        depth: u32,
        tier: Tier,
        first: Chain,
    ) -> Result<Chain, Stop>
        requires nests { Nests self.now.weight (F.pre self.now.deep) (F.post self.now.deep) }
        requires low { level ≤ 201 }
        requires over { depth ≤ level }
        requires within { self.now.weight ≤ weight depth level }
        ensures tree { Gets (vala_reader (part.Rest depth tier first) level (rest cursor.old)) result (rest cursor.new) }
        ensures kept { stop cursor.new ≡ stop cursor.old }
    {
        let mut joined = first;
        let mut level = level;
        let mut depth = depth;
        'operators: while tiers::goes_further(cursor, tier, &joined.last) {
            joined = self.one_operator(cursor, level, depth, tier, joined)?;
            level += 1;
            depth += 1;
        }
        Ok(joined)
    }

    /// One more operator, and what stands behind it.
    fn one_operator(
        &self,
        cursor: &mut Cursor<'_>,
        level: u32,
        depth: u32,
        tier: Tier,
        left: Chain,
    ) -> Result<Chain, Stop>
        requires nests { Nests self.now.weight (F.pre self.now.deep) (F.post self.now.deep) }
        requires low { level ≤ 201 }
        requires over { depth ≤ level }
        requires within { self.now.weight ≤ weight depth level }
        ensures step { Gets (one_further depth tier left level (rest cursor.old)) result (rest cursor.new) }
        ensures kept { stop cursor.new ≡ stop cursor.old }
        ensures low { IsOk result → level < 201 }
    {
        if tiers::type_test_next(cursor, tier) {
            let token = cursor.expect(Sort::TypeTest, level)?;
            let tested = self.tested_type(cursor, level + 1, depth + 1)?;
            return Ok(chain::tested(self.alloc, left, token, tested)?);
        }
        let token = tiers::operator(cursor, level, tier, &left.last)?;
        let right = self.deep_operand(cursor, level + 1, depth + 1, tier)?;
        Ok(chain::joined(self.alloc, left, token, right)?)
    }

    /// An operand of a tier's operator.
    #[tactic(auto, using(crate::proofs::TierLaws::operand_law, vala_cursor::proofs::Steps::just))]
    pub fn operand(
        &self,
        cursor: &mut Cursor<'_>,
        level: u32,
        depth: u32,
        tier: Tier,
    ) -> Result<Chain, Stop>
        requires nests { Nests self.now.weight (F.pre self.now.deep) (F.post self.now.deep) }
        requires low { level ≤ 201 }
        requires over { depth ≤ level }
        requires within { self.now.weight ≤ weight depth level }
        ensures tree { Gets (vala_reader (part.Operand depth tier) level (rest cursor.old)) result (rest cursor.new) }
        ensures kept { stop cursor.new ≡ stop cursor.old }
    {
        let first = self.prefix(cursor, level, Signs::All)?;
        match tiers::tighter_than(tier) {
            None => Ok(first),
            Some(inner) => self.upto(cursor, level, depth, inner, first),
        }
    }

    /// `??` and what stands behind it, if a chain goes on so.
    #[tactic(auto, using(crate::proofs::ChainLaws::coalesce_tail_law))]
    pub fn coalesce_tail(
        &self,
        cursor: &mut Cursor<'_>,
        level: u32,
        depth: u32,
        left: Chain,
    ) -> Result<Chain, Stop>
        requires nests { Nests self.now.weight (F.pre self.now.deep) (F.post self.now.deep) }
        requires low { level ≤ 201 }
        requires over { depth ≤ level }
        requires within { self.now.weight ≤ weight depth level }
        ensures tree { Gets (vala_reader (part.CoalesceTail depth left) level (rest cursor.old)) result (rest cursor.new) }
        ensures kept { stop cursor.new ≡ stop cursor.old }
    {
        if tiers::ends_asked(&left.last) || !cursor.is(Sort::Coalesce) {
            return Ok(left);
        }
        let token = cursor.expect(Sort::Coalesce, level)?;
        let right = self.deep_coalesce_operand(cursor, level + 1, depth + 1)?;
        Ok(chain::joined(self.alloc, left, token, right)?)
    }

    /// What stands behind `??`.
    #[tactic(auto, using(crate::proofs::ChainLaws::coalesce_operand_law, vala_cursor::proofs::Steps::just))]
    pub fn coalesce_operand(
        &self,
        cursor: &mut Cursor<'_>,
        level: u32,
        depth: u32,
    ) -> Result<Chain, Stop>
        requires nests { Nests self.now.weight (F.pre self.now.deep) (F.post self.now.deep) }
        requires low { level ≤ 201 }
        requires over { depth ≤ level }
        requires within { self.now.weight ≤ weight depth level }
        ensures tree { Gets (vala_reader (part.CoalesceOperand depth) level (rest cursor.old)) result (rest cursor.new) }
        ensures kept { stop cursor.new ≡ stop cursor.old }
    {
        let first = self.prefix(cursor, level, Signs::All)?;
        let joined = self.upto(cursor, level, depth, Tier::Or, first)?;
        self.coalesce_tail(cursor, level, depth, joined)
    }
}
