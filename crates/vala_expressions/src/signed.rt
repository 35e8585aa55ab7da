// Operands with signs in front.

ghost use Rattle.std.specs.Prelude.{◌≡◌, ◌≤◌, true};
ghost use Rattle.vala_grammar.specs.Parts as part;
ghost use Rattle.vala_grammar.specs.Read.{vala_reader};
ghost use Rattle.vala_grammar.specs.Tests.{is};
ghost use Rattle.vala_grammar.specs.declared.sort.Sort.TheVariants as s;
ghost use Rattle.vala_cursor.specs.Ahead.{rest, stop};
ghost use Rattle.vala_expressions.specs.Asks.{Nests, weight};
ghost use Rattle.vala_cursor.specs.Gets.{Gets, next};

use crate::asks::{Ask, Grammar, Reply};
use crate::tiers;
use std::alloc::Global;
use vala_cursor::{Cursor, Flaw, Stop};
use vala_grammar::{Bracketed, Chain, Signs, Sort};
use vala_nodes::{chains as chain, operands as build};

impl<F: Fn(Global, &mut Cursor<'_>, u32, Ask) -> Result<Reply, Stop>> Grammar<F> {
    /// An operand with the signs in front of it.
    #[tactic(auto, using(crate::proofs::ChainLaws::prefix_law, vala_cursor::proofs::Steps::just))]
    pub fn prefix(&self, cursor: &mut Cursor<'_>, level: u32, signs: Signs) -> Result<Chain, Stop>
        requires nests { Nests self.now.weight (F.pre self.now.deep) (F.post self.now.deep) }
        requires low { level ≤ 201 }
        requires within { self.now.weight ≤ weight 0 level }
        ensures tree { Gets (vala_reader (part.Prefix signs) level (rest cursor.old)) result (rest cursor.new) }
        ensures kept { stop cursor.new ≡ stop cursor.old }
    {
        if cursor.is(Sort::Slash) {
            return Err(Stop::Flawed(Flaw::LeftOut));
        }
        self.unary(cursor, level, signs)
    }

    #[tactic(auto, using(crate::proofs::ChainLaws::unary_law, vala_cursor::proofs::Steps::just))]
    pub fn unary(&self, cursor: &mut Cursor<'_>, level: u32, signs: Signs) -> Result<Chain, Stop>
        requires nests { Nests self.now.weight (F.pre self.now.deep) (F.post self.now.deep) }
        requires low { level ≤ 201 }
        requires within { self.now.weight ≤ weight 0 level }
        ensures tree { Gets (vala_reader (part.Unary signs) level (rest cursor.old)) result (rest cursor.new) }
        ensures kept { stop cursor.new ≡ stop cursor.old }
    {
        if cursor.is(Sort::OpenParen) {
            return self.in_brackets(cursor, level, signs);
        }
        if cursor.is(Sort::Identifier) {
            let token = cursor.expect(Sort::Identifier, level)?;
            let first = build::plain(build::name(self.alloc, token)?);
            return self.suffix(cursor, level, first);
        }
        if cursor.is(Sort::Yield) {
            let token = cursor.expect(Sort::Yield, level)?;
            let call = self.deep_yield_call(cursor, level + 1)?;
            let first = build::plain(build::yielded(self.alloc, token, call)?);
            return self.suffix(cursor, level, first);
        }
        self.direct(cursor, level, signs)
    }

    #[tactic(auto, using(crate::proofs::ChainLaws::unary_law, crate::proofs::ChainLaws::bracket_laws, vala_cursor::proofs::Steps::just))]
    fn in_brackets(&self, cursor: &mut Cursor<'_>, level: u32, signs: Signs) -> Result<Chain, Stop>
        requires nests { Nests self.now.weight (F.pre self.now.deep) (F.post self.now.deep) }
        requires low { level ≤ 201 }
        requires within { self.now.weight ≤ weight 0 level }
        requires opens { next (is s.OpenParen) (rest cursor.old) ≡ true }
        ensures tree { Gets (vala_reader (part.Unary signs) level (rest cursor.old)) result (rest cursor.new) }
        ensures kept { stop cursor.new ≡ stop cursor.old }
    {
        let opening = cursor.expect(Sort::OpenParen, level)?;
        match self.bracket(cursor, level, false, opening)? {
            Bracketed::Lambda(tree) => Ok(build::plain(tree)),
            Bracketed::Operand(operand) => Ok(operand),
        }
    }

    /// An operand that begins with no name, `yield` or bracket.
    #[tactic(auto, using(crate::proofs::ChainLaws::direct_law, vala_cursor::proofs::Steps::just))]
    pub fn direct(&self, cursor: &mut Cursor<'_>, level: u32, signs: Signs) -> Result<Chain, Stop>
        requires nests { Nests self.now.weight (F.pre self.now.deep) (F.post self.now.deep) }
        requires low { level ≤ 201 }
        requires within { self.now.weight ≤ weight 0 level }
        ensures tree { Gets (vala_reader (part.Direct signs) level (rest cursor.old)) result (rest cursor.new) }
        ensures kept { stop cursor.new ≡ stop cursor.old }
    {
        if tiers::sign_next(cursor, signs) {
            let sign = tiers::sign(cursor, level, signs)?;
            let operand = self.deep_prefix(cursor, level + 1, Signs::All)?;
            return Ok(chain::prefixed(self.alloc, sign, operand)?);
        }
        let first = build::plain(self.atom(cursor, level)?);
        self.suffix(cursor, level, first)
    }
}
