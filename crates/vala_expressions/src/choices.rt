// Choices and assignments.

ghost use Rattle.std.specs.Prelude.{◌≡◌, ◌≤◌};
ghost use Rattle.vala_grammar.specs.Parts as part;
ghost use Rattle.vala_grammar.specs.Read.{vala_reader};
ghost use Rattle.vala_cursor.specs.Ahead.{rest, stop};
ghost use Rattle.vala_expressions.specs.Asks.{Nests, weight};
ghost use Rattle.vala_expressions.specs.Chains.{choice_ended, choice_open};
ghost use Rattle.vala_cursor.specs.Gets.{Gets};

use crate::asks::{Ask, Grammar, Reply};
use sqlite_items::Boxed;
use std::alloc::Global;
use vala_cursor::{Cursor, Stop};
use vala_grammar::{Chain, Last, Sort};
use vala_nodes::chains as chain;
use vala_tree::Expr;

impl<F: Fn(Global, &mut Cursor<'_>, u32, Ask) -> Result<Reply, Stop>> Grammar<F> {
    /// `? b : c`, if a chain goes on so.
    #[tactic(auto, using(crate::proofs::ChainLaws::choice_tail_law))]
    pub fn choice_tail(
        &self,
        cursor: &mut Cursor<'_>,
        level: u32,
        test: Chain,
    ) -> Result<Boxed<Expr>, Stop>
        requires nests { Nests self.now.weight (F.pre self.now.deep) (F.post self.now.deep) }
        requires low { level ≤ 201 }
        requires within { self.now.weight ≤ weight 0 level }
        ensures tree { Gets (vala_reader (part.ChoiceTail test) level (rest cursor.old)) result (rest cursor.new) }
        ensures kept { stop cursor.new ≡ stop cursor.old }
    {
        let (value, last) = test.into_parts();
        match last {
            Last::Unmarked => Ok(value),
            Last::Alone => Ok(value),
            Last::Asked(yes) => self.end_choice(cursor, level, value, yes),
            Last::Plain => self.open_choice(cursor, level, value),
            Last::Names => self.open_choice(cursor, level, value),
            Last::Integer => self.open_choice(cursor, level, value),
        }
    }

    pub fn open_choice(
        &self,
        cursor: &mut Cursor<'_>,
        level: u32,
        test: Boxed<Expr>,
    ) -> Result<Boxed<Expr>, Stop>
        requires nests { Nests self.now.weight (F.pre self.now.deep) (F.post self.now.deep) }
        requires low { level ≤ 201 }
        requires within { self.now.weight ≤ weight 0 level }
        ensures tree { Gets (choice_open test level (rest cursor.old)) result (rest cursor.new) }
        ensures kept { stop cursor.new ≡ stop cursor.old }
    {
        if !cursor.is(Sort::Question) {
            return Ok(test);
        }
        cursor.expect(Sort::Question, level)?;
        let yes = self.deep_whole(cursor, level + 1)?;
        self.end_choice(cursor, level, test, yes)
    }

    /// `: c` behind `a ? b`.
    pub fn end_choice(
        &self,
        cursor: &mut Cursor<'_>,
        level: u32,
        test: Boxed<Expr>,
        yes: Boxed<Expr>,
    ) -> Result<Boxed<Expr>, Stop>
        requires nests { Nests self.now.weight (F.pre self.now.deep) (F.post self.now.deep) }
        requires low { level ≤ 201 }
        requires within { self.now.weight ≤ weight 0 level }
        ensures tree { Gets (choice_ended test yes level (rest cursor.old)) result (rest cursor.new) }
        ensures kept { stop cursor.new ≡ stop cursor.old }
    {
        cursor.expect(Sort::Colon, level + 1)?;
        let no = self.deep_test(cursor, level + 1)?;
        Ok(chain::conditional(self.alloc, test, yes, no)?)
    }

    /// An assignment, if an expression goes on so.
    #[tactic(auto, using(crate::proofs::ChainLaws::assign_tail_law))]
    pub fn assign_tail(
        &self,
        cursor: &mut Cursor<'_>,
        level: u32,
        place: Boxed<Expr>,
    ) -> Result<Boxed<Expr>, Stop>
        requires nests { Nests self.now.weight (F.pre self.now.deep) (F.post self.now.deep) }
        requires low { level ≤ 201 }
        requires within { self.now.weight ≤ weight 0 level }
        ensures tree { Gets (vala_reader (part.AssignTail place) level (rest cursor.old)) result (rest cursor.new) }
        ensures kept { stop cursor.new ≡ stop cursor.old }
    {
        if !cursor.is_among(&[Sort::Assign, Sort::Update]) {
            return Ok(place);
        }
        let token = cursor.take_among(&[Sort::Assign, Sort::Update], level)?;
        let value = self.deep_whole(cursor, level + 1)?;
        Ok(chain::assigned(self.alloc, place, token, value)?)
    }
}
