// What stands in the brackets of a `for`.

ghost use Rattle.std.specs.Prelude.{◌≡◌, ◌<◌, ◌≤◌, List, [], ◌∷◌, Option, None};
ghost use Rattle.vala_grammar.specs.Parts as part;
ghost use Rattle.vala_grammar.specs.Read.{vala_reader};
ghost use Rattle.vala_cursor.specs.Ahead.{rest, reads, stop};
ghost use Rattle.vala_expressions.specs.Asks.{Nests, weight};
ghost use Rattle.vala_cursor.specs.Gets.{Gets, seen};
ghost use Rattle.vala_grammar.specs.Grammar.{for_start};
ghost use Rattle.vala_parse_expr.specs.Statements.{for_declared, for_yield};

use crate::statements::Statements;
use sqlite_items::{Boxed, Items};
use std::alloc::Global;
use vala_cursor::{Cursor, Stop};
use vala_expressions::{Ask, Reply};
use vala_grammar::{Beginning, ForHead, Sort};
use vala_nodes::operands;
use vala_tree::{Expr, ForStart, Local};

impl<F: Fn(Global, &mut Cursor<'_>, u32, Ask) -> Result<Reply, Stop>> Statements<F> {
    /// What follows `(` of a `for`.
    #[tactic(auto, using(crate::proofs::LoopLaws::for_head_law, vala_cursor::proofs::Steps::just))]
    pub fn for_head(&self, cursor: &mut Cursor<'_>, level: u32) -> Result<ForHead, Stop>
        requires nests { Nests self.now.code.weight (F.pre self.now.code.deep) (F.post self.now.code.deep) }
        requires low { level ≤ 201 }
        requires within { self.now.code.weight < weight 0 level }
        ensures tree { Gets (vala_reader part.ForHeadOf level (rest cursor.old)) result (rest cursor.new) }
        ensures kept { stop cursor.new ≡ stop cursor.old }
    {
        if cursor.is(Sort::Semicolon) {
            cursor.expect(Sort::Semicolon, level)?;
            let none = ForStart::Exprs(Items::new(self.code.alloc));
            let start = Boxed::new(self.code.alloc, none)?;
            return self.for_test(cursor, level, start);
        }
        if cursor.is(Sort::Yield) {
            return self.for_yield(cursor, level);
        }
        let beginning = self.begin(cursor, level)?;
        self.for_start(cursor, level, beginning)
    }

    #[tactic(auto, unfolding(crate::specs::Statements::for_yield), using(vala_cursor::proofs::Steps::just))]
    fn for_yield(&self, cursor: &mut Cursor<'_>, level: u32) -> Result<ForHead, Stop>
        requires nests { Nests self.now.code.weight (F.pre self.now.code.deep) (F.post self.now.code.deep) }
        requires low { level ≤ 201 }
        requires within { self.now.code.weight < weight 0 level }
        ensures tree { Gets (for_yield level (rest cursor.old)) result (rest cursor.new) }
        ensures kept { stop cursor.new ≡ stop cursor.old }
    {
        let token = cursor.expect(Sort::Yield, level)?;
        let call = self.code.deep_yield_call(cursor, level + 1)?;
        let first = operands::plain(operands::yielded(self.code.alloc, token, call)?);
        let left = self.code.suffix(cursor, level, first)?;
        let value = self.code.onward(cursor, level, left)?;
        self.for_exprs(cursor, level, value)
    }

    #[tactic(auto, using(crate::proofs::LoopLaws::for_expression, vala_cursor::proofs::Steps::just))]
    fn for_start(
        &self,
        cursor: &mut Cursor<'_>,
        level: u32,
        beginning: Beginning,
    ) -> Result<ForHead, Stop>
        requires nests { Nests self.now.code.weight (F.pre self.now.code.deep) (F.post self.now.code.deep) }
        requires low { level ≤ 201 }
        requires within { self.now.code.weight < weight 0 level }
        ensures tree { Gets (reads (for_start beginning) level (rest cursor.old)) result (rest cursor.new) }
        ensures kept { stop cursor.new ≡ stop cursor.old }
    {
        match beginning {
            Beginning::Declared(local, _) => self.for_declared(cursor, level, local),
            Beginning::Expression(value) => self.for_exprs(cursor, level, value),
        }
    }

    /// What follows a declaration.
    #[tactic(auto, unfolding(crate::specs::Statements::for_declared), using(vala_cursor::proofs::Steps::just))]
    fn for_declared(
        &self,
        cursor: &mut Cursor<'_>,
        level: u32,
        local: Boxed<Local>,
    ) -> Result<ForHead, Stop>
        requires nests { Nests self.now.code.weight (F.pre self.now.code.deep) (F.post self.now.code.deep) }
        requires low { level ≤ 201 }
        requires within { self.now.code.weight < weight 0 level }
        ensures tree { Gets (for_declared local level (rest cursor.old)) result (rest cursor.new) }
        ensures kept { stop cursor.new ≡ stop cursor.old }
    {
        cursor.expect(Sort::Semicolon, level)?;
        let declared = ForStart::Declared(local.into_inner());
        let start = Boxed::new(self.code.alloc, declared)?;
        self.for_test(cursor, level, start)
    }

    #[tactic(auto, using(crate::proofs::LoopLaws::for_exprs_law, vala_cursor::proofs::Steps::just))]
    fn for_exprs(
        &self,
        cursor: &mut Cursor<'_>,
        level: u32,
        first: Boxed<Expr>,
    ) -> Result<ForHead, Stop>
        requires nests { Nests self.now.code.weight (F.pre self.now.code.deep) (F.post self.now.code.deep) }
        requires low { level ≤ 201 }
        requires within { self.now.code.weight < weight 0 level }
        ensures tree { Gets (vala_reader (part.ForExprs (first ∷ [])) level (rest cursor.old)) result (rest cursor.new) }
        ensures kept { stop cursor.new ≡ stop cursor.old }
    {
        let mut list = Items::new(self.code.alloc);
        list.push(first.into_inner())?;
        'items: while cursor.is(Sort::Comma) {
            cursor.expect(Sort::Comma, level)?;
            list.push(self.code.deep_whole(cursor, level)?.into_inner())?;
        }
        cursor.expect(Sort::Semicolon, level)?;
        let start = Boxed::new(self.code.alloc, ForStart::Exprs(list))?;
        self.for_test(cursor, level, start)
    }

    #[tactic(auto, using(crate::proofs::LoopLaws::for_test_law, vala_cursor::proofs::Steps::just))]
    fn for_test(
        &self,
        cursor: &mut Cursor<'_>,
        level: u32,
        start: Boxed<ForStart>,
    ) -> Result<ForHead, Stop>
        requires nests { Nests self.now.code.weight (F.pre self.now.code.deep) (F.post self.now.code.deep) }
        requires low { level ≤ 201 }
        requires within { self.now.code.weight < weight 0 level }
        ensures tree { Gets (vala_reader (part.ForTest start) level (rest cursor.old)) result (rest cursor.new) }
        ensures kept { stop cursor.new ≡ stop cursor.old }
    {
        if cursor.is(Sort::Semicolon) {
            cursor.expect(Sort::Semicolon, level)?;
            return self.for_steps(cursor, level, start, None);
        }
        let test = self.code.deep_whole(cursor, level)?;
        cursor.expect(Sort::Semicolon, level)?;
        self.for_steps(cursor, level, start, Some(test))
    }

    #[tactic(auto, using(crate::proofs::LoopLaws::for_steps_law, vala_cursor::proofs::Steps::just))]
    fn for_steps(
        &self,
        cursor: &mut Cursor<'_>,
        level: u32,
        start: Boxed<ForStart>,
        test: Option<Boxed<Expr>>,
    ) -> Result<ForHead, Stop>
        requires nests { Nests self.now.code.weight (F.pre self.now.code.deep) (F.post self.now.code.deep) }
        requires low { level ≤ 201 }
        requires within { self.now.code.weight < weight 0 level }
        ensures tree { Gets (vala_reader (part.ForSteps start test) level (rest cursor.old)) result (rest cursor.new) }
        ensures kept { stop cursor.new ≡ stop cursor.old }
    {
        let mut steps = Items::new(self.code.alloc);
        if cursor.is(Sort::CloseParen) {
            cursor.expect(Sort::CloseParen, level)?;
            return Ok(ForHead { start, test, steps });
        }
        steps.push(self.code.deep_whole(cursor, level)?.into_inner())?;
        self.more_steps(cursor, level, start, test, steps)
    }

    #[tactic(auto, using(crate::proofs::LoopLaws::more_steps_law, vala_cursor::proofs::Steps::just))]
    fn more_steps(
        &self,
        cursor: &mut Cursor<'_>,
        level: u32,
        start: Boxed<ForStart>,
        test: Option<Boxed<Expr>>,
        first: Items<Expr>,
    ) -> Result<ForHead, Stop>
        requires nests { Nests self.now.code.weight (F.pre self.now.code.deep) (F.post self.now.code.deep) }
        requires low { level ≤ 201 }
        requires within { self.now.code.weight < weight 0 level }
        ensures tree { Gets (vala_reader (part.MoreSteps start test first) level (rest cursor.old)) result (rest cursor.new) }
        ensures kept { stop cursor.new ≡ stop cursor.old }
    {
        let mut steps = first;
        'items: while cursor.is(Sort::Comma) {
            cursor.expect(Sort::Comma, level)?;
            steps.push(self.code.deep_whole(cursor, level)?.into_inner())?;
        }
        cursor.expect(Sort::CloseParen, level)?;
        Ok(ForHead { start, test, steps })
    }
}
