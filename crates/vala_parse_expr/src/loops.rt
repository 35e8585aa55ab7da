// Loops.

ghost use Rattle.std.specs.Prelude.{◌≡◌, ◌<◌, ◌≤◌, List, [], ◌∷◌};
ghost use Rattle.vala_grammar.specs.Parts as part;
ghost use Rattle.vala_grammar.specs.Read.{vala_reader};
ghost use Rattle.vala_cursor.specs.Ahead.{rest, reads, stop};
ghost use Rattle.vala_expressions.specs.Asks.{Nests, weight};
ghost use Rattle.vala_cursor.specs.Gets.{Gets, seen};
ghost use Rattle.vala_grammar.specs.Grammar.{foreach_name};
ghost use Rattle.vala_parse_expr.specs.Statements.{while_form};

use crate::statements::Statements;
use sqlite_items::Boxed;
use std::alloc::Global;
use vala_cursor::{Cursor, Flaw, Stop};
use vala_expressions::{Ask, Reply, names};
use vala_grammar::{Ended, Sort};
use vala_lexer::Token;
use vala_nodes::statements as nodes;
use vala_tree::{DeclaredType, Stmt};

impl<F: Fn(Global, &mut Cursor<'_>, u32, Ask) -> Result<Reply, Stop>> Statements<F> {
    /// What follows `while`.
    #[tactic(auto, using(crate::proofs::StatementLaws::while_law))]
    pub fn while_more(
        &self,
        cursor: &mut Cursor<'_>,
        level: u32,
        token: Token<'_>,
    ) -> Result<Ended, Stop>
        requires nests { Nests self.now.code.weight (F.pre self.now.code.deep) (F.post self.now.code.deep) }
        requires within { self.now.code.weight ≤ weight 0 level }
        requires low { level ≤ 201 }
        ensures tree { Gets (reads (while_form (seen token.entry)) level (rest cursor.old)) result (rest cursor.new) }
        ensures kept { stop cursor.new ≡ stop cursor.old }
    {
        let test = self.test_in(cursor, level)?;
        let body = self.body(cursor, level)?;
        Ok(nodes::while_loop(self.code.alloc, token, test, body)?)
    }

    /// What follows `do`.
    #[tactic(auto, using(crate::proofs::LoopLaws::do_law))]
    pub fn do_more(
        &self,
        cursor: &mut Cursor<'_>,
        level: u32,
        token: Token<'_>,
    ) -> Result<Boxed<Stmt>, Stop>
        requires nests { Nests self.now.code.weight (F.pre self.now.code.deep) (F.post self.now.code.deep) }
        requires within { self.now.code.weight ≤ weight 0 level }
        requires low { level < 201 }
        ensures tree { Gets (vala_reader (part.DoMore (seen token.entry)) level (rest cursor.old)) result (rest cursor.new) }
        ensures kept { stop cursor.new ≡ stop cursor.old }
    {
        let body = self.body(cursor, level)?;
        cursor.expect(Sort::While, level)?;
        let test = self.test_in(cursor, level)?;
        let close = cursor.expect(Sort::Semicolon, level)?;
        Ok(nodes::do_loop(self.code.alloc, token, body, test, close)?)
    }

    /// What follows `for`.
    #[tactic(auto, using(crate::proofs::LoopLaws::for_law))]
    pub fn for_more(
        &self,
        cursor: &mut Cursor<'_>,
        level: u32,
        token: Token<'_>,
    ) -> Result<Ended, Stop>
        requires nests { Nests self.now.code.weight (F.pre self.now.code.deep) (F.post self.now.code.deep) }
        requires within { self.now.code.weight ≤ weight 0 level }
        requires low { level ≤ 201 }
        ensures tree { Gets (vala_reader (part.ForMore (seen token.entry)) level (rest cursor.old)) result (rest cursor.new) }
        ensures kept { stop cursor.new ≡ stop cursor.old }
    {
        cursor.expect(Sort::OpenParen, level)?;
        let head = self.for_head(cursor, level + 1)?;
        let body = self.body(cursor, level)?;
        Ok(nodes::for_loop(self.code.alloc, token, head, body)?)
    }

    /// What follows `foreach`.
    #[tactic(auto, using(crate::proofs::LoopLaws::foreach_law))]
    pub fn foreach_more(
        &self,
        cursor: &mut Cursor<'_>,
        level: u32,
        token: Token<'_>,
    ) -> Result<Ended, Stop>
        requires nests { Nests self.now.code.weight (F.pre self.now.code.deep) (F.post self.now.code.deep) }
        requires within { self.now.code.weight ≤ weight 0 level }
        requires low { level ≤ 201 }
        ensures tree { Gets (vala_reader (part.ForeachMore (seen token.entry)) level (rest cursor.old)) result (rest cursor.new) }
        ensures kept { stop cursor.new ≡ stop cursor.old }
    {
        cursor.expect(Sort::OpenParen, level)?;
        if cursor.is(Sort::Var) {
            cursor.expect(Sort::Var, level + 1)?;
            return self.foreach_name(cursor, level, token, DeclaredType::Var);
        }
        let declared = names::any_type(self.code.alloc, cursor, level + 1)?;
        if cursor.is_among(&[Sort::Star, Sort::Less]) {
            return Err(Stop::Flawed(Flaw::LeftOut));
        }
        self.foreach_name(cursor, level, token, DeclaredType::Written(declared))
    }

    #[tactic(auto, using(crate::proofs::LoopLaws::foreach_name_law))]
    fn foreach_name(
        &self,
        cursor: &mut Cursor<'_>,
        level: u32,
        token: Token<'_>,
        declared: DeclaredType,
    ) -> Result<Ended, Stop>
        requires nests { Nests self.now.code.weight (F.pre self.now.code.deep) (F.post self.now.code.deep) }
        requires within { self.now.code.weight ≤ weight 0 level }
        requires low { level < 201 }
        ensures tree { Gets (reads (foreach_name (seen token.entry) declared) level (rest cursor.old)) result (rest cursor.new) }
        ensures kept { stop cursor.new ≡ stop cursor.old }
    {
        let name = cursor.expect(Sort::Identifier, level + 1)?;
        cursor.expect(Sort::In, level + 1)?;
        let over = self.code.deep_whole(cursor, level + 1)?;
        cursor.expect(Sort::CloseParen, level + 1)?;
        let body = self.body(cursor, level)?;
        Ok(nodes::foreach_loop(self.code.alloc, token, declared, name, over, body)?)
    }
}
