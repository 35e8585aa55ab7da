// `try` with its clauses.

ghost use Rattle.std.specs.Prelude.{◌≡◌, ◌<◌, ◌≤◌, List, []};
ghost use Rattle.vala_grammar.specs.Parts as part;
ghost use Rattle.vala_grammar.specs.Read.{vala_reader};
ghost use Rattle.vala_cursor.specs.Ahead.{rest, reads, stop};
ghost use Rattle.vala_expressions.specs.Asks.{Nests, weight};
ghost use Rattle.vala_cursor.specs.Gets.{Gets, seen};
ghost use Rattle.vala_parse_expr.specs.Statements.{try_of, catch_form, catch_name};

use crate::statements::Statements;
use sqlite_items::{Boxed, Items};
use std::alloc::Global;
use vala_cursor::{Cursor, Flaw, Stop};
use vala_expressions::{Ask, Reply, names};
use vala_grammar::Sort;
use vala_lexer::Token;
use vala_nodes::{lists, statements as nodes};
use vala_tree::{Block, Catch, Stmt, TypeTree};

impl<F: Fn(Global, &mut Cursor<'_>, u32, Ask) -> Result<Reply, Stop>> Statements<F> {
    /// `try`, a block and clauses.
    #[tactic(auto, unfolding(crate::specs::Statements::try_of))]
    pub fn try_of(&self, cursor: &mut Cursor<'_>, level: u32) -> Result<Boxed<Stmt>, Stop>
        requires nests { Nests self.now.code.weight (F.pre self.now.code.deep) (F.post self.now.code.deep) }
        requires within { self.now.code.weight ≤ weight 0 level }
        requires low { level ≤ 201 }
        ensures tree { Gets (try_of level (rest cursor.old)) result (rest cursor.new) }
        ensures kept { stop cursor.new ≡ stop cursor.old }
    {
        let token = cursor.expect(Sort::Try, level)?;
        let body = self.block(cursor, level)?;
        self.try_more(cursor, level, token, body)
    }

    #[tactic(auto, using(crate::proofs::StatementLaws::try_more_law, crate::proofs::Progress::catch_moves, vala_cursor::proofs::Steps::just))]
    fn try_more(
        &self,
        cursor: &mut Cursor<'_>,
        level: u32,
        token: Token<'_>,
        body: Boxed<Block>,
    ) -> Result<Boxed<Stmt>, Stop>
        requires nests { Nests self.now.code.weight (F.pre self.now.code.deep) (F.post self.now.code.deep) }
        requires within { self.now.code.weight ≤ weight 0 level }
        requires low { level ≤ 201 }
        ensures tree { Gets (vala_reader (part.TryMore (seen token.entry) body []) level (rest cursor.old)) result (rest cursor.new) }
        ensures kept { stop cursor.new ≡ stop cursor.old }
    {
        let mut clauses = Items::new(self.code.alloc);
        'clauses: while cursor.is(Sort::Catch) {
            clauses.push(self.catch_of(cursor, level)?)?;
        }
        if cursor.is(Sort::Finally) {
            cursor.expect(Sort::Finally, level)?;
            let last = self.block(cursor, level)?;
            return Ok(nodes::try_finally(self.code.alloc, token, body, clauses, last)?);
        }
        Ok(lists::try_block(self.code.alloc, token, body, clauses)?)
    }

    #[tactic(auto, using(crate::proofs::StatementLaws::catch_law, vala_cursor::proofs::Steps::just))]
    fn catch_of(&self, cursor: &mut Cursor<'_>, level: u32) -> Result<Catch, Stop>
        requires nests { Nests self.now.code.weight (F.pre self.now.code.deep) (F.post self.now.code.deep) }
        requires within { self.now.code.weight ≤ weight 0 level }
        requires low { level ≤ 201 }
        ensures tree { Gets (vala_reader part.CatchOf level (rest cursor.old)) result (rest cursor.new) }
        ensures kept { stop cursor.new ≡ stop cursor.old }
    {
        let token = cursor.expect(Sort::Catch, level)?;
        if cursor.is(Sort::OpenParen) {
            cursor.expect(Sort::OpenParen, level)?;
            return self.catch_one(cursor, level, token);
        }
        let body = self.block(cursor, level)?;
        Ok(nodes::catch_all(token, body))
    }

    #[tactic(auto, using(crate::proofs::CatchLaws::catch_one_law))]
    fn catch_one(
        &self,
        cursor: &mut Cursor<'_>,
        level: u32,
        token: Token<'_>,
    ) -> Result<Catch, Stop>
        requires nests { Nests self.now.code.weight (F.pre self.now.code.deep) (F.post self.now.code.deep) }
        requires within { self.now.code.weight ≤ weight 0 level }
        requires low { level < 201 }
        ensures tree { Gets (reads (catch_form (seen token.entry)) level (rest cursor.old)) result (rest cursor.new) }
        ensures kept { stop cursor.new ≡ stop cursor.old }
    {
        let declared = names::any_type(self.code.alloc, cursor, level + 1)?;
        if cursor.is_among(&[Sort::Star, Sort::Less]) {
            return Err(Stop::Flawed(Flaw::LeftOut));
        }
        self.catch_name(cursor, level, token, declared)
    }

    /// What follows the type.
    #[tactic(auto, using(crate::proofs::CatchLaws::catch_name_law))]
    fn catch_name(
        &self,
        cursor: &mut Cursor<'_>,
        level: u32,
        token: Token<'_>,
        declared: TypeTree,
    ) -> Result<Catch, Stop>
        requires nests { Nests self.now.code.weight (F.pre self.now.code.deep) (F.post self.now.code.deep) }
        requires within { self.now.code.weight ≤ weight 0 level }
        requires low { level < 201 }
        ensures tree { Gets (reads (catch_name (seen token.entry) declared) level (rest cursor.old)) result (rest cursor.new) }
        ensures kept { stop cursor.new ≡ stop cursor.old }
    {
        let name = cursor.expect(Sort::Identifier, level + 1)?;
        cursor.expect(Sort::CloseParen, level + 1)?;
        let body = self.block(cursor, level)?;
        Ok(nodes::catch_one(self.code.alloc, token, declared, name, body)?)
    }
}
