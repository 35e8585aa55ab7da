// Statements.

ghost use Rattle.std.specs.Prelude.{◌≡◌, ◌<◌, ◌≤◌, List, [], IsOk};
ghost use Rattle.vala_grammar.specs.Parts as part;
ghost use Rattle.vala_grammar.specs.Read.{vala_reader};
ghost use Rattle.vala_cursor.specs.Ahead.{rest, reads, stop};
ghost use Rattle.vala_expressions.specs.Asks.{Nests, weight};
ghost use Rattle.vala_cursor.specs.Gets.{Gets, seen};
ghost use Rattle.vala_parse_expr.specs.Statements.{in_braces, test_in, while_form, return_form, yield_form, more_form, leaving_form, jump_form, loop_form};

use sqlite_items::{Boxed, Items};
use std::alloc::Global;
use vala_cursor::{Cursor, Stop};
use vala_expressions::{Ask, Grammar, Reply};
use vala_grammar::{Ended, Sort};
use vala_lexer::Token;
use vala_nodes::{operands, statements as nodes};
use vala_tree::{Block, Expr, Stmt};

/// The parsers of statements, by those of expressions.
#[derive(Clone, Copy)]
pub struct Statements<F> {
    pub code: Grammar<F>,
}

impl<F: Fn(Global, &mut Cursor<'_>, u32, Ask) -> Result<Reply, Stop>> Statements<F> {
    /// `{ .. }`
    #[tactic(auto, using(crate::proofs::StatementLaws::block_of_law, vala_cursor::proofs::Steps::just))]
    pub fn block(&self, cursor: &mut Cursor<'_>, level: u32) -> Result<Boxed<Block>, Stop>
        requires nests { Nests self.now.code.weight (F.pre self.now.code.deep) (F.post self.now.code.deep) }
        requires within { self.now.code.weight ≤ weight 0 level }
        requires low { level ≤ 201 }
        ensures tree { Gets (vala_reader part.BlockOf level (rest cursor.old)) result (rest cursor.new) }
        ensures kept { stop cursor.new ≡ stop cursor.old }
    {
        let opening = cursor.expect(Sort::OpenBrace, level)?;
        self.statements(cursor, level + 1, opening)
    }

    #[tactic(auto, using(crate::proofs::StatementLaws::statements_law, crate::proofs::Progress::statement_moves, vala_cursor::proofs::Steps::just))]
    fn statements(
        &self,
        cursor: &mut Cursor<'_>,
        level: u32,
        opening: Token<'_>,
    ) -> Result<Boxed<Block>, Stop>
        requires nests { Nests self.now.code.weight (F.pre self.now.code.deep) (F.post self.now.code.deep) }
        requires low { level ≤ 201 }
        requires within { self.now.code.weight < weight 0 level }
        ensures tree { Gets (vala_reader (part.Statements (seen opening.entry) []) level (rest cursor.old)) result (rest cursor.new) }
        ensures kept { stop cursor.new ≡ stop cursor.old }
    {
        let mut list = Items::new(self.code.alloc);
        'statements: while !cursor.is(Sort::CloseBrace) {
            let next = self.code.deep_any_stmt(cursor, level)?;
            list.push(next.into_statement().into_inner())?;
        }
        let close = cursor.expect(Sort::CloseBrace, level)?;
        Ok(nodes::block(self.code.alloc, opening, list, close)?)
    }

    /// A block as a statement.
    fn braces(&self, cursor: &mut Cursor<'_>, level: u32) -> Result<Ended, Stop>
        requires nests { Nests self.now.code.weight (F.pre self.now.code.deep) (F.post self.now.code.deep) }
        requires within { self.now.code.weight ≤ weight 0 level }
        requires low { level ≤ 201 }
        ensures tree { Gets (in_braces level (rest cursor.old)) result (rest cursor.new) }
        ensures kept { stop cursor.new ≡ stop cursor.old }
    {
        let block = self.block(cursor, level)?;
        let statement = Boxed::new(self.code.alloc, Stmt::Block(block.into_inner()))?;
        Ok(nodes::ended(statement))
    }

    /// A statement.
    #[tactic(auto, using(crate::proofs::StatementLaws::any_stmt_law, vala_cursor::proofs::Steps::just))]
    pub fn any_stmt(&self, cursor: &mut Cursor<'_>, level: u32) -> Result<Ended, Stop>
        requires nests { Nests self.now.code.weight (F.pre self.now.code.deep) (F.post self.now.code.deep) }
        requires within { self.now.code.weight ≤ weight 0 level }
        requires low { level ≤ 201 }
        ensures tree { Gets (vala_reader part.AnyStmt level (rest cursor.old)) result (rest cursor.new) }
        ensures kept { stop cursor.new ≡ stop cursor.old }
    {
        if cursor.is(Sort::OpenBrace) {
            return self.braces(cursor, level);
        }
        self.bare(cursor, level)
    }

    /// A statement without braces.
    #[tactic(auto, using(crate::proofs::StatementLaws::bare_law, vala_cursor::proofs::Steps::just))]
    pub fn bare(&self, cursor: &mut Cursor<'_>, level: u32) -> Result<Ended, Stop>
        requires nests { Nests self.now.code.weight (F.pre self.now.code.deep) (F.post self.now.code.deep) }
        requires within { self.now.code.weight ≤ weight 0 level }
        requires low { level ≤ 201 }
        ensures tree { Gets (vala_reader part.Bare level (rest cursor.old)) result (rest cursor.new) }
        ensures kept { stop cursor.new ≡ stop cursor.old }
    {
        if cursor.is(Sort::If) {
            let token = cursor.expect(Sort::If, level)?;
            let branches = self.if_more(cursor, level)?;
            return Ok(nodes::if_of(self.code.alloc, token, branches)?);
        }
        self.simple(cursor, level)
    }

    /// The body of a loop or an `if`.
    #[tactic(auto, using(crate::proofs::StatementLaws::body_law, vala_cursor::proofs::Steps::just))]
    pub fn body(&self, cursor: &mut Cursor<'_>, level: u32) -> Result<Ended, Stop>
        requires nests { Nests self.now.code.weight (F.pre self.now.code.deep) (F.post self.now.code.deep) }
        requires within { self.now.code.weight ≤ weight 0 level }
        requires low { level < 201 }
        ensures tree { Gets (vala_reader part.Body level (rest cursor.old)) result (rest cursor.new) }
        ensures kept { stop cursor.new ≡ stop cursor.old }
    {
        if cursor.is(Sort::OpenBrace) {
            return self.braces(cursor, level);
        }
        self.code.deep_bare(cursor, level + 1)
    }

    /// An expression in brackets.
    #[tactic(auto, unfolding(crate::specs::Statements::test_in))]
    pub fn test_in(&self, cursor: &mut Cursor<'_>, level: u32) -> Result<Boxed<Expr>, Stop>
        requires nests { Nests self.now.code.weight (F.pre self.now.code.deep) (F.post self.now.code.deep) }
        requires within { self.now.code.weight ≤ weight 0 level }
        requires low { level ≤ 201 }
        ensures test { Gets (test_in level (rest cursor.old)) result (rest cursor.new) }
        ensures kept { stop cursor.new ≡ stop cursor.old }
        ensures low { IsOk result → level < 201 }
    {
        cursor.expect(Sort::OpenParen, level)?;
        let test = self.code.deep_whole(cursor, level + 1)?;
        cursor.expect(Sort::CloseParen, level + 1)?;
        Ok(test)
    }

    /// A statement that begins with neither `{` nor `if`.
    #[tactic(auto, using(crate::proofs::StatementLaws::simple_law, vala_cursor::proofs::Steps::just))]
    fn simple(&self, cursor: &mut Cursor<'_>, level: u32) -> Result<Ended, Stop>
        requires nests { Nests self.now.code.weight (F.pre self.now.code.deep) (F.post self.now.code.deep) }
        requires within { self.now.code.weight ≤ weight 0 level }
        requires low { level ≤ 201 }
        ensures tree { Gets (vala_reader part.Simple level (rest cursor.old)) result (rest cursor.new) }
        ensures kept { stop cursor.new ≡ stop cursor.old }
    {
        if cursor.is(Sort::Semicolon) {
            let token = cursor.expect(Sort::Semicolon, level)?;
            let statement = Boxed::new(self.code.alloc, Stmt::Empty(token.span))?;
            return Ok(nodes::ended(statement));
        }
        self.loop_or_more(cursor, level)
    }

    #[tactic(auto, using(crate::proofs::StatementLaws::loop_law, vala_cursor::proofs::Steps::just))]
    fn loop_or_more(&self, cursor: &mut Cursor<'_>, level: u32) -> Result<Ended, Stop>
        requires nests { Nests self.now.code.weight (F.pre self.now.code.deep) (F.post self.now.code.deep) }
        requires within { self.now.code.weight ≤ weight 0 level }
        requires low { level ≤ 201 }
        ensures tree { Gets (reads loop_form level (rest cursor.old)) result (rest cursor.new) }
        ensures kept { stop cursor.new ≡ stop cursor.old }
    {
        if cursor.is(Sort::While) {
            let token = cursor.expect(Sort::While, level)?;
            return self.while_more(cursor, level, token);
        }
        if cursor.is(Sort::Do) {
            let token = cursor.expect(Sort::Do, level)?;
            return Ok(nodes::ended(self.do_more(cursor, level, token)?));
        }
        if cursor.is(Sort::For) {
            let token = cursor.expect(Sort::For, level)?;
            return self.for_more(cursor, level, token);
        }
        if cursor.is(Sort::Foreach) {
            let token = cursor.expect(Sort::Foreach, level)?;
            return self.foreach_more(cursor, level, token);
        }
        self.jump_or_more(cursor, level)
    }

    #[tactic(auto, using(crate::proofs::StatementLaws::jump_law, vala_cursor::proofs::Steps::just))]
    fn jump_or_more(&self, cursor: &mut Cursor<'_>, level: u32) -> Result<Ended, Stop>
        requires nests { Nests self.now.code.weight (F.pre self.now.code.deep) (F.post self.now.code.deep) }
        requires within { self.now.code.weight ≤ weight 0 level }
        requires low { level ≤ 201 }
        ensures tree { Gets (reads jump_form level (rest cursor.old)) result (rest cursor.new) }
        ensures kept { stop cursor.new ≡ stop cursor.old }
    {
        if cursor.is(Sort::Break) {
            let token = cursor.expect(Sort::Break, level)?;
            let close = cursor.expect(Sort::Semicolon, level)?;
            let jump = nodes::break_jump(self.code.alloc, token, close)?;
            return Ok(nodes::ended(jump));
        }
        if cursor.is(Sort::Continue) {
            let token = cursor.expect(Sort::Continue, level)?;
            let close = cursor.expect(Sort::Semicolon, level)?;
            let jump = nodes::continue_jump(self.code.alloc, token, close)?;
            return Ok(nodes::ended(jump));
        }
        self.leaving_or_more(cursor, level)
    }

    /// `return`, `throw` and `yield`.
    #[tactic(auto, using(crate::proofs::StatementLaws::leaving_law, vala_cursor::proofs::Steps::just))]
    fn leaving_or_more(&self, cursor: &mut Cursor<'_>, level: u32) -> Result<Ended, Stop>
        requires nests { Nests self.now.code.weight (F.pre self.now.code.deep) (F.post self.now.code.deep) }
        requires within { self.now.code.weight ≤ weight 0 level }
        requires low { level ≤ 201 }
        ensures tree { Gets (reads leaving_form level (rest cursor.old)) result (rest cursor.new) }
        ensures kept { stop cursor.new ≡ stop cursor.old }
    {
        if cursor.is(Sort::Return) {
            let token = cursor.expect(Sort::Return, level)?;
            return self.return_more(cursor, level, token);
        }
        if cursor.is(Sort::Throw) {
            let token = cursor.expect(Sort::Throw, level)?;
            let value = self.code.whole(cursor, level)?;
            let close = cursor.expect(Sort::Semicolon, level)?;
            let jump = nodes::throw_jump(self.code.alloc, token, value, close)?;
            return Ok(nodes::ended(jump));
        }
        if cursor.is(Sort::Yield) {
            let token = cursor.expect(Sort::Yield, level)?;
            return self.yield_more(cursor, level, token);
        }
        self.choice_or_more(cursor, level)
    }

    /// `switch`, `try`, a declaration or an expression.
    #[tactic(auto, using(crate::proofs::StatementLaws::more_law, vala_cursor::proofs::Steps::just))]
    fn choice_or_more(&self, cursor: &mut Cursor<'_>, level: u32) -> Result<Ended, Stop>
        requires nests { Nests self.now.code.weight (F.pre self.now.code.deep) (F.post self.now.code.deep) }
        requires within { self.now.code.weight ≤ weight 0 level }
        requires low { level ≤ 201 }
        ensures tree { Gets (reads more_form level (rest cursor.old)) result (rest cursor.new) }
        ensures kept { stop cursor.new ≡ stop cursor.old }
    {
        if cursor.is(Sort::Switch) {
            let token = cursor.expect(Sort::Switch, level)?;
            return Ok(nodes::ended(self.switch_more(cursor, level, token)?));
        }
        if cursor.is(Sort::Try) {
            return Ok(nodes::ended(self.try_of(cursor, level)?));
        }
        let beginning = self.begin(cursor, level)?;
        let close = cursor.expect(Sort::Semicolon, level)?;
        let statement = nodes::begun(self.code.alloc, beginning, close)?;
        Ok(nodes::ended(statement))
    }

    #[tactic(auto, using(crate::proofs::StatementLaws::return_law))]
    fn return_more(
        &self,
        cursor: &mut Cursor<'_>,
        level: u32,
        token: Token<'_>,
    ) -> Result<Ended, Stop>
        requires nests { Nests self.now.code.weight (F.pre self.now.code.deep) (F.post self.now.code.deep) }
        requires within { self.now.code.weight ≤ weight 0 level }
        requires low { level ≤ 201 }
        ensures tree { Gets (reads (return_form (seen token.entry)) level (rest cursor.old)) result (rest cursor.new) }
        ensures kept { stop cursor.new ≡ stop cursor.old }
    {
        if cursor.is(Sort::Semicolon) {
            let close = cursor.expect(Sort::Semicolon, level)?;
            let jump = nodes::return_jump(self.code.alloc, token, None, close)?;
            return Ok(nodes::ended(jump));
        }
        let value = self.code.whole(cursor, level)?;
        let close = cursor.expect(Sort::Semicolon, level)?;
        let jump = nodes::return_jump(self.code.alloc, token, Some(value), close)?;
        Ok(nodes::ended(jump))
    }

    #[tactic(auto, using(crate::proofs::StatementLaws::yield_law))]
    fn yield_more(
        &self,
        cursor: &mut Cursor<'_>,
        level: u32,
        token: Token<'_>,
    ) -> Result<Ended, Stop>
        requires nests { Nests self.now.code.weight (F.pre self.now.code.deep) (F.post self.now.code.deep) }
        requires within { self.now.code.weight ≤ weight 0 level }
        requires low { level < 201 }
        ensures tree { Gets (reads (yield_form (seen token.entry)) level (rest cursor.old)) result (rest cursor.new) }
        ensures kept { stop cursor.new ≡ stop cursor.old }
    {
        if cursor.is(Sort::Semicolon) {
            let close = cursor.expect(Sort::Semicolon, level)?;
            let jump = nodes::yield_jump(self.code.alloc, token, close)?;
            return Ok(nodes::ended(jump));
        }
        let call = self.code.deep_yield_call(cursor, level + 1)?;
        let first = operands::plain(operands::yielded(self.code.alloc, token, call)?);
        let left = self.code.suffix(cursor, level, first)?;
        let value = self.code.onward(cursor, level, left)?;
        let close = cursor.expect(Sort::Semicolon, level)?;
        let statement = nodes::expression(self.code.alloc, value, close)?;
        Ok(nodes::ended(statement))
    }
}
