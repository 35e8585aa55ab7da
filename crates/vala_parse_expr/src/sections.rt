// `switch` with its parts.

ghost use Rattle.std.specs.Prelude.{◌≡◌, ◌<◌, ◌≤◌, ◌++◌, List, [], ◌∷◌, IfOk};
ghost use Rattle.vala_grammar.specs.Parts as part;
ghost use Rattle.vala_grammar.specs.Trees as tree;
ghost use Rattle.vala_grammar.specs.Read.{vala_reader};
ghost use Rattle.vala_cursor.specs.Ahead.{rest, stop};
ghost use Rattle.vala_expressions.specs.Asks.{Nests, weight};
ghost use Rattle.vala_cursor.specs.Gets.{Gets, seen};
ghost use Rattle.vala_parse_expr.specs.Statements.{with_label, sections_of};

use crate::statements::Statements;
use sqlite_items::{Boxed, Items};
use std::alloc::{AllocError, Global};
use vala_cursor::{Cursor, Stop};
use vala_expressions::{Ask, Reply};
use vala_grammar::Sort;
use vala_lexer::Token;
use vala_nodes::names::join;
use vala_nodes::{lists, statements as nodes};
use vala_tree::{Expr, Label, Section, Stmt};

/// The parts of a `switch` up to the last, and that one so far.
pub struct Parts {
    pub done: Items<Section>,
    pub first: Boxed<Label>,
    pub others: Items<Label>,
    pub statements: Items<Stmt>,
}

impl Drop for Parts {
    fn drop(self) {
        let Parts {
            done,
            first,
            others,
            statements,
        } = self;
        drop(done);
        drop(first);
        drop(others);
        drop(statements);
    }
}

impl Parts {
    /// The parts with the last one.
    fn all(self, alloc: Global) -> Result<Items<Section>, AllocError>
        ensures { IfOk result (λ a. a ≡ self.done ++ tree.section self.first self.others self.statements ∷ []) }
    {
        let Parts {
            done,
            first,
            others,
            statements,
        } = self;
        let mut done = done;
        done.push(lists::section(alloc, first, others, statements)?)?;
        Ok(done)
    }

    /// A label behind statements begins a part, and behind a label it is one more.
    #[tactic(auto, using(crate::proofs::StatementLaws::with_label_laws))]
    fn labelled(self, alloc: Global, label: Boxed<Label>) -> Result<Parts, AllocError>
        ensures { IfOk result (λ a. a ≡ with_label self label) }
    {
        if self.statements.is_empty() {
            let mut parts = self;
            parts.others.push(label.into_inner())?;
            return Ok(parts);
        }
        Ok(Parts {
            done: self.all(alloc)?,
            first: label,
            others: Items::new(alloc),
            statements: Items::new(alloc),
        })
    }
}

impl<F: Fn(Global, &mut Cursor<'_>, u32, Ask) -> Result<Reply, Stop>> Statements<F> {
    /// What follows `switch`.
    #[tactic(auto, using(crate::proofs::LoopLaws::switch_law, vala_cursor::proofs::Steps::just))]
    pub fn switch_more(
        &self,
        cursor: &mut Cursor<'_>,
        level: u32,
        token: Token<'_>,
    ) -> Result<Boxed<Stmt>, Stop>
        requires nests { Nests self.now.code.weight (F.pre self.now.code.deep) (F.post self.now.code.deep) }
        requires within { self.now.code.weight ≤ weight 0 level }
        requires low { level ≤ 201 }
        ensures tree { Gets (vala_reader (part.SwitchMore (seen token.entry)) level (rest cursor.old)) result (rest cursor.new) }
        ensures kept { stop cursor.new ≡ stop cursor.old }
    {
        let value = self.test_in(cursor, level)?;
        cursor.expect(Sort::OpenBrace, level)?;
        if cursor.is(Sort::CloseBrace) {
            let close = cursor.expect(Sort::CloseBrace, level + 1)?;
            let none = Items::new(self.code.alloc);
            return Ok(nodes::switch(self.code.alloc, token, value, none, close)?);
        }
        let label = self.any_label(cursor, level + 1)?;
        self.sections(cursor, level + 1, token, value, label)
    }

    #[tactic(auto, using(crate::proofs::LoopLaws::any_label_law))]
    fn any_label(&self, cursor: &mut Cursor<'_>, level: u32) -> Result<Boxed<Label>, Stop>
        requires nests { Nests self.now.code.weight (F.pre self.now.code.deep) (F.post self.now.code.deep) }
        requires low { level ≤ 201 }
        requires within { self.now.code.weight < weight 0 level }
        ensures tree { Gets (vala_reader part.AnyLabel level (rest cursor.old)) result (rest cursor.new) }
        ensures kept { stop cursor.new ≡ stop cursor.old }
    {
        if cursor.is(Sort::Case) {
            let token = cursor.expect(Sort::Case, level)?;
            let value = self.code.deep_whole(cursor, level)?;
            let close = cursor.expect(Sort::Colon, level)?;
            let label = Label::Case(value.into_inner(), join(token.span, close.span));
            return Ok(Boxed::new(self.code.alloc, label)?);
        }
        let token = cursor.expect(Sort::Default, level)?;
        let close = cursor.expect(Sort::Colon, level)?;
        let label = Label::Default(join(token.span, close.span));
        Ok(Boxed::new(self.code.alloc, label)?)
    }

    #[tactic(auto, using(crate::proofs::LoopLaws::sections_law, crate::proofs::Progress::label_moves, crate::proofs::Progress::statement_moves))]
    fn sections(
        &self,
        cursor: &mut Cursor<'_>,
        level: u32,
        token: Token<'_>,
        value: Boxed<Expr>,
        label: Boxed<Label>,
    ) -> Result<Boxed<Stmt>, Stop>
        requires nests { Nests self.now.code.weight (F.pre self.now.code.deep) (F.post self.now.code.deep) }
        requires low { level ≤ 201 }
        requires within { self.now.code.weight < weight 0 level }
        ensures tree { Gets (vala_reader (part.Sections (seen token.entry) value [] label [] []) level (rest cursor.old)) result (rest cursor.new) }
        ensures kept { stop cursor.new ≡ stop cursor.old }
    {
        let mut parts = Parts {
            done: Items::new(self.code.alloc),
            first: label,
            others: Items::new(self.code.alloc),
            statements: Items::new(self.code.alloc),
        };
        'parts: while !cursor.is(Sort::CloseBrace) {
            if cursor.is_among(&[Sort::Case, Sort::Default]) {
                let next = self.any_label(cursor, level)?;
                parts = parts.labelled(self.code.alloc, next)?;
            } else {
                let next = self.code.deep_any_stmt(cursor, level)?;
                parts.statements.push(next.into_statement().into_inner())?;
            }
        }
        let close = cursor.expect(Sort::CloseBrace, level)?;
        let sections = parts.all(self.code.alloc)?;
        Ok(nodes::switch(self.code.alloc, token, value, sections, close)?)
    }
}
