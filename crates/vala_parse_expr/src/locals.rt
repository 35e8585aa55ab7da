// Declarations of locals, and what may be one.

ghost use Rattle.std.specs.Prelude.{◌≡◌, ◌<◌, ◌≤◌, List, [], ◌∷◌, Option, Some, None};
ghost use Rattle.vala_grammar.specs.Parts as part;
ghost use Rattle.vala_grammar.specs.Read.{vala_reader};
ghost use Rattle.vala_cursor.specs.Ahead.{rest, reads, stop};
ghost use Rattle.vala_expressions.specs.Asks.{Nests, weight};
ghost use Rattle.vala_cursor.specs.Gets.{Gets, seen};
ghost use Rattle.vala_grammar.specs.Grammar.{begins, written};
ghost use Rattle.vala_grammar.specs.declared.parts.Opening.TheVariants as opening;
ghost use Rattle.vala_parse_expr.specs.Statements.{plain_form};

use crate::statements::Statements;
use sqlite_items::Items;
use std::alloc::Global;
use vala_cursor::{Cursor, Flaw, Stop};
use vala_expressions::{Ask, Reply, names};
use vala_grammar::{Beginning, Context, Opening, Sort};
use vala_nodes::names::{single_type, void_type};
use vala_nodes::{brackets, lists, statements as nodes};
use vala_tree::{Declarator, DeclaredType, NameTree, TypeTree};
use vg_base::Span;

impl<F: Fn(Global, &mut Cursor<'_>, u32, Ask) -> Result<Reply, Stop>> Statements<F> {
    /// A declaration, or an expression that begins with no `yield`.
    #[tactic(auto, using(crate::proofs::LocalLaws::begin_law, vala_cursor::proofs::Steps::just))]
    pub fn begin(&self, cursor: &mut Cursor<'_>, level: u32) -> Result<Beginning, Stop>
        requires nests { Nests self.now.code.weight (F.pre self.now.code.deep) (F.post self.now.code.deep) }
        requires within { self.now.code.weight ≤ weight 0 level }
        requires low { level ≤ 201 }
        ensures tree { Gets (vala_reader part.Begin level (rest cursor.old)) result (rest cursor.new) }
        ensures kept { stop cursor.new ≡ stop cursor.old }
    {
        if cursor.is(Sort::Var) {
            let token = cursor.expect(Sort::Var, level)?;
            return self.locals(cursor, level, DeclaredType::Var, token.span);
        }
        if cursor.is_among(&[Sort::Owned, Sort::Unowned]) {
            let word = cursor.take_among(&[Sort::Owned, Sort::Unowned], level)?;
            let declared = names::type_body(self.code.alloc, cursor, level, Some(word))?;
            return self.written(cursor, level, declared);
        }
        if cursor.is(Sort::Void) {
            let token = cursor.expect(Sort::Void, level)?;
            return self.written(cursor, level, void_type(None, token));
        }
        self.begin_plain(cursor, level)
    }

    /// What begins with a name, or an expression that no name begins.
    #[tactic(auto, using(crate::proofs::LocalLaws::plain_law, vala_cursor::proofs::Steps::just))]
    fn begin_plain(&self, cursor: &mut Cursor<'_>, level: u32) -> Result<Beginning, Stop>
        requires nests { Nests self.now.code.weight (F.pre self.now.code.deep) (F.post self.now.code.deep) }
        requires within { self.now.code.weight ≤ weight 0 level }
        requires low { level ≤ 201 }
        ensures tree { Gets (reads plain_form level (rest cursor.old)) result (rest cursor.new) }
        ensures kept { stop cursor.new ≡ stop cursor.old }
    {
        if cursor.is(Sort::Identifier) {
            let opening = self.code.opening_name(cursor, level, Context::Statement)?;
            return self.begins(cursor, level, opening);
        }
        if cursor.is(Sort::Slash) {
            return Err(Stop::Flawed(Flaw::LeftOut));
        }
        Ok(Beginning::Expression(self.code.immediate(cursor, level)?))
    }

    #[tactic(auto, using(crate::proofs::LocalLaws::begins_value, vala_cursor::proofs::Steps::just))]
    fn begins(
        &self,
        cursor: &mut Cursor<'_>,
        level: u32,
        opening: Opening,
    ) -> Result<Beginning, Stop>
        requires nests { Nests self.now.code.weight (F.pre self.now.code.deep) (F.post self.now.code.deep) }
        requires within { self.now.code.weight ≤ weight 0 level }
        requires low { level ≤ 201 }
        ensures tree { Gets (reads (begins opening) level (rest cursor.old)) result (rest cursor.new) }
        ensures kept { stop cursor.new ≡ stop cursor.old }
    {
        match opening {
            Opening::Type(declared) => self.written(cursor, level, declared),
            Opening::Names(name) => self.begins_names(cursor, level, name),
            Opening::Value(value) => Ok(Beginning::Expression(value)),
        }
    }

    /// Names that another follows are a type.
    #[tactic(auto, using(crate::proofs::LocalLaws::begins_names, vala_cursor::proofs::Steps::just))]
    fn begins_names(
        &self,
        cursor: &mut Cursor<'_>,
        level: u32,
        name: NameTree,
    ) -> Result<Beginning, Stop>
        requires nests { Nests self.now.code.weight (F.pre self.now.code.deep) (F.post self.now.code.deep) }
        requires within { self.now.code.weight ≤ weight 0 level }
        requires low { level ≤ 201 }
        ensures tree { Gets (reads (begins (opening.Names name)) level (rest cursor.old)) result (rest cursor.new) }
        ensures kept { stop cursor.new ≡ stop cursor.old }
    {
        if cursor.is(Sort::Identifier) {
            let span = name.span;
            let declared = DeclaredType::Written(single_type(None, name, None));
            return self.locals(cursor, level, declared, span);
        }
        Ok(Beginning::Expression(brackets::names(self.code.alloc, name)?))
    }

    /// What is declared of a written type.
    #[tactic(auto, using(crate::proofs::LocalLaws::written_law, vala_cursor::proofs::Steps::just))]
    fn written(
        &self,
        cursor: &mut Cursor<'_>,
        level: u32,
        declared: TypeTree,
    ) -> Result<Beginning, Stop>
        requires nests { Nests self.now.code.weight (F.pre self.now.code.deep) (F.post self.now.code.deep) }
        requires within { self.now.code.weight ≤ weight 0 level }
        requires low { level ≤ 201 }
        ensures tree { Gets (reads (written declared) level (rest cursor.old)) result (rest cursor.new) }
        ensures kept { stop cursor.new ≡ stop cursor.old }
    {
        if cursor.is_among(&[Sort::Star, Sort::Less]) {
            return Err(Stop::Flawed(Flaw::LeftOut));
        }
        let span = declared.span;
        self.locals(cursor, level, DeclaredType::Written(declared), span)
    }

    #[tactic(auto, using(crate::proofs::LocalLaws::locals_law, vala_cursor::proofs::Steps::just))]
    fn locals(
        &self,
        cursor: &mut Cursor<'_>,
        level: u32,
        declared: DeclaredType,
        span: Span,
    ) -> Result<Beginning, Stop>
        requires nests { Nests self.now.code.weight (F.pre self.now.code.deep) (F.post self.now.code.deep) }
        requires within { self.now.code.weight ≤ weight 0 level }
        requires low { level ≤ 201 }
        ensures tree { Gets (vala_reader (part.Locals (declared, span)) level (rest cursor.old)) result (rest cursor.new) }
        ensures kept { stop cursor.new ≡ stop cursor.old }
    {
        let mut list = Items::new(self.code.alloc);
        list.push(self.one_local(cursor, level)?)?;
        self.more_locals(cursor, level, declared, span, list)
    }

    #[tactic(auto, using(crate::proofs::MoreLocals::more_locals_laws, vala_cursor::proofs::Steps::just))]
    fn more_locals(
        &self,
        cursor: &mut Cursor<'_>,
        level: u32,
        declared: DeclaredType,
        span: Span,
        first: Items<Declarator>,
    ) -> Result<Beginning, Stop>
        requires nests { Nests self.now.code.weight (F.pre self.now.code.deep) (F.post self.now.code.deep) }
        requires within { self.now.code.weight ≤ weight 0 level }
        requires low { level ≤ 201 }
        ensures tree { Gets (vala_reader (part.MoreLocals (declared, span) first) level (rest cursor.old)) result (rest cursor.new) }
        ensures kept { stop cursor.new ≡ stop cursor.old }
    {
        let mut list = first;
        'items: while cursor.is(Sort::Comma) {
            cursor.expect(Sort::Comma, level)?;
            list.push(self.one_local(cursor, level)?)?;
        }
        Ok(lists::declared_locals(self.code.alloc, declared, span, list)?)
    }

    #[tactic(auto, using(crate::proofs::LocalLaws::one_local_law, vala_cursor::proofs::Steps::just))]
    fn one_local(&self, cursor: &mut Cursor<'_>, level: u32) -> Result<Declarator, Stop>
        requires nests { Nests self.now.code.weight (F.pre self.now.code.deep) (F.post self.now.code.deep) }
        requires within { self.now.code.weight ≤ weight 0 level }
        requires low { level ≤ 201 }
        ensures tree { Gets (vala_reader part.OneLocal level (rest cursor.old)) result (rest cursor.new) }
        ensures kept { stop cursor.new ≡ stop cursor.old }
    {
        let token = cursor.expect(Sort::Identifier, level)?;
        if cursor.is(Sort::Assign) {
            cursor.expect(Sort::Assign, level)?;
            let value = self.code.init(cursor, level)?;
            return Ok(nodes::declarator_with(self.code.alloc, token, value)?);
        }
        Ok(nodes::declarator(self.code.alloc, token)?)
    }
}
