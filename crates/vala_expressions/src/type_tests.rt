// The type behind `is` and `as`.

ghost use Rattle.std.specs.Prelude.{◌≡◌, ◌<◌, ◌≤◌, false};
ghost use Rattle.vala_grammar.specs.Grammar.{tested_array, tested_name};
ghost use Rattle.vala_grammar.specs.Parts as part;
ghost use Rattle.vala_grammar.specs.Read.{vala_reader};
ghost use Rattle.vala_grammar.specs.Tests.{is};
ghost use Rattle.vala_grammar.specs.declared.parts.TypeName.TheVariants as type_name;
ghost use Rattle.vala_grammar.specs.declared.sort.Sort.TheVariants as s;
ghost use Rattle.vala_cursor.specs.Ahead.{reads, rest, stop};
ghost use Rattle.vala_expressions.specs.Asks.{Nests, weight};
ghost use Rattle.vala_expressions.specs.Chains.{starless};
ghost use Rattle.vala_cursor.specs.Gets.{Gets, next, seen_option};

use crate::asks::{Ask, Grammar, Reply};
use crate::{names, tiers};
use sqlite_items::Boxed;
use std::alloc::Global;
use vala_cursor::{Cursor, Flaw, Stop};
use vala_grammar::{Last, Signs, Sort, Tested, TypeName};
use vala_lexer::Token;
use vala_nodes::names as types;
use vala_tree::{Expr, NameTree, TypeTree};
use vg_base::Span;

impl<F: Fn(Global, &mut Cursor<'_>, u32, Ask) -> Result<Reply, Stop>> Grammar<F> {
    /// An expression that begins with no `/`.
    #[tactic(auto, using(crate::proofs::ChainLaws::whole_law, vala_cursor::proofs::Steps::just))]
    pub fn deep_value(&self, cursor: &mut Cursor<'_>, level: u32) -> Result<Boxed<Expr>, Stop>
        requires nests { Nests self.now.weight (F.pre self.now.deep) (F.post self.now.deep) }
        requires low { level ≤ 201 }
        requires within { self.now.weight < weight 0 level }
        requires no_slash { next (is s.Slash) (rest cursor.old) ≡ false }
        ensures tree { Gets (vala_reader part.Value level (rest cursor.old)) result (rest cursor.new) }
        ensures kept { stop cursor.new ≡ stop cursor.old }
    {
        self.deep_whole(cursor, level)
    }

    /// The type behind `is` or `as`.
    #[tactic(auto, using(crate::proofs::ChainLaws::tested_type_law, vala_cursor::proofs::Steps::just))]
    pub fn tested_type(
        &self,
        cursor: &mut Cursor<'_>,
        level: u32,
        depth: u32,
    ) -> Result<Tested, Stop>
        requires nests { Nests self.now.weight (F.pre self.now.deep) (F.post self.now.deep) }
        requires over { depth ≤ level }
        requires low { level ≤ 201 }
        requires within { self.now.weight ≤ weight depth level }
        ensures tree { Gets (vala_reader (part.TestedType depth) level (rest cursor.old)) result (rest cursor.new) }
        ensures kept { stop cursor.new ≡ stop cursor.old }
    {
        if cursor.is_among(&[Sort::Owned, Sort::Unowned]) {
            let word = cursor.take_among(&[Sort::Owned, Sort::Unowned], level)?;
            return self.tested_body(cursor, level, depth, Some(word));
        }
        self.tested_body(cursor, level, depth, None)
    }

    #[tactic(auto, using(crate::proofs::ChainLaws::tested_laws))]
    fn tested_body(
        &self,
        cursor: &mut Cursor<'_>,
        level: u32,
        depth: u32,
        word: Option<Token<'_>>,
    ) -> Result<Tested, Stop>
        requires nests { Nests self.now.weight (F.pre self.now.deep) (F.post self.now.deep) }
        requires over { depth ≤ level }
        requires low { level ≤ 201 }
        requires within { self.now.weight ≤ weight depth level }
        ensures tree { Gets (vala_reader (part.TestedBody depth (seen_option word.entry)) level (rest cursor.old)) result (rest cursor.new) }
        ensures kept { stop cursor.new ≡ stop cursor.old }
    {
        if cursor.is(Sort::Void) {
            let token = cursor.expect(Sort::Void, level)?;
            return type_alone(cursor, Last::Plain, types::void_type(word, token));
        }
        let name = names::name_in_type(self.alloc, cursor, level)?;
        match name {
            TypeName::Single(name) => self.single_tested(cursor, level, depth, word, name),
            TypeName::Array(name, close) => {
                self.array_tested(cursor, level, depth, word, name, None, close)
            }
        }
    }

    #[tactic(auto, using(crate::proofs::ChainLaws::tested_single_law))]
    fn single_tested(
        &self,
        cursor: &mut Cursor<'_>,
        level: u32,
        depth: u32,
        word: Option<Token<'_>>,
        name: NameTree,
    ) -> Result<Tested, Stop>
        requires nests { Nests self.now.weight (F.pre self.now.deep) (F.post self.now.deep) }
        requires over { depth ≤ level }
        requires low { level ≤ 201 }
        requires within { self.now.weight ≤ weight depth level }
        ensures tree { Gets (reads (tested_name depth (seen_option word.entry) (type_name.Single name)) level (rest cursor.old)) result (rest cursor.new) }
        ensures kept { stop cursor.new ≡ stop cursor.old }
    {
        if !cursor.is(Sort::Question) {
            return type_alone(cursor, Last::Unmarked, types::single_type(word, name, None));
        }
        let mark = cursor.expect(Sort::Question, level - depth)?.span;
        if tiers::operand_next(cursor, Signs::All) {
            let asked = self.deep_value(cursor, level - depth + 1)?;
            let tree = types::single_type(word, name, None);
            return Ok(Tested {
                tree,
                last: Last::Asked(asked),
            });
        }
        if cursor.is(Sort::OpenBracket) {
            cursor.expect(Sort::OpenBracket, level)?;
            if cursor.is(Sort::Comma) {
                return Err(Stop::Flawed(Flaw::LeftOut));
            }
            let close = cursor.expect(Sort::CloseBracket, level + 1)?.span;
            return self.array_tested(cursor, level, depth, word, name, Some(mark), close);
        }
        if cursor.is(Sort::Slash) {
            return Err(Stop::Flawed(Flaw::LeftOut));
        }
        type_alone(
            cursor,
            Last::Plain,
            types::single_type(word, name, Some(mark)),
        )
    }

    #[tactic(auto, using(crate::proofs::ChainLaws::tested_array_law))]
    fn array_tested(
        &self,
        cursor: &mut Cursor<'_>,
        level: u32,
        depth: u32,
        word: Option<Token<'_>>,
        name: NameTree,
        mark: Option<Span>,
        close: Span,
    ) -> Result<Tested, Stop>
        requires nests { Nests self.now.weight (F.pre self.now.deep) (F.post self.now.deep) }
        requires over { depth ≤ level }
        requires low { level ≤ 201 }
        requires within { self.now.weight ≤ weight depth level }
        ensures tree { Gets (reads (tested_array depth (seen_option word.entry) name mark close) level (rest cursor.old)) result (rest cursor.new) }
        ensures kept { stop cursor.new ≡ stop cursor.old }
    {
        if !cursor.is(Sort::Question) {
            return type_alone(
                cursor,
                Last::Unmarked,
                types::array_type(word, name, mark, close, None),
            );
        }
        let behind = cursor.expect(Sort::Question, level - depth)?.span;
        if tiers::operand_next(cursor, Signs::All) {
            let asked = self.deep_value(cursor, level - depth + 1)?;
            let tree = types::array_type(word, name, mark, close, None);
            return Ok(Tested {
                tree,
                last: Last::Asked(asked),
            });
        }
        if cursor.is(Sort::Slash) {
            return Err(Stop::Flawed(Flaw::LeftOut));
        }
        type_alone(
            cursor,
            Last::Plain,
            types::array_type(word, name, mark, close, Some(behind)),
        )
    }
}

/// The type that is tested for, with no `*` behind it.
fn type_alone(cursor: &mut Cursor<'_>, last: Last, tree: TypeTree) -> Result<Tested, Stop>
    ensures tree { Gets (starless last tree (rest cursor.old)) result (rest cursor.new) }
    ensures kept { stop cursor.new ≡ stop cursor.old }
{
    if cursor.is(Sort::Star) {
        return Err(Stop::Flawed(Flaw::LeftOut));
    }
    Ok(Tested { tree, last })
}
