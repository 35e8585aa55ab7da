// Arguments and initialisers.

ghost use Rattle.std.specs.Prelude.{◌≡◌, ◌≤◌};
ghost use Rattle.vala_grammar.specs.Parts as part;
ghost use Rattle.vala_grammar.specs.Read.{vala_reader};
ghost use Rattle.vala_cursor.specs.Ahead.{rest, stop};
ghost use Rattle.vala_cursor.specs.Gets.{Gets, seen};
ghost use Rattle.vala_expressions.specs.Asks.{Nests, weight};
ghost use Rattle.vala_expressions.specs.Chains.{argument_behind};

use crate::asks::{Ask, Grammar, Reply};
use sqlite_items::Boxed;
use std::alloc::Global;
use vala_cursor::{Cursor, Flaw, Stop};
use vala_grammar::Sort;
use vala_lexer::Token;
use vala_nodes::operands as nodes;
use vala_tree::{Argument, Expr};

impl<F: Fn(Global, &mut Cursor<'_>, u32, Ask) -> Result<Reply, Stop>> Grammar<F> {
    /// One argument.
    #[tactic(auto, using(crate::proofs::OperandLaws::arg_law))]
    pub fn arg(&self, cursor: &mut Cursor<'_>, level: u32) -> Result<Boxed<Argument>, Stop>
        requires nests { Nests self.now.weight (F.pre self.now.deep) (F.post self.now.deep) }
        requires low { level ≤ 201 }
        requires within { self.now.weight ≤ weight 0 level }
        ensures tree { Gets (vala_reader part.Arg level (rest cursor.old)) result (rest cursor.new) }
        ensures kept { stop cursor.new ≡ stop cursor.old }
    {
        if cursor.is_among(&[Sort::Out, Sort::Ref]) {
            let token = cursor.take_among(&[Sort::Out, Sort::Ref], level)?;
            let value = self.whole(cursor, level)?;
            return Ok(nodes::marked_argument(self.alloc, token, value)?);
        }
        if cursor.is(Sort::Identifier) {
            let word = cursor.expect(Sort::Identifier, level)?;
            return self.argument_behind(cursor, level, word);
        }
        if cursor.is(Sort::Slash) {
            return Err(Stop::Flawed(Flaw::LeftOut));
        }
        let value = self.nameless(cursor, level)?;
        Ok(nodes::argument(self.alloc, value)?)
    }

    /// The rest of an argument that begins with a word.
    fn argument_behind(
        &self,
        cursor: &mut Cursor<'_>,
        level: u32,
        word: Token<'_>,
    ) -> Result<Boxed<Argument>, Stop>
        requires nests { Nests self.now.weight (F.pre self.now.deep) (F.post self.now.deep) }
        requires low { level ≤ 201 }
        requires within { self.now.weight ≤ weight 0 level }
        ensures tree { Gets (argument_behind (seen word.entry) level (rest cursor.old)) result (rest cursor.new) }
        ensures kept { stop cursor.new ≡ stop cursor.old }
    {
        if !cursor.is(Sort::Colon) {
            let value = self.after_word(cursor, level, word)?;
            return Ok(nodes::argument(self.alloc, value)?);
        }
        cursor.expect(Sort::Colon, level)?;
        let value = self.whole(cursor, level)?;
        Ok(nodes::named_argument(self.alloc, word, value)?)
    }

    /// An initialiser.
    #[tactic(auto, using(crate::proofs::OperandLaws::init_law, vala_cursor::proofs::Steps::just))]
    pub fn init(&self, cursor: &mut Cursor<'_>, level: u32) -> Result<Boxed<Expr>, Stop>
        requires nests { Nests self.now.weight (F.pre self.now.deep) (F.post self.now.deep) }
        requires low { level ≤ 201 }
        requires within { self.now.weight ≤ weight 0 level }
        ensures tree { Gets (vala_reader part.Init level (rest cursor.old)) result (rest cursor.new) }
        ensures kept { stop cursor.new ≡ stop cursor.old }
    {
        if cursor.is(Sort::OpenBrace) {
            let token = cursor.expect(Sort::OpenBrace, level)?;
            let items = self.items(cursor, level + 1)?;
            return Ok(nodes::list_in_braces(self.alloc, token, items)?);
        }
        self.whole(cursor, level)
    }
}
