// The parameters and the body of a lambda.

ghost use Rattle.std.specs.Prelude.{◌≡◌, ◌<◌, ◌≤◌};
ghost use Rattle.vala_grammar.specs.Parts as part;
ghost use Rattle.vala_grammar.specs.Read.{vala_reader};
ghost use Rattle.vala_cursor.specs.Ahead.{rest, stop};
ghost use Rattle.vala_expressions.specs.Asks.{Nests, weight};
ghost use Rattle.vala_expressions.specs.Brackets.{one_more_parameter};
ghost use Rattle.vala_cursor.specs.Gets.{Gets};

use crate::asks::{Ask, Grammar, Reply};
use sqlite_items::{Boxed, Items};
use std::alloc::Global;
use vala_cursor::{Cursor, Stop};
use vala_grammar::Sort;
use vala_nodes::{brackets as bracket, names as types};
use vala_tree::{Expr, Identifier};
use vg_base::Span;

impl<F: Fn(Global, &mut Cursor<'_>, u32, Ask) -> Result<Reply, Stop>> Grammar<F> {
    /// The parameters of a lambda behind the first.
    #[tactic(auto, using(crate::proofs::BracketLaws::lambda_more_law, crate::proofs::Progress::list_moves, vala_cursor::proofs::Steps::just))]
    pub fn lambda_more(
        &self,
        cursor: &mut Cursor<'_>,
        level: u32,
        first: Items<Identifier>,
    ) -> Result<Items<Identifier>, Stop>
        ensures tree { Gets (vala_reader (part.LambdaMore first) level (rest cursor.old)) result (rest cursor.new) }
        ensures kept { stop cursor.new ≡ stop cursor.old }
    {
        let mut parameters = self.parameter(cursor, level, first)?;
        'parameters: while cursor.is(Sort::Comma) {
            cursor.expect(Sort::Comma, level)?;
            parameters = self.parameter(cursor, level, parameters)?;
        }
        cursor.expect(Sort::CloseParen, level)?;
        Ok(parameters)
    }

    fn parameter(
        &self,
        cursor: &mut Cursor<'_>,
        level: u32,
        others: Items<Identifier>,
    ) -> Result<Items<Identifier>, Stop>
        ensures tree { Gets (one_more_parameter others level (rest cursor.old)) result (rest cursor.new) }
        ensures kept { stop cursor.new ≡ stop cursor.old }
    {
        let word = cursor.expect(Sort::Identifier, level)?;
        let mut parameters = others;
        parameters.push(types::identifier(self.alloc, word)?)?;
        Ok(parameters)
    }

    /// The body of a lambda.
    #[tactic(auto, using(crate::proofs::BracketLaws::lambda_end_law))]
    pub fn lambda_end(
        &self,
        cursor: &mut Cursor<'_>,
        level: u32,
        first: Span,
        parameters: Items<Identifier>,
    ) -> Result<Boxed<Expr>, Stop>
        requires nests { Nests self.now.weight (F.pre self.now.deep) (F.post self.now.deep) }
        requires low { level ≤ 201 }
        requires within { self.now.weight < weight 0 level }
        ensures tree { Gets (vala_reader (part.LambdaEnd first parameters) level (rest cursor.old)) result (rest cursor.new) }
        ensures kept { stop cursor.new ≡ stop cursor.old }
    {
        if cursor.is(Sort::OpenBrace) {
            let body = self.deep_block(cursor, level)?;
            return Ok(bracket::lambda_code(self.alloc, first, parameters, body)?);
        }
        let value = self.deep_whole(cursor, level)?;
        Ok(bracket::lambda_value(self.alloc, first, parameters, value)?)
    }
}
