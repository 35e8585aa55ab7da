// The lists of arguments and of items of initialisers.

ghost use Rattle.std.specs.Prelude.{◌≡◌, ◌<◌, ◌≤◌, List, [], ◌∷◌};
ghost use Rattle.vala_grammar.specs.Parts as part;
ghost use Rattle.vala_grammar.specs.Read.{vala_reader};
ghost use Rattle.vala_cursor.specs.Ahead.{rest, stop};
ghost use Rattle.vala_cursor.specs.Gets.{Gets};
ghost use Rattle.vala_expressions.specs.Asks.{Nests, weight};

use crate::asks::{Ask, Grammar, Reply};
use sqlite_items::Items;
use std::alloc::Global;
use vala_cursor::{Cursor, Stop};
use vala_grammar::{Arguments, Listed, Sort};
use vala_tree::{Argument, Expr};

impl<F: Fn(Global, &mut Cursor<'_>, u32, Ask) -> Result<Reply, Stop>> Grammar<F> {
    /// What follows `(` of a call.
    #[tactic(auto, using(crate::proofs::OperandLaws::args_law, vala_cursor::proofs::Steps::just))]
    pub fn args(&self, cursor: &mut Cursor<'_>, level: u32) -> Result<Arguments, Stop>
        requires nests { Nests self.now.weight (F.pre self.now.deep) (F.post self.now.deep) }
        requires low { level ≤ 201 }
        requires within { self.now.weight < weight 0 level }
        ensures tree { Gets (vala_reader part.Args level (rest cursor.old)) result (rest cursor.new) }
        ensures kept { stop cursor.new ≡ stop cursor.old }
    {
        let mut list = Items::new(self.alloc);
        if cursor.is(Sort::CloseParen) {
            let close = cursor.expect(Sort::CloseParen, level)?.span;
            return Ok(Arguments { list, close });
        }
        list.push(self.deep_arg(cursor, level)?.into_inner())?;
        self.more_args(cursor, level, list)
    }

    #[tactic(auto, using(crate::proofs::OperandLaws::more_args_law, vala_cursor::proofs::Steps::just))]
    fn more_args(
        &self,
        cursor: &mut Cursor<'_>,
        level: u32,
        first: Items<Argument>,
    ) -> Result<Arguments, Stop>
        requires nests { Nests self.now.weight (F.pre self.now.deep) (F.post self.now.deep) }
        requires low { level ≤ 201 }
        requires within { self.now.weight < weight 0 level }
        ensures tree { Gets (vala_reader (part.MoreArgs first) level (rest cursor.old)) result (rest cursor.new) }
        ensures kept { stop cursor.new ≡ stop cursor.old }
    {
        let mut list = first;
        'items: while cursor.is(Sort::Comma) {
            cursor.expect_item(Sort::Comma, list.len(), level)?;
            list.push(self.deep_arg(cursor, level)?.into_inner())?;
        }
        let close = cursor.expect(Sort::CloseParen, level)?.span;
        Ok(Arguments { list, close })
    }

    /// What follows `{` of an initialiser.
    #[tactic(auto, using(crate::proofs::OperandLaws::items_law, vala_cursor::proofs::Steps::just))]
    pub fn items(&self, cursor: &mut Cursor<'_>, level: u32) -> Result<Listed, Stop>
        requires nests { Nests self.now.weight (F.pre self.now.deep) (F.post self.now.deep) }
        requires low { level ≤ 201 }
        requires within { self.now.weight < weight 0 level }
        ensures tree { Gets (vala_reader part.Items level (rest cursor.old)) result (rest cursor.new) }
        ensures kept { stop cursor.new ≡ stop cursor.old }
    {
        let mut list = Items::new(self.alloc);
        if cursor.is(Sort::CloseBrace) {
            let close = cursor.expect(Sort::CloseBrace, level)?.span;
            return Ok(Listed { list, close });
        }
        list.push(self.deep_whole(cursor, level)?.into_inner())?;
        self.more_items(cursor, level, list)
    }

    #[tactic(auto, using(crate::proofs::OperandLaws::more_items_law, crate::proofs::Progress::list_moves, vala_cursor::proofs::Steps::just))]
    fn more_items(
        &self,
        cursor: &mut Cursor<'_>,
        level: u32,
        first: Items<Expr>,
    ) -> Result<Listed, Stop>
        requires nests { Nests self.now.weight (F.pre self.now.deep) (F.post self.now.deep) }
        requires low { level ≤ 201 }
        requires within { self.now.weight < weight 0 level }
        ensures tree { Gets (vala_reader (part.MoreItems first) level (rest cursor.old)) result (rest cursor.new) }
        ensures kept { stop cursor.new ≡ stop cursor.old }
    {
        let mut list = first;
        'items: while cursor.is(Sort::Comma) {
            cursor.expect(Sort::Comma, level)?;
            list.push(self.deep_whole(cursor, level)?.into_inner())?;
        }
        let close = cursor.expect(Sort::CloseBrace, level)?.span;
        Ok(Listed { list, close })
    }
}
