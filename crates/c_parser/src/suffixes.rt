// What stands behind an operand.

ghost use Rattle.std.specs.Prelude.{◌≡◌, ◌<◌, ◌≤◌, ◌+◌, ◌&&◌, ◌||◌, [], false, true, suc, IfOk, IsSome, None, OnOk, Some};
ghost use Rattle.c_grammar.specs.Parts as part;
ghost use Rattle.c_nodes.specs.Roles.{role_of};
ghost use Rattle.c_nodes.specs.Seen.{seen};
ghost use Rattle.c_parser.specs.Asks.{Nests};
ghost use Rattle.c_cursor.specs.Gives.{reads, room, state};
ghost use Rattle.c_cursor.specs.Reading.{behind};
ghost use Rattle.c_cursor.specs.Scopes.{names_of};
ghost use Rattle.c_cursor.specs.State.{bad};
ghost use Rattle.c_parser.specs.Pieces as piece;
ghost use Rattle.c_parser.specs.Values as values;

use crate::asks::{Ask, Grammar, Reply};
use c_cursor::{NoMemory, Parser, Set};
use c_lexer::Sign;
use c_nodes::{Token, chains, operands};
use c_tree::{Expr, Suffix};
use sqlite_items::{Boxed, Items};

impl<F: Fn(&mut Parser<'_>, u32, Ask) -> Result<Reply, NoMemory>> Grammar<F> {
    /// A value and the suffixes behind it, and whether a place must come of it.
    #[tactic(auto, unfolding(crate::specs::Values::suffixed_of))]
    pub fn suffixed(
        &self,
        parser: &mut Parser<'_>,
        level: u32,
        place: bool,
        value: Boxed<Expr>,
    ) -> Result<Boxed<Expr>, NoMemory>
        requires nests { Nests self.now.least (F.pre self.now.deep) (F.post self.now.deep) }
        requires low { level ≤ 65 }
        requires within { self.now.least ≤ level + 1 }
        ensures tree { IfOk result (λ tree. values.suffixed_of parser.old.end (names_of parser.old.names) place value level (state parser.old) ≡ Some (tree, state parser.new)) }
        ensures names { OnOk result (names_of parser.new.names ≡ names_of parser.old.names) }
        ensures ends { parser.new.end ≡ parser.old.end }
        ensures stop { bad parser.new.cursor ≡ bad parser.old.cursor }
    {
        let dot = operands::is_place(value.get());
        let suffixes = self.suffixes(parser, level, dot, place && !dot)?;
        Ok(chains::suffixed(parser.alloc, value, suffixes)?)
    }

    /// `Suffixes`: whether the first may be `.`, and whether there must be one.
    #[tactic(auto, using(crate::proofs::OperandLaws::suffix_laws))]
    fn suffixes(
        &self,
        parser: &mut Parser<'_>,
        level: u32,
        dot: bool,
        must: bool,
    ) -> Result<Items<Suffix>, NoMemory>
        requires nests { Nests self.now.least (F.pre self.now.deep) (F.post self.now.deep) }
        requires low { level ≤ 65 }
        requires within { self.now.least ≤ level + 1 }
        ensures tree { IfOk result (λ xs. reads (part.Suffixes dot must) level parser.old ≡ Some (xs, state parser.new)) }
        ensures names { OnOk result (names_of parser.new.names ≡ names_of parser.old.names) }
        ensures ends { parser.new.end ≡ parser.old.end }
        ensures stop { bad parser.new.cursor ≡ bad parser.old.cursor }
    {
        let mut suffixes = self.first_suffix(parser, level, dot, must)?;
        let mut dot = dot || must;
        'suffixes: while let Some(suffix) = self.suffix(parser, level, dot)? {
            suffixes.push(suffix)?;
            dot = true;
        }
        Ok(suffixes)
    }

    // The suffix that must stand there, if one must.
    #[tactic(auto, using(crate::proofs::OperandLaws::suffix_laws))]
    fn first_suffix(
        &self,
        parser: &mut Parser<'_>,
        level: u32,
        dot: bool,
        must: bool,
    ) -> Result<Items<Suffix>, NoMemory>
        requires nests { Nests self.now.least (F.pre self.now.deep) (F.post self.now.deep) }
        requires low { level ≤ 65 }
        requires within { self.now.least ≤ level + 1 }
        ensures tree { IfOk result (λ xs. behind xs (reads (part.Suffixes (dot || must) false) level parser.new) ≡ reads (part.Suffixes dot must) level parser.old) }
        ensures names { OnOk result (names_of parser.new.names ≡ names_of parser.old.names) }
        ensures ends { parser.new.end ≡ parser.old.end }
        ensures stop { bad parser.new.cursor ≡ bad parser.old.cursor }
    {
        let mut suffixes = Items::new(parser.alloc);
        if !must {
            return Ok(suffixes);
        }
        suffixes.push(self.needed_suffix(parser, level, dot)?)?;
        Ok(suffixes)
    }

    // A suffix, if there is one.
    #[tactic(auto, unfolding(crate::specs::Values::suffix_of, crate::specs::Values::field_of))]
    fn suffix(
        &self,
        parser: &mut Parser<'_>,
        level: u32,
        dot: bool,
    ) -> Result<Option<Suffix>, NoMemory>
        requires nests { Nests self.now.least (F.pre self.now.deep) (F.post self.now.deep) }
        requires low { level ≤ 65 }
        requires within { self.now.least ≤ level + 1 }
        ensures tree { IfOk result (λ o. values.suffix_of parser.old.end (names_of parser.old.names) dot level (state parser.old) ≡ Some (o, state parser.new)) }
        ensures names { OnOk result (names_of parser.new.names ≡ names_of parser.old.names) }
        ensures ends { parser.new.end ≡ parser.old.end }
        ensures stop { bad parser.new.cursor ≡ bad parser.old.cursor }
        ensures shorter { IfOk result (λ o. IsSome o → room (state parser.new) < room (state parser.old)) }
    {
        if let Some(sign) = parser.accept(Set::Field(dot), level) {
            return Ok(Some(self.field(parser, level, sign)?));
        }
        self.index_option(parser, level)
    }

    // `[`, a value and `]`, if they stand there.
    #[tactic(auto, unfolding(crate::specs::Values::index_option, crate::specs::Values::index_of))]
    fn index_option(&self, parser: &mut Parser<'_>, level: u32) -> Result<Option<Suffix>, NoMemory>
        requires nests { Nests self.now.least (F.pre self.now.deep) (F.post self.now.deep) }
        requires low { level ≤ 65 }
        requires within { self.now.least ≤ level + 1 }
        ensures tree { IfOk result (λ o. values.index_option parser.old.end (names_of parser.old.names) level (state parser.old) ≡ Some (o, state parser.new)) }
        ensures names { OnOk result (names_of parser.new.names ≡ names_of parser.old.names) }
        ensures ends { parser.new.end ≡ parser.old.end }
        ensures stop { bad parser.new.cursor ≡ bad parser.old.cursor }
        ensures shorter { IfOk result (λ o. IsSome o → room (state parser.new) < room (state parser.old)) }
    {
        let Some(opening) = parser.accept(Set::Sign(Sign::OpenBracket), level + 1) else {
            return Ok(None);
        };
        Ok(Some(self.index(parser, level, opening)?))
    }

    // A suffix that must stand there.
    #[tactic(auto, unfolding(crate::specs::Values::needed_of, crate::specs::Values::field_of, crate::specs::Values::index_of))]
    fn needed_suffix(
        &self,
        parser: &mut Parser<'_>,
        level: u32,
        dot: bool,
    ) -> Result<Suffix, NoMemory>
        requires nests { Nests self.now.least (F.pre self.now.deep) (F.post self.now.deep) }
        requires low { level ≤ 65 }
        requires within { self.now.least ≤ level + 1 }
        ensures tree { IfOk result (λ x. values.needed_of parser.old.end (names_of parser.old.names) dot level (state parser.old) ≡ Some (x, state parser.new)) }
        ensures names { OnOk result (names_of parser.new.names ≡ names_of parser.old.names) }
        ensures ends { parser.new.end ≡ parser.old.end }
        ensures stop { bad parser.new.cursor ≡ bad parser.old.cursor }
    {
        if let Some(sign) = parser.accept(Set::Field(dot), level) {
            return self.field(parser, level, sign);
        }
        let opening = parser.expect(Set::Sign(Sign::OpenBracket), level + 1);
        self.index(parser, level, opening)
    }

    // The name behind `.` or `->`.
    #[tactic(auto, unfolding(crate::specs::Values::field_behind))]
    fn field(
        &self,
        parser: &mut Parser<'_>,
        level: u32,
        sign: Token<'_>,
    ) -> Result<Suffix, NoMemory>
        ensures tree { IfOk result (λ x. values.field_behind parser.old.end (names_of parser.old.names) (seen sign.entry) level (state parser.old) ≡ Some (x, state parser.new)) }
        ensures names { OnOk result (names_of parser.new.names ≡ names_of parser.old.names) }
        ensures ends { parser.new.end ≡ parser.old.end }
        ensures stop { bad parser.new.cursor ≡ bad parser.old.cursor }
        ensures fewer { OnOk result (room (state parser.new) ≤ room (state parser.old)) }
    {
        let name = parser.expect(Set::Name, level);
        Ok(operands::field(parser.alloc, sign, name)?)
    }

    // A value and `]`.
    #[tactic(auto, using(crate::proofs::Progress::stays), unfolding(crate::specs::Values::index_behind))]
    fn index(
        &self,
        parser: &mut Parser<'_>,
        level: u32,
        opening: Token<'_>,
    ) -> Result<Suffix, NoMemory>
        requires nests { Nests self.now.least (F.pre self.now.deep) (F.post self.now.deep) }
        requires low { level ≤ 65 }
        requires within { self.now.least ≤ level + 1 }
        requires open { parser.old.is_stopped ≡ false → level + 1 < 65 }
        ensures tree { IfOk result (λ x. values.index_behind parser.old.end (names_of parser.old.names) (seen opening.entry) level (state parser.old) ≡ Some (x, state parser.new)) }
        ensures names { OnOk result (names_of parser.new.names ≡ names_of parser.old.names) }
        ensures ends { parser.new.end ≡ parser.old.end }
        ensures stop { bad parser.new.cursor ≡ bad parser.old.cursor }
        ensures fewer { OnOk result (room (state parser.new) ≤ room (state parser.old)) }
    {
        let value = self.deep_value(parser, level, false)?;
        let close = parser.expect(Set::Sign(Sign::CloseBracket), level);
        Ok(operands::index(opening, value, close))
    }
}
