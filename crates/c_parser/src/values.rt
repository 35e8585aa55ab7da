// Values: chains of operators, and choices.

ghost use Rattle.std.specs.Prelude.{◌≡◌, ◌<◌, ◌≤◌, ◌+◌, ◌&&◌, ◌||◌, [], false, true, suc, IfOk, IfSome, IsSome, None, OnOk, Some};
ghost use Rattle.c_grammar.specs.Parts as part;
ghost use Rattle.c_nodes.specs.Roles.{role_of};
ghost use Rattle.c_nodes.specs.Seen.{seen};
ghost use Rattle.c_parser.specs.Asks.{Nests};
ghost use Rattle.c_cursor.specs.Gives.{reads, room, state};
ghost use Rattle.c_cursor.specs.Reading.{behind};
ghost use Rattle.c_cursor.specs.Scopes.{names_of};
ghost use Rattle.c_cursor.specs.State.{bad};
ghost use Rattle.c_parser.specs.Pieces as piece;
ghost use Rattle.c_parser.specs.Values as values;
ghost use Rattle.c_tree.specs.Values as values_of_trees;
ghost use Rattle.c_grammar.specs.Tests.{level_number};

use crate::asks::{Ask, Grammar, Reply};
use c_cursor::{NoMemory, Parser, Set};
use c_lexer::Sign;
use c_nodes::chains;
use c_nodes::operators::operator_in;
use c_tree::{Choice, Expr, Level, Link};
use sqlite_items::{Boxed, Items};

/// The next level that binds more tightly.
fn tighter(level: Level) -> Option<Level>
    ensures next { result ≡ values_of_trees.tighter level }
    ensures falls { IfSome result (λ inner. level_number inner < level_number level) }
{
    match level {
        Level::Or => Some(Level::And),
        Level::And => Some(Level::BitOr),
        Level::BitOr => Some(Level::BitXor),
        Level::BitXor => Some(Level::BitAnd),
        Level::BitAnd => Some(Level::Equality),
        Level::Equality => Some(Level::Relation),
        Level::Relation => Some(Level::Shift),
        Level::Shift => Some(Level::Sum),
        Level::Sum => Some(Level::Product),
        Level::Product => None,
    }
}

impl<F: Fn(&mut Parser<'_>, u32, Ask) -> Result<Reply, NoMemory>> Grammar<F> {
    /// `Value`: a value, as a constant or not.
    #[tactic(auto, using(crate::proofs::ChainLaws::value_law))]
    pub fn value(
        &self,
        parser: &mut Parser<'_>,
        level: u32,
        constant: bool,
    ) -> Result<Boxed<Expr>, NoMemory>
        requires nests { Nests self.now.least (F.pre self.now.deep) (F.post self.now.deep) }
        requires low { level ≤ 65 }
        requires within { self.now.least ≤ level + 1 }
        ensures tree { IfOk result (λ tree. reads (part.Value constant) level parser.old ≡ Some (tree, state parser.new)) }
        ensures names { OnOk result (names_of parser.new.names ≡ names_of parser.old.names) }
        ensures ends { parser.new.end ≡ parser.old.end }
        ensures stop { bad parser.new.cursor ≡ bad parser.old.cursor }
    {
        let first = self.prefixed(parser, level, constant)?;
        self.value_behind(parser, level, constant, first)
    }

    /// `ChoosingTail`, and the value that it makes: what follows the first operand of a value.
    #[tactic(auto, using(crate::proofs::ChainLaws::choice_laws))]
    pub fn value_behind(
        &self,
        parser: &mut Parser<'_>,
        level: u32,
        constant: bool,
        first: Boxed<Expr>,
    ) -> Result<Boxed<Expr>, NoMemory>
        requires nests { Nests self.now.least (F.pre self.now.deep) (F.post self.now.deep) }
        requires low { level ≤ 65 }
        requires within { self.now.least ≤ level + 1 }
        ensures tree { IfOk result (λ tree. values.choosing_of parser.old.end (names_of parser.old.names) constant first level (state parser.old) ≡ Some (tree, state parser.new)) }
        ensures names { OnOk result (names_of parser.new.names ≡ names_of parser.old.names) }
        ensures ends { parser.new.end ≡ parser.old.end }
        ensures stop { bad parser.new.cursor ≡ bad parser.old.cursor }
    {
        let mut choices = Items::new(parser.alloc);
        let mut test = self.upto(parser, level, Level::Or, constant, first)?;
        'choices: while let Some(_) = parser.accept(Set::Sign(Sign::Question), level + 1) {
            choices.push(self.choice(parser, level, constant, test)?)?;
            test = self.chain(parser, level, constant)?;
        }
        Ok(chains::conditional(parser.alloc, choices, test)?)
    }

    // A value and `:`, behind a condition and `?`.
    #[tactic(auto, using(crate::proofs::Progress::stays), unfolding(crate::specs::Values::choice_of))]
    fn choice(
        &self,
        parser: &mut Parser<'_>,
        level: u32,
        constant: bool,
        test: Boxed<Expr>,
    ) -> Result<Choice, NoMemory>
        requires nests { Nests self.now.least (F.pre self.now.deep) (F.post self.now.deep) }
        requires low { level ≤ 65 }
        requires within { self.now.least ≤ level + 1 }
        requires open { parser.old.is_stopped ≡ false → level + 1 < 65 }
        ensures tree { IfOk result (λ k. values.choice_of parser.old.end (names_of parser.old.names) constant test level (state parser.old) ≡ Some (k, state parser.new)) }
        ensures names { OnOk result (names_of parser.new.names ≡ names_of parser.old.names) }
        ensures ends { parser.new.end ≡ parser.old.end }
        ensures stop { bad parser.new.cursor ≡ bad parser.old.cursor }
        ensures fewer { OnOk result (room (state parser.new) ≤ room (state parser.old)) }
    {
        let yes = self.deep_value(parser, level, constant)?;
        parser.expect(Set::Sign(Sign::Colon), level);
        Ok(chains::choice(test, yes))
    }

    // A value without choices.
    #[tactic(auto, unfolding(crate::specs::Values::chain_of))]
    fn chain(
        &self,
        parser: &mut Parser<'_>,
        level: u32,
        constant: bool,
    ) -> Result<Boxed<Expr>, NoMemory>
        requires nests { Nests self.now.least (F.pre self.now.deep) (F.post self.now.deep) }
        requires low { level ≤ 65 }
        requires within { self.now.least ≤ level + 1 }
        ensures tree { IfOk result (λ tree. values.chain_of parser.old.end (names_of parser.old.names) constant level (state parser.old) ≡ Some (tree, state parser.new)) }
        ensures names { OnOk result (names_of parser.new.names ≡ names_of parser.old.names) }
        ensures ends { parser.new.end ≡ parser.old.end }
        ensures stop { bad parser.new.cursor ≡ bad parser.old.cursor }
    {
        let first = self.prefixed(parser, level, constant)?;
        self.upto(parser, level, Level::Or, constant, first)
    }

    /// `Upto`: what follows this operand of chains up to a level.
    #[cycle(chains)]
    #[tactic(auto, using(crate::proofs::ChainLaws::upto_laws))]
    fn upto(
        &self,
        parser: &mut Parser<'_>,
        level: u32,
        tier: Level,
        constant: bool,
        first: Boxed<Expr>,
    ) -> Result<Boxed<Expr>, NoMemory>
        requires nests { Nests self.now.least (F.pre self.now.deep) (F.post self.now.deep) }
        requires low { level ≤ 65 }
        requires within { self.now.least ≤ level + 1 }
        ensures tree { IfOk result (λ tree. reads (part.Upto tier constant first) level parser.old ≡ Some (tree, state parser.new)) }
        ensures names { OnOk result (names_of parser.new.names ≡ names_of parser.old.names) }
        ensures ends { parser.new.end ≡ parser.old.end }
        ensures stop { bad parser.new.cursor ≡ bad parser.old.cursor }
    {
        if !parser.next_in(Set::LinkUpTo(tier)) {
            return Ok(first);
        }
        let first = self.tighter_links(parser, level, tier, constant, first)?;
        let links = self.links(parser, level, tier, constant)?;
        Ok(chains::chained(parser.alloc, first, links)?)
    }

    // What follows this operand of chains up to the next tighter level.
    #[cycle(chains)]
    fn tighter_links(
        &self,
        parser: &mut Parser<'_>,
        level: u32,
        tier: Level,
        constant: bool,
        first: Boxed<Expr>,
    ) -> Result<Boxed<Expr>, NoMemory>
        requires nests { Nests self.now.least (F.pre self.now.deep) (F.post self.now.deep) }
        requires low { level ≤ 65 }
        requires within { self.now.least ≤ level + 1 }
        ensures tree { IfOk result (λ tree. values.tail_of parser.old.end (names_of parser.old.names) (values_of_trees.tighter tier) constant first level (state parser.old) ≡ Some (tree, state parser.new)) }
        ensures names { OnOk result (names_of parser.new.names ≡ names_of parser.old.names) }
        ensures ends { parser.new.end ≡ parser.old.end }
        ensures stop { bad parser.new.cursor ≡ bad parser.old.cursor }
    {
        match tighter(tier) {
            Some(inner) => self.upto(parser, level, inner, constant, first),
            None => Ok(first),
        }
    }

    /// `Links`: what follows the first operand of a chain of a level.
    #[cycle(chains)]
    #[tactic(auto, using(crate::proofs::ChainLaws::link_laws, crate::proofs::Progress::stays))]
    fn links(
        &self,
        parser: &mut Parser<'_>,
        level: u32,
        tier: Level,
        constant: bool,
    ) -> Result<Items<Link>, NoMemory>
        requires nests { Nests self.now.least (F.pre self.now.deep) (F.post self.now.deep) }
        requires low { level ≤ 65 }
        requires within { self.now.least ≤ level + 1 }
        ensures tree { IfOk result (λ ls. reads (part.Links tier constant) level parser.old ≡ Some (ls, state parser.new)) }
        ensures names { OnOk result (names_of parser.new.names ≡ names_of parser.old.names) }
        ensures ends { parser.new.end ≡ parser.old.end }
        ensures stop { bad parser.new.cursor ≡ bad parser.old.cursor }
    {
        let mut links = Items::new(parser.alloc);
        'links: while let Some(sign) = parser.accept(Set::Link(tier), level) {
            let operand = self.operand(parser, level, tier, constant)?;
            links.push(chains::link(operator_in(sign), operand))?;
        }
        Ok(links)
    }

    /// `Operand`: an operand of a chain of a level.
    #[cycle(chains)]
    #[tactic(auto, using(crate::proofs::ChainLaws::operand_law))]
    fn operand(
        &self,
        parser: &mut Parser<'_>,
        level: u32,
        tier: Level,
        constant: bool,
    ) -> Result<Boxed<Expr>, NoMemory>
        requires nests { Nests self.now.least (F.pre self.now.deep) (F.post self.now.deep) }
        requires low { level ≤ 65 }
        requires within { self.now.least ≤ level + 1 }
        ensures tree { IfOk result (λ tree. reads (part.Operand tier constant) level parser.old ≡ Some (tree, state parser.new)) }
        ensures names { OnOk result (names_of parser.new.names ≡ names_of parser.old.names) }
        ensures ends { parser.new.end ≡ parser.old.end }
        ensures stop { bad parser.new.cursor ≡ bad parser.old.cursor }
    {
        let first = self.prefixed(parser, level, constant)?;
        self.tighter_links(parser, level, tier, constant, first)
    }
}
