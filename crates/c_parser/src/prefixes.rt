// Operators before an operand.

ghost use Rattle.std.specs.Prelude.{◌≡◌, ◌<◌, ◌≤◌, ◌+◌, ◌&&◌, ◌||◌, [], false, true, not, suc, IfOk, IfSome, IsSome, None, OnOk, Some};
ghost use Rattle.c_grammar.specs.Parts as part;
ghost use Rattle.c_nodes.specs.Roles.{role_of};
ghost use Rattle.c_nodes.specs.Seen.{seen};
ghost use Rattle.c_parser.specs.Asks.{Nests};
ghost use Rattle.c_cursor.specs.Gives.{reads, room, state};
ghost use Rattle.c_cursor.specs.Reading.{behind, is_next};
ghost use Rattle.c_cursor.specs.declared.sets.Set.TheVariants as set;
ghost use Rattle.c_cursor.specs.Scopes.{names_of};
ghost use Rattle.c_cursor.specs.Steps.{Took};
ghost use Rattle.c_grammar.specs.Trees as tree;
ghost use Rattle.c_cursor.specs.State.{bad};
ghost use Rattle.c_parser.specs.Pieces as piece;
ghost use Rattle.c_parser.specs.Values as values;

use crate::asks::{Ask, Grammar, Reply};
use crate::types::any_type;
use c_cursor::{NoMemory, Parser, Set};
use c_lexer::Sign;
use c_nodes::operators::{cast_prefix, sign_prefix};
use c_nodes::{Token, chains};
use c_tree::{Expr, Prefix, PrefixOperator};
use sqlite_items::{Boxed, Items};

/// An operator before an operand, or the operand.
#[derive(Drop)]
pub enum Step {
    Operator(PrefixOperator),
    Operand(Boxed<Expr>),
}

fn wants_place(operator: &PrefixOperator) -> bool
    ensures { result ≡ piece.is_address operator.now.prefix }
{
    matches!(operator.prefix, Prefix::AddressOf)
}

// A sign before an operand, if the next token is one.
fn value_operator<'t>(parser: &mut Parser<'t>, level: u32, constant: bool) -> Option<Token<'t>>
    ensures took { Took (set.Prefix constant) level parser.old result parser.new }
    ensures kind { IfSome result (λ t. (constant && piece.is_address (tree.sign_prefix (seen t)).prefix) ≡ false) }
    ensures names { parser.new.names ≡ parser.old.names }
    ensures ends { parser.new.end ≡ parser.old.end }
    ensures stop { bad parser.new.cursor ≡ bad parser.old.cursor }
    ensures shorter { IsSome result → room (state parser.new) < room (state parser.old) }
{
    parser.accept(Set::Prefix(constant), level)
}

// The same, or a sign before a place.
fn operator<'t>(
    parser: &mut Parser<'t>,
    level: u32,
    constant: bool,
    place: bool,
) -> Option<Token<'t>>
    requires value { (constant && place) ≡ false }
    ensures took { Took (values.prefixes constant place) level parser.old result parser.new }
    ensures kind { IfSome result (λ t. (constant && piece.is_address (tree.sign_prefix (seen t)).prefix) ≡ false) }
    ensures names { parser.new.names ≡ parser.old.names }
    ensures ends { parser.new.end ≡ parser.old.end }
    ensures stop { bad parser.new.cursor ≡ bad parser.old.cursor }
    ensures shorter { IsSome result → room (state parser.new) < room (state parser.old) }
{
    if place {
        return parser.accept(Set::Sign(Sign::Star), level);
    }
    value_operator(parser, level, constant)
}

/// Whether what follows `(` is a cast.
fn begins_cast(parser: &Parser<'_>, place: bool) -> bool
    ensures { result ≡ (not place && is_next (names_of parser.now.names) (set.Type false) (state parser.now)) }
{
    !place && parser.next_in(Set::Type(false))
}

impl<F: Fn(&mut Parser<'_>, u32, Ask) -> Result<Reply, NoMemory>> Grammar<F> {
    /// `Prefixed`: operators before an operand, and the operand.
    #[tactic(auto, using(crate::proofs::PrefixLaws::prefixed_law))]
    pub fn prefixed(
        &self,
        parser: &mut Parser<'_>,
        level: u32,
        constant: bool,
    ) -> Result<Boxed<Expr>, NoMemory>
        requires nests { Nests self.now.least (F.pre self.now.deep) (F.post self.now.deep) }
        requires low { level ≤ 65 }
        requires within { self.now.least ≤ level + 1 }
        ensures tree { IfOk result (λ tree. values.prefixed_value parser.old.end (names_of parser.old.names) constant level (state parser.old) ≡ Some (tree, state parser.new)) }
        ensures names { OnOk result (names_of parser.new.names ≡ names_of parser.old.names) }
        ensures ends { parser.new.end ≡ parser.old.end }
        ensures stop { bad parser.new.cursor ≡ bad parser.old.cursor }
    {
        match self.prefix_step(parser, level, constant, false)? {
            Step::Operator(first) => self.prefixed_behind(parser, level, constant, first),
            Step::Operand(operand) => Ok(operand),
        }
    }

    /// `Prefixed` or, behind `&`, `Place`: what follows an operator, with it in front.
    #[tactic(auto, using(crate::proofs::ReaderSteps::operator_steps))]
    pub fn prefixed_behind(
        &self,
        parser: &mut Parser<'_>,
        level: u32,
        constant: bool,
        first: PrefixOperator,
    ) -> Result<Boxed<Expr>, NoMemory>
        requires nests { Nests self.now.least (F.pre self.now.deep) (F.post self.now.deep) }
        requires low { level ≤ 65 }
        requires within { self.now.least ≤ level + 1 }
        requires value { (constant && piece.is_address first.prefix) ≡ false }
        ensures tree { IfOk result (λ tree. piece.prefixed_of parser.old.end (names_of parser.old.names) constant first level (state parser.old) ≡ Some (tree, state parser.new)) }
        ensures names { OnOk result (names_of parser.new.names ≡ names_of parser.old.names) }
        ensures ends { parser.new.end ≡ parser.old.end }
        ensures stop { bad parser.new.cursor ≡ bad parser.old.cursor }
    {
        let mut operators = Items::new(parser.alloc);
        let mut place = wants_place(&first);
        operators.push(first)?;
        'operators: loop {
            match self.prefix_step(parser, level, constant, place)? {
                Step::Operator(operator) => {
                    place = wants_place(&operator);
                    operators.push(operator)?;
                }
                Step::Operand(operand) => {
                    return Ok(chains::prefixed(parser.alloc, operators, operand)?);
                }
            }
        }
    }

    /// One operator of `Prefixed` or `Place`, or the operand.
    #[tactic(auto, unfolding(crate::specs::Values::step_of))]
    pub fn prefix_step(
        &self,
        parser: &mut Parser<'_>,
        level: u32,
        constant: bool,
        place: bool,
    ) -> Result<Step, NoMemory>
        requires nests { Nests self.now.least (F.pre self.now.deep) (F.post self.now.deep) }
        requires low { level ≤ 65 }
        requires within { self.now.least ≤ level + 1 }
        requires value { (constant && place) ≡ false }
        ensures tree { IfOk result (λ x. values.step_of parser.old.end (names_of parser.old.names) constant place level (state parser.old) ≡ Some (x, state parser.new)) }
        ensures names { OnOk result (names_of parser.new.names ≡ names_of parser.old.names) }
        ensures ends { parser.new.end ≡ parser.old.end }
        ensures stop { bad parser.new.cursor ≡ bad parser.old.cursor }
        ensures kind { IfOk result (λ x. (constant && values.wants_place x) ≡ false) }
        ensures fewer { IfOk result (λ x. values.Falls x (room (state parser.old)) (room (state parser.new))) }
    {
        if let Some(sign) = operator(parser, level, constant, place) {
            return Ok(Step::Operator(sign_prefix(sign)));
        }
        self.plain_step(parser, level, constant, place)
    }

    // A cast, or an operand without operators before it.
    #[tactic(auto, unfolding(crate::specs::Values::plain_step, crate::specs::Values::bracket_step))]
    fn plain_step(
        &self,
        parser: &mut Parser<'_>,
        level: u32,
        constant: bool,
        place: bool,
    ) -> Result<Step, NoMemory>
        requires nests { Nests self.now.least (F.pre self.now.deep) (F.post self.now.deep) }
        requires low { level ≤ 65 }
        requires within { self.now.least ≤ level + 1 }
        ensures tree { IfOk result (λ x. values.plain_step parser.old.end (names_of parser.old.names) constant place level (state parser.old) ≡ Some (x, state parser.new)) }
        ensures names { OnOk result (names_of parser.new.names ≡ names_of parser.old.names) }
        ensures ends { parser.new.end ≡ parser.old.end }
        ensures stop { bad parser.new.cursor ≡ bad parser.old.cursor }
        ensures kind { IfOk result (λ x. (constant && values.wants_place x) ≡ false) }
        ensures fewer { IfOk result (λ x. values.Falls x (room (state parser.old)) (room (state parser.new))) }
    {
        if let Some(opening) = parser.accept(Set::Sign(Sign::OpenParen), level + 1) {
            if begins_cast(parser, place) {
                return Ok(Step::Operator(self.cast(parser, level, opening)?));
            }
            let operand = self.bracketed(parser, level, constant, opening)?;
            return Ok(Step::Operand(self.finished(parser, level, constant, place, operand)?));
        }
        let operand = self.primary(parser, level, constant)?;
        Ok(Step::Operand(self.finished(parser, level, constant, place, operand)?))
    }

    // A cast, of which this is the `(` in front.
    #[tactic(auto, using(crate::proofs::Progress::stays), unfolding(crate::specs::Values::cast_of))]
    fn cast(
        &self,
        parser: &mut Parser<'_>,
        level: u32,
        opening: Token<'_>,
    ) -> Result<PrefixOperator, NoMemory>
        requires low { level ≤ 65 }
        ensures tree { IfOk result (λ p. values.cast_of parser.old.end (names_of parser.old.names) (seen opening.entry) level (state parser.old) ≡ Some (p, state parser.new)) }
        ensures kind { IfOk result (λ p. piece.is_address p.prefix ≡ false) }
        ensures names { OnOk result (names_of parser.new.names ≡ names_of parser.old.names) }
        ensures ends { parser.new.end ≡ parser.old.end }
        ensures stop { bad parser.new.cursor ≡ bad parser.old.cursor }
        ensures fewer { OnOk result (room (state parser.new) ≤ room (state parser.old)) }
    {
        let declared = any_type(parser, level + 1, false, true)?;
        let close = parser.expect(Set::Sign(Sign::CloseParen), level);
        Ok(cast_prefix(opening, declared, close))
    }

    // An operand and its suffixes, where it is no constant.
    fn finished(
        &self,
        parser: &mut Parser<'_>,
        level: u32,
        constant: bool,
        place: bool,
        operand: Boxed<Expr>,
    ) -> Result<Boxed<Expr>, NoMemory>
        requires nests { Nests self.now.least (F.pre self.now.deep) (F.post self.now.deep) }
        requires low { level ≤ 65 }
        requires within { self.now.least ≤ level + 1 }
        ensures tree { IfOk result (λ tree. values.finished parser.old.end (names_of parser.old.names) constant place operand level (state parser.old) ≡ Some (tree, state parser.new)) }
        ensures names { OnOk result (names_of parser.new.names ≡ names_of parser.old.names) }
        ensures ends { parser.new.end ≡ parser.old.end }
        ensures stop { bad parser.new.cursor ≡ bad parser.old.cursor }
    {
        if constant {
            return Ok(operand);
        }
        self.suffixed(parser, level, place, operand)
    }
}
