// Operands without operators before them.

ghost use Rattle.std.specs.Prelude.{◌≡◌, ◌<◌, ◌≤◌, ◌+◌, ◌&&◌, ◌||◌, [], false, true, suc, IfOk, IfSome, IsSome, None, OnOk, Some};
ghost use Rattle.c_grammar.specs.Parts as part;
ghost use Rattle.c_nodes.specs.Roles.{role_of};
ghost use Rattle.c_nodes.specs.Seen.{seen};
ghost use Rattle.c_parser.specs.Asks.{Nests};
ghost use Rattle.c_cursor.specs.Gives.{reads, room, state};
ghost use Rattle.c_cursor.specs.Reading.{behind};
ghost use Rattle.c_cursor.specs.declared.sets.Set.TheVariants as set;
ghost use Rattle.c_cursor.specs.Scopes.{names_of};
ghost use Rattle.c_cursor.specs.Steps.{Took};
ghost use Rattle.c_cursor.specs.State.{bad};
ghost use Rattle.c_parser.specs.Pieces as piece;
ghost use Rattle.c_parser.specs.Values as values;

use crate::asks::{Ask, Grammar, Reply};
use crate::types::any_type;
use c_cursor::{NoMemory, Parser, Set};
use c_lexer::{Keyword, Sign};
use c_nodes::names::{at, join};
use c_nodes::{Token, chains, operands};
use c_tree::Expr;
use sqlite_items::Boxed;

// The name of a value, if the next token is one.
fn value_name<'t>(parser: &mut Parser<'t>, level: u32, constant: bool) -> Option<Token<'t>>
    ensures took { Took (set.ValueName constant) level parser.old result parser.new }
    ensures letters { IfSome result (λ t. (seen t).bytes ≡ t.text.now) }
    ensures names { parser.new.names ≡ parser.old.names }
    ensures ends { parser.new.end ≡ parser.old.end }
    ensures stop { bad parser.new.cursor ≡ bad parser.old.cursor }
{
    parser.accept(Set::ValueName(constant), level)
}

impl<F: Fn(&mut Parser<'_>, u32, Ask) -> Result<Reply, NoMemory>> Grammar<F> {
    /// `Primary`: an operand without operators before it, brackets around it and suffixes.
    #[tactic(auto, using(crate::proofs::OperandLaws::primary_law))]
    pub fn primary(
        &self,
        parser: &mut Parser<'_>,
        level: u32,
        constant: bool,
    ) -> Result<Boxed<Expr>, NoMemory>
        requires low { level ≤ 66 }
        ensures tree { IfOk result (λ tree. reads (part.Primary constant) level parser.old ≡ Some (tree, state parser.new)) }
        ensures names { OnOk result (names_of parser.new.names ≡ names_of parser.old.names) }
        ensures ends { parser.new.end ≡ parser.old.end }
        ensures stop { bad parser.new.cursor ≡ bad parser.old.cursor }
    {
        if let Some(name) = value_name(parser, level, constant) {
            let role = parser.role(name);
            return Ok(operands::name_value(parser.alloc, role, name)?);
        }
        self.unnamed(parser, level)
    }

    /// `Unnamed`: the same where it is no name.
    #[tactic(auto, using(crate::proofs::OperandLaws::unnamed_law))]
    pub fn unnamed(&self, parser: &mut Parser<'_>, level: u32) -> Result<Boxed<Expr>, NoMemory>
        requires low { level ≤ 66 }
        ensures tree { IfOk result (λ tree. reads part.Unnamed level parser.old ≡ Some (tree, state parser.new)) }
        ensures names { OnOk result (names_of parser.new.names ≡ names_of parser.old.names) }
        ensures ends { parser.new.end ≡ parser.old.end }
        ensures stop { bad parser.new.cursor ≡ bad parser.old.cursor }
        ensures after { OnOk result (parser.new.is_stopped ≡ false → level < 65) }
    {
        if let Some(token) = parser.accept(Set::Literal, level) {
            return Ok(operands::literal(parser.alloc, token)?);
        }
        if let Some(word) = parser.accept(Set::Word(Keyword::Sizeof), level) {
            return self.size_of(parser, level, word);
        }
        let word = parser.expect(Set::Word(Keyword::StructOffset), level);
        self.offset_of(parser, level, word)
    }

    // What follows `sizeof`.
    #[tactic(auto, unfolding(crate::specs::Values::size_behind))]
    fn size_of(
        &self,
        parser: &mut Parser<'_>,
        level: u32,
        word: Token<'_>,
    ) -> Result<Boxed<Expr>, NoMemory>
        requires low { level ≤ 66 }
        ensures tree { IfOk result (λ tree. values.size_behind parser.old.end (names_of parser.old.names) (seen word.entry) level (state parser.old) ≡ Some (tree, state parser.new)) }
        ensures names { OnOk result (names_of parser.new.names ≡ names_of parser.old.names) }
        ensures ends { parser.new.end ≡ parser.old.end }
        ensures stop { bad parser.new.cursor ≡ bad parser.old.cursor }
        ensures after { OnOk result (parser.new.is_stopped ≡ false → level < 65) }
    {
        parser.expect(Set::Sign(Sign::OpenParen), level + 1);
        let declared = any_type(parser, level + 1, true, true)?;
        let close = parser.expect(Set::Sign(Sign::CloseParen), level);
        Ok(operands::size_of(parser.alloc, word, declared, close)?)
    }

    // What follows `G_STRUCT_OFFSET`.
    #[tactic(auto, unfolding(crate::specs::Values::offset_behind))]
    fn offset_of(
        &self,
        parser: &mut Parser<'_>,
        level: u32,
        word: Token<'_>,
    ) -> Result<Boxed<Expr>, NoMemory>
        requires low { level ≤ 66 }
        ensures tree { IfOk result (λ tree. values.offset_behind parser.old.end (names_of parser.old.names) (seen word.entry) level (state parser.old) ≡ Some (tree, state parser.new)) }
        ensures names { OnOk result (names_of parser.new.names ≡ names_of parser.old.names) }
        ensures ends { parser.new.end ≡ parser.old.end }
        ensures stop { bad parser.new.cursor ≡ bad parser.old.cursor }
        ensures after { OnOk result (parser.new.is_stopped ≡ false → level < 65) }
    {
        parser.expect(Set::Sign(Sign::OpenParen), level + 1);
        let declared = any_type(parser, level + 1, true, true)?;
        parser.expect(Set::Sign(Sign::Comma), level + 1);
        let field = parser.expect(Set::Name, level + 1);
        let close = parser.expect(Set::Sign(Sign::CloseParen), level);
        Ok(operands::offset(parser.alloc, word, declared, field, close)?)
    }

    /// A value and the `)` behind it, of which this is the `(` in front.
    #[tactic(auto, unfolding(crate::specs::Pieces::bracketed_of))]
    pub fn bracketed(
        &self,
        parser: &mut Parser<'_>,
        level: u32,
        constant: bool,
        opening: Token<'_>,
    ) -> Result<Boxed<Expr>, NoMemory>
        requires nests { Nests self.now.least (F.pre self.now.deep) (F.post self.now.deep) }
        requires low { level ≤ 65 }
        requires within { self.now.least ≤ level + 1 }
        requires open { parser.old.is_stopped ≡ false → level + 1 < 65 }
        ensures tree { IfOk result (λ tree. piece.bracketed_of parser.old.end (names_of parser.old.names) constant (seen opening.entry) level (state parser.old) ≡ Some (tree, state parser.new)) }
        ensures names { OnOk result (names_of parser.new.names ≡ names_of parser.old.names) }
        ensures ends { parser.new.end ≡ parser.old.end }
        ensures stop { bad parser.new.cursor ≡ bad parser.old.cursor }
        ensures after { OnOk result (parser.new.is_stopped ≡ false → level < 65) }
    {
        let value = self.deep_value(parser, level, constant)?;
        let close = parser.expect(Set::Sign(Sign::CloseParen), level);
        let span = join(at(opening), at(close));
        Ok(chains::bracketed(parser.alloc, span, value)?)
    }
}
