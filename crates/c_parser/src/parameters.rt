// Parameters.

ghost use Rattle.std.specs.Prelude.{◌≡◌, ◌≤◌, true, false, [], IfOk, OnOk, Some};
ghost use Rattle.c_grammar.specs.Parts as part;
ghost use Rattle.c_nodes.specs.Seen.{seen};
ghost use Rattle.c_parser.specs.Items.{texts};
ghost use Rattle.c_parser.specs.Pieces.{named_texts};
ghost use Rattle.c_cursor.specs.Reading.{behind};
ghost use Rattle.c_cursor.specs.Gives.{reads, room, state};
ghost use Rattle.c_parser.specs.Pieces as piece;
ghost use Rattle.c_cursor.specs.Scopes.{names_of};
ghost use Rattle.c_cursor.specs.State.{bad};

use crate::types::{any_type, consts, int_type, texts_type, type_rest};
use c_cursor::{NoMemory, Parser, Set};
use c_lexer::{Keyword, Sign};
use c_nodes::types::is_void;
use c_nodes::{Token, items};
use c_tree::{CType, Parameter};
use sqlite_items::Items;

/// Parameters with the tokens of their names, where they have any.
#[derive(Drop)]
pub struct Parameters<'t> {
    pub list: Items<Parameter>,
    pub names: Vec<Token<'t>>,
}

impl<'t> Parameters<'t> {
    /// `ParameterEnd`: a name behind this type, or none.
    #[tactic(auto, using(crate::proofs::ParameterLaws::push_laws))]
    fn push(&mut self, parser: &mut Parser<'t>, level: u32, declared: CType) -> Result<(), NoMemory>
        requires named { named_texts self.old.list ≡ texts self.old.names.items }
        ensures tree { OnOk result (piece.pushed parser.old.end (names_of parser.old.names) self.old.list declared level (state parser.old) ≡ Some (self.new.list, state parser.new)) }
        ensures named { OnOk result (named_texts self.new.list ≡ texts self.new.names.items) }
        ensures shorter { room (state parser.new) ≤ room (state parser.old) }
        ensures names { OnOk result (parser.new.names ≡ parser.old.names) }
        ensures ends { parser.new.end ≡ parser.old.end }
        ensures stop { bad parser.new.cursor ≡ bad parser.old.cursor }
    {
        match parser.accept(Set::Name, level) {
            Some(name) => {
                self.names.push(name)?;
                self.list
                    .push(items::named_parameter(parser.alloc, declared, name)?)?;
            }
            None => self.list.push(items::unnamed_parameter(declared))?,
        }
        Ok(())
    }

    /// `MoreParameters`: those behind the first.
    #[tactic(auto, using(crate::proofs::ParameterLaws::more_parameters_law, crate::proofs::ParameterLaws::push_step, crate::proofs::Thens::list_laws, crate::proofs::Progress::stays))]
    fn push_more(&mut self, parser: &mut Parser<'t>, level: u32) -> Result<(), NoMemory>
        requires named { named_texts self.old.list ≡ texts self.old.names.items }
        ensures tree { OnOk result (behind self.old.list (reads part.MoreParameters level parser.old) ≡ Some (self.new.list, state parser.new)) }
        ensures named { OnOk result (named_texts self.new.list ≡ texts self.new.names.items) }
        ensures names { OnOk result (parser.new.names ≡ parser.old.names) }
        ensures ends { parser.new.end ≡ parser.old.end }
        ensures stop { bad parser.new.cursor ≡ bad parser.old.cursor }
    {
        'parameters: while let Some(_) = parser.accept(Set::Sign(Sign::Comma), level) {
            let declared = any_type(parser, level, true, true)?;
            self.push(parser, level, declared)?;
        }
        Ok(())
    }
}

impl<'t> Parameters<'t> {
    fn new(parser: &Parser<'t>) -> Parameters<'t>
        ensures list { result.list ≡ [] }
        ensures names { result.names.items ≡ [] }
    {
        Parameters {
            list: Items::new(parser.alloc),
            names: Vec::new(parser.alloc),
        }
    }
}

// What stands between the brackets of `main`.
#[tactic(auto, using(crate::proofs::ParameterLaws::main_law))]
fn main_parameters<'t>(parser: &mut Parser<'t>, level: u32) -> Result<Parameters<'t>, NoMemory>
    ensures tree { IfOk result (λ p. reads (part.ParametersOf true) level parser.old ≡ Some (p.list, state parser.new)) }
    ensures named { IfOk result (λ p. named_texts p.list ≡ texts p.names.items) }
    ensures names { OnOk result (parser.new.names ≡ parser.old.names) }
    ensures ends { parser.new.end ≡ parser.old.end }
    ensures stop { bad parser.new.cursor ≡ bad parser.old.cursor }
{
    let mut parameters = Parameters::new(parser);
    let first = int_type(parser, level)?;
    parameters.push(parser, level, first)?;
    parser.expect(Set::Sign(Sign::Comma), level);
    let second = texts_type(parser, level)?;
    parameters.push(parser, level, second)?;
    Ok(parameters)
}

// What stands between the brackets of another function.
#[tactic(auto, using(crate::proofs::ParameterLaws::parameters_law))]
fn other_parameters<'t>(parser: &mut Parser<'t>, level: u32) -> Result<Parameters<'t>, NoMemory>
    ensures tree { IfOk result (λ p. reads (part.ParametersOf false) level parser.old ≡ Some (p.list, state parser.new)) }
    ensures named { IfOk result (λ p. named_texts p.list ≡ texts p.names.items) }
    ensures names { OnOk result (parser.new.names ≡ parser.old.names) }
    ensures ends { parser.new.end ≡ parser.old.end }
    ensures stop { bad parser.new.cursor ≡ bad parser.old.cursor }
{
    let mut parameters = Parameters::new(parser);
    if let Some(declared) = first_type(parser, level)? {
        parameters.push(parser, level, declared)?;
        parameters.push_more(parser, level)?;
    }
    Ok(parameters)
}

/// `ParametersOf`: what stands between the brackets of a function, of `main` or not.
pub fn read_parameters<'t>(
    parser: &mut Parser<'t>,
    level: u32,
    main: bool,
) -> Result<Parameters<'t>, NoMemory>
    ensures tree { IfOk result (λ p. reads (part.ParametersOf main) level parser.old ≡ Some (p.list, state parser.new)) }
    ensures named { IfOk result (λ p. named_texts p.list ≡ texts p.names.items) }
    ensures names { OnOk result (parser.new.names ≡ parser.old.names) }
    ensures ends { parser.new.end ≡ parser.old.end }
    ensures stop { bad parser.new.cursor ≡ bad parser.old.cursor }
{
    if main {
        return main_parameters(parser, level);
    }
    other_parameters(parser, level)
}

// The type of the first parameter, or None behind `void` alone.
#[tactic(auto, unfolding(crate::specs::Pieces::first_type))]
fn first_type(parser: &mut Parser<'_>, level: u32) -> Result<Option<CType>, NoMemory>
    ensures tree { IfOk result (λ o. piece.first_type parser.old.end (names_of parser.old.names) level (state parser.old) ≡ Some (o, state parser.new)) }
    ensures names { OnOk result (parser.new.names ≡ parser.old.names) }
    ensures ends { parser.new.end ≡ parser.old.end }
    ensures stop { bad parser.new.cursor ≡ bad parser.old.cursor }
{
    if let Some(word) = parser.accept(Set::Word(Keyword::Void), level) {
        if !parser.next_in(Set::TypeMore) {
            return Ok(None);
        }
        return Ok(Some(type_rest(parser, level, None, word, true)?));
    }
    match consts(parser, level) {
        Some(row) => {
            let base = parser.expect(Set::Base(true), level);
            let must = is_void(base);
            Ok(Some(type_rest(parser, level, Some(row), base, must)?))
        }
        None => {
            let base = parser.expect(Set::OtherBase, level);
            Ok(Some(type_rest(parser, level, None, base, false)?))
        }
    }
}
