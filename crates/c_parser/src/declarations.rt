// What is declared as a function: prototypes and functions.

ghost use Rattle.std.specs.Prelude.{◌≡◌, ◌<◌, ◌≤◌, ◌+◌, false, IfOk, OnOk, Some};
ghost use Rattle.c_grammar.specs.Parts as part;
ghost use Rattle.c_nodes.specs.Seen.{seen};
ghost use Rattle.std.specs.List.{list_all};
ghost use Rattle.c_grammar.specs.Tests as tests;
ghost use Rattle.c_tree.specs.Items.{has_name};
ghost use Rattle.c_tree.specs.Names as names;
ghost use Rattle.c_tree.specs.Names.{with_item};
ghost use Rattle.c_cursor.specs.Reading.{read};
ghost use Rattle.c_parser.specs.Items.{IsOf, texts, with_texts};
ghost use Rattle.c_parser.specs.Pieces.{named_texts};
ghost use Rattle.std.specs.Prelude.{true};
ghost use Rattle.c_cursor.specs.Gives.{reads, state};
ghost use Rattle.c_parser.specs.Pieces as piece;
ghost use Rattle.c_cursor.specs.Scopes.{names_of};
ghost use Rattle.c_cursor.specs.State.{bad};

use crate::parameters::{Parameters, read_parameters};
use crate::reader::read_body;
use c_cursor::{Names, NoMemory, Parser, Set, is_main};
use c_lexer::Sign;
use c_nodes::{Role, Token, items};
use c_tree::{Block, CType, Function, Item, Signature};

/// What stands in front of the brackets of a function.
#[derive(Drop)]
pub struct Head<'t> {
    pub is_static: bool,
    pub declared: CType,
    pub name: Token<'t>,
    /// Where it begins.
    pub start: u32,
}

// The parameters of what has this name.
fn parameters_for<'t>(
    parser: &mut Parser<'t>,
    level: u32,
    name: Token<'t>,
) -> Result<Parameters<'t>, NoMemory>
    requires bears { (seen name).bytes ≡ name.text.now }
    ensures tree { IfOk result (λ p. reads (part.ParametersOf (tests.is_main (seen name.entry).bytes)) level parser.old ≡ Some (p.list, state parser.new)) }
    ensures named { IfOk result (λ p. named_texts p.list ≡ texts p.names.items) }
    ensures names { OnOk result (parser.new.names ≡ parser.old.names) }
    ensures ends { parser.new.end ≡ parser.old.end }
    ensures stop { bad parser.new.cursor ≡ bad parser.old.cursor }
{
    read_parameters(parser, level, is_main(name.text))
}

/// `DeclaredOf`: what follows the name of what is declared as a function.
#[tactic(auto, using(crate::proofs::ItemLaws::with_of))]
pub fn declared_of<'t>(
    parser: &mut Parser<'t>,
    level: u32,
    head: Head<'t>,
) -> Result<Item, NoMemory>
    requires top { level ≡ 0 }
    requires bears { (seen head.name).bytes ≡ head.name.text.now }
    ensures tree { IfOk result (λ i. reads (part.DeclaredOf head.entry.is_static head.entry.declared (seen head.entry.name) head.entry.start) level parser.old ≡ Some (i, state parser.new)) }
    ensures names { IfOk result (λ i. names_of parser.new.names ≡ with_item (names_of parser.old.names) i) }
    ensures ends { parser.new.end ≡ parser.old.end }
    ensures stop { bad parser.new.cursor ≡ bad parser.old.cursor }
{
    let Head {
        is_static,
        declared,
        name,
        start,
    } = head;
    parser.expect(Set::Sign(Sign::OpenParen), level + 1);
    let Parameters { list, names } = parameters_for(parser, level + 1, name)?;
    let close = parser.expect(Set::Sign(Sign::CloseParen), level);
    let signature = items::signature(parser.alloc, is_static, declared, name, list, start, close)?;
    parser.names.declare(name.text, Role::Function)?;
    signature_end(parser, level, signature, names.as_slice())
}

// What follows `)`, by whether all parameters have names.
#[tactic(auto, using(crate::proofs::ParameterLaws::all_named, crate::proofs::ParameterLaws::some_unnamed, crate::proofs::ParameterLaws::texts_short, crate::proofs::ItemLaws::length_texts))]
fn signature_end<'t>(
    parser: &mut Parser<'t>,
    level: u32,
    signature: Signature,
    tokens: &[Token<'t>],
) -> Result<Item, NoMemory>
    requires top { level ≡ 0 }
    requires named { named_texts signature.parameters ≡ texts tokens.now }
    ensures tree { IfOk result (λ i. piece.declared_end parser.old.end (names_of parser.old.names) (list_all has_name signature.parameters) signature level (state parser.old) ≡ Some (i, state parser.new)) }
    ensures names { OnOk result (names_of parser.new.names ≡ names_of parser.old.names) }
    ensures item { IfOk result (λ i. IsOf signature i) }
    ensures ends { parser.new.end ≡ parser.old.end }
    ensures stop { bad parser.new.cursor ≡ bad parser.old.cursor }
{
    if signature.parameters.len() == tokens.len() {
        return declared_end(parser, level, signature, tokens);
    }
    Ok(prototype_end(parser, level, signature))
}

// What follows `)` where a parameter has no name.
#[tactic(auto, unfolding(crate::specs::Pieces::declared_end))]
fn prototype_end(parser: &mut Parser<'_>, level: u32, signature: Signature) -> Item
    ensures tree { piece.declared_end parser.old.end (names_of parser.old.names) false signature level (state parser.old) ≡ Some (result, state parser.new) }
    ensures names { parser.new.names ≡ parser.old.names }
    ensures item { IsOf signature result }
    ensures ends { parser.new.end ≡ parser.old.end }
    ensures stop { bad parser.new.cursor ≡ bad parser.old.cursor }
{
    parser.expect(Set::Sign(Sign::Semicolon), level);
    Item::Prototype(signature)
}

// Variables of these names are in scope from now on.
fn declare_all<'t>(names: &mut Names<'t>, tokens: &[Token<'t>]) -> Result<(), NoMemory>
    ensures { OnOk result (names_of names.new ≡ with_texts (names_of names.old) (texts tokens.now)) }
{
    for token in tokens {
        names.declare(token.text, Role::Variable)?;
    }
    Ok(())
}

// The body of a function, in the scope of parameters of these names.
#[tactic(auto, using(crate::proofs::EndLaws::texts_end))]
fn function_body<'t>(parser: &mut Parser<'t>, tokens: &[Token<'t>]) -> Result<Block, NoMemory>
    ensures tree { IfOk result (λ b. read parser.old.end (with_texts (names_of parser.old.names) (texts tokens.now)) part.BlockOf 0 (state parser.old) ≡ Some (b, state parser.new)) }
    ensures names { OnOk result (names_of parser.new.names ≡ names_of parser.old.names) }
    ensures ends { parser.new.end ≡ parser.old.end }
    ensures stop { bad parser.new.cursor ≡ bad parser.old.cursor }
{
    let scope = parser.names.len();
    declare_all(&mut parser.names, tokens)?;
    let body = read_body(parser)?;
    parser.names.truncate(scope);
    Ok(body)
}

// What follows `)` where all parameters have names.
#[tactic(auto, unfolding(crate::specs::Pieces::declared_end), using(crate::proofs::EndLaws::function_end))]
fn declared_end<'t>(
    parser: &mut Parser<'t>,
    level: u32,
    signature: Signature,
    tokens: &[Token<'t>],
) -> Result<Item, NoMemory>
    requires top { level ≡ 0 }
    requires named { named_texts signature.parameters ≡ texts tokens.now }
    ensures tree { IfOk result (λ i. piece.declared_end parser.old.end (names_of parser.old.names) true signature level (state parser.old) ≡ Some (i, state parser.new)) }
    ensures names { OnOk result (names_of parser.new.names ≡ names_of parser.old.names) }
    ensures item { IfOk result (λ i. IsOf signature i) }
    ensures ends { parser.new.end ≡ parser.old.end }
    ensures stop { bad parser.new.cursor ≡ bad parser.old.cursor }
{
    if let Some(_) = parser.accept(Set::Sign(Sign::Semicolon), level) {
        return Ok(Item::Prototype(signature));
    }
    let body = function_body(parser, tokens)?;
    Ok(Item::Function(Function { signature, body }))
}

/// `TypedEnd`: what follows the type of an item without `static`.
#[tactic(auto, using(crate::proofs::ItemLaws::typed_law))]
pub fn typed_end(
    parser: &mut Parser<'_>,
    level: u32,
    declared: CType,
    is_int: bool,
) -> Result<Item, NoMemory>
    requires top { level ≡ 0 }
    requires int { is_int ≡ names.is_int (names_of parser.old.names) declared }
    ensures tree { IfOk result (λ i. reads (part.TypedEnd declared) level parser.old ≡ Some (i, state parser.new)) }
    ensures names { IfOk result (λ i. names_of parser.new.names ≡ with_item (names_of parser.old.names) i) }
    ensures ends { parser.new.end ≡ parser.old.end }
    ensures stop { bad parser.new.cursor ≡ bad parser.old.cursor }
{
    let name = parser.expect(Set::FreeName(is_int), level);
    let start = declared.span.start;
    let head = Head {
        is_static: false,
        declared,
        name,
        start,
    };
    declared_of(parser, level, head)
}
