// Declarations that begin with a type: fields, properties and methods.

ghost use Rattle.std.specs.Prelude.{◌≡◌, ◌≤◌, ◌<◌};
ghost use Rattle.vala_cursor.specs.Ahead.{rest, stop};
ghost use Rattle.vala_cursor.specs.Gets.{Gives, seen};
ghost use Rattle.vala_declaration_nodes.specs.Views.{declared_of};
ghost use Rattle.vala_file_grammar.specs.Grammar.{bodied, owner, typed_method};
ghost use Rattle.vala_file_grammar.specs.Heads.{async_in};
ghost use Rattle.vala_file_grammar.specs.Parts as part;
ghost use Rattle.vala_file_grammar.specs.Read.{file_reader};
ghost use Rattle.vala_parse.specs.Declarations.{field_or_more, no_field, with_value};
ghost use Rattle.vala_parse.specs.Steps.{reads};
ghost use Rattle.vala_parse.specs.Views.{bodied_in, is_inside, owner_in, place_in};

use crate::accessors::accessors;
use crate::bodies::body;
use crate::code;
use crate::heads::{HeadKind, async_in, told};
use crate::lists::throws;
use crate::names::declared_name;
use crate::next::{expect, is_next};
use crate::parameters::parameters;
use crate::places::{Bodied, Owner, Place};
use std::alloc::Global;
use vala_cursor::{Cursor, Flaw, Stop};
use vala_declaration_nodes as nodes;
use vala_declaration_nodes::Declared;
use vala_grammar::Sort;
use vala_lexer::Token;
use vala_tree::{Modifier, NameTree, TypeTree};

/// The name behind the type, and what follows it.
#[tactic(auto, using(crate::proofs::TypedLaws::named_law, vala_cursor::proofs::Steps::just))]
pub fn named_by(
    alloc: Global,
    cursor: &mut Cursor<'_>,
    level: u32,
    place: Place<'_>,
    words: &[Modifier],
    declared: TypeTree,
) -> Result<Declared, Stop>
    requires low { level ≤ 201 }
    ensures tree { Gives declared_of (file_reader (part.NamedBy (place_in place.entry) words.now declared) level (rest cursor.old)) result (rest cursor.new) }
    ensures kept { stop cursor.new ≡ stop cursor.old }
{
    let name = declared_name(cursor, level, words)?;
    typed(alloc, cursor, level, place, words, declared, name)
}

/// What follows the name.
#[tactic(auto, using(crate::proofs::TypedLaws::typed_law))]
fn typed(
    alloc: Global,
    cursor: &mut Cursor<'_>,
    level: u32,
    place: Place<'_>,
    words: &[Modifier],
    declared: TypeTree,
    name: Token<'_>,
) -> Result<Declared, Stop>
    requires low { level ≤ 201 }
    ensures tree { Gives declared_of (file_reader (part.Typed (place_in place.entry) words.now declared (seen name.entry)) level (rest cursor.old)) result (rest cursor.new) }
    ensures kept { stop cursor.new ≡ stop cursor.old }
{
    if is_inside(place) && is_next(cursor, Sort::Throws) {
        return Err(Stop::Flawed(Flaw::LeftOut));
    }
    field_or_more(alloc, cursor, level, place, words, declared, name)
}

fn is_inside(place: Place<'_>) -> bool
    ensures { result ≡ is_inside (place_in place.entry) }
{
    matches!(place, Place::Inside(..))
}

#[tactic(auto, using(crate::proofs::TypedLaws::field_law))]
fn field_or_more(
    alloc: Global,
    cursor: &mut Cursor<'_>,
    level: u32,
    place: Place<'_>,
    words: &[Modifier],
    declared: TypeTree,
    name: Token<'_>,
) -> Result<Declared, Stop>
    requires low { level ≤ 201 }
    ensures tree { Gives declared_of (reads (field_or_more (place_in place.entry) words.now declared (seen name.entry)) level (rest cursor.old)) result (rest cursor.new) }
    ensures kept { stop cursor.new ≡ stop cursor.old }
{
    if let Some(close) = told(cursor, level, HeadKind::Field, words, Sort::Semicolon)? {
        return Ok(nodes::field(alloc, declared, name, None, close)?);
    }
    if let Some(_) = told(cursor, level, HeadKind::Field, words, Sort::Assign)? {
        return with_value(alloc, cursor, level, place, words, declared, name);
    }
    no_field(alloc, cursor, level, place, words, declared, name)
}

/// A field behind `=`.
#[tactic(auto, using(crate::proofs::TypedLaws::value_law))]
fn with_value(
    alloc: Global,
    cursor: &mut Cursor<'_>,
    level: u32,
    place: Place<'_>,
    words: &[Modifier],
    declared: TypeTree,
    name: Token<'_>,
) -> Result<Declared, Stop>
    requires low { level ≤ 201 }
    ensures tree { Gives declared_of (reads (with_value (place_in place.entry) words.now declared (seen name.entry)) level (rest cursor.old)) result (rest cursor.new) }
    ensures kept { stop cursor.new ≡ stop cursor.old }
{
    let value = code::init(alloc, cursor, level)?;
    let close = expect(cursor, Sort::Semicolon, level)?;
    Ok(nodes::field(alloc, declared, name, Some(value), close)?)
}

/// A property or a method.
#[tactic(auto, using(crate::proofs::TypedLaws::none_outside, crate::proofs::TypedLaws::none_inside))]
fn no_field(
    alloc: Global,
    cursor: &mut Cursor<'_>,
    level: u32,
    place: Place<'_>,
    words: &[Modifier],
    declared: TypeTree,
    name: Token<'_>,
) -> Result<Declared, Stop>
    requires low { level ≤ 201 }
    ensures tree { Gives declared_of (reads (no_field (place_in place.entry) words.now declared (seen name.entry)) level (rest cursor.old)) result (rest cursor.new) }
    ensures kept { stop cursor.new ≡ stop cursor.old }
{
    match place {
        Place::Outside => {
            method(
                alloc,
                cursor,
                level,
                Place::Outside,
                words,
                declared,
                name,
                Bodied::Method,
            )
        }
        Place::Inside(is_interface, class) => {
            property_or_method(
                alloc,
                cursor,
                level,
                is_interface,
                class,
                words,
                declared,
                name,
            )
        }
    }
}

/// A property or a method of a class, or of an interface, whose name ends with the word.
#[tactic(auto, using(crate::proofs::TypedLaws::inside_law))]
fn property_or_method(
    alloc: Global,
    cursor: &mut Cursor<'_>,
    level: u32,
    is_interface: bool,
    class: &[u8],
    words: &[Modifier],
    declared: TypeTree,
    name: Token<'_>,
) -> Result<Declared, Stop>
    requires low { level ≤ 201 }
    ensures tree { Gives declared_of (reads (no_field (part.Inside is_interface class.now) words.now declared (seen name.entry)) level (rest cursor.old)) result (rest cursor.new) }
    ensures kept { stop cursor.new ≡ stop cursor.old }
{
    if let Some(_) = told(cursor, level, HeadKind::Property, words, Sort::OpenBrace)? {
        let accessors = accessors(alloc, cursor, level + 1)?;
        return Ok(nodes::property(alloc, declared, name, accessors)?);
    }
    let place = Place::Inside(is_interface, class);
    method(
        alloc,
        cursor,
        level,
        place,
        words,
        declared,
        name,
        bodied_of(is_interface),
    )
}

fn bodied_of(is_interface: bool) -> Bodied
    ensures { bodied_in result ≡ bodied is_interface }
{
    if is_interface {
        Bodied::InterfaceMethod
    } else {
        Bodied::Method
    }
}

fn owner_of(words: &[Modifier]) -> Owner
    ensures { owner_in result ≡ owner (async_in words.now) }
{
    match async_in(words) {
        None => Owner::Plain,
        Some(_) => Owner::Async,
    }
}

#[tactic(auto, using(crate::proofs::TypedLaws::method_law))]
fn method(
    alloc: Global,
    cursor: &mut Cursor<'_>,
    level: u32,
    place: Place<'_>,
    words: &[Modifier],
    declared: TypeTree,
    name: Token<'_>,
    bodied: Bodied,
) -> Result<Declared, Stop>
    requires low { level ≤ 201 }
    ensures tree { Gives declared_of (reads (typed_method (place_in place.entry) words.now declared (seen name.entry) (bodied_in bodied)) level (rest cursor.old)) result (rest cursor.new) }
    ensures kept { stop cursor.new ≡ stop cursor.old }
{
    expect(cursor, Sort::OpenParen, level)?;
    let parameters = parameters(alloc, cursor, level + 1, owner_of(words))?;
    let throws = throws(alloc, cursor, level)?;
    let body = body(alloc, cursor, level, bodied)?;
    Ok(nodes::method(alloc, declared, name, parameters, throws, body)?)
}

/// What follows the name of a creation method and `(`.
#[tactic(auto, using(crate::proofs::TypedLaws::creation_law))]
pub fn creation(
    alloc: Global,
    cursor: &mut Cursor<'_>,
    level: u32,
    name: NameTree,
) -> Result<Declared, Stop>
    requires low { level < 201 }
    ensures tree { Gives declared_of (file_reader (part.CreationOf name) level (rest cursor.old)) result (rest cursor.new) }
    ensures kept { stop cursor.new ≡ stop cursor.old }
{
    let parameters = parameters(alloc, cursor, level + 1, Owner::Plain)?;
    let throws = throws(alloc, cursor, level)?;
    let body = body(alloc, cursor, level, Bodied::Method)?;
    Ok(nodes::creation(name, parameters, throws, body))
}
