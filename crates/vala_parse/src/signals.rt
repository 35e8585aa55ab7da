// Declarations that a word begins and that have no declarations in them: delegates, constants, destructors, signals and `construct`.

ghost use Rattle.std.specs.Prelude.{◌≡◌, ◌<◌, ◌≤◌, IfOk};
ghost use Rattle.vala_cursor.specs.Ahead.{rest, stop};
ghost use Rattle.vala_cursor.specs.Gets.{Gives, seen};
ghost use Rattle.vala_declaration_nodes.specs.Views.{declared_of};
ghost use Rattle.vala_file_grammar.specs.Parts as part;
ghost use Rattle.vala_file_grammar.specs.Read.{file_reader};
ghost use Rattle.vala_file_grammar.specs.Trees as trees;
ghost use Rattle.vala_parse.specs.Declarations.{constant_behind, constant_named, construction_of, delegate_behind, delegate_named, signal_named};
ghost use Rattle.vala_parse.specs.Steps.{reads};

use crate::bodies::body;
use crate::code;
use crate::lists::throws;
use crate::next::{expect, is_next, is_next_among};
use crate::parameters::parameters;
use crate::places::{Bodied, Owner};
use crate::words::expect_name;
use sqlite_items::Items;
use std::alloc::{AllocError, Global};
use vala_cursor::{Cursor, Flaw, Stop};
use vala_declaration_nodes as nodes;
use vala_declaration_nodes::{Declared, signature};
use vala_grammar::Sort;
use vala_lexer::Token;
use vala_tree::{Parameter, TypeTree};

/// What follows `delegate`.
#[tactic(auto, using(crate::proofs::WordLaws::delegate_law))]
pub fn delegate(
    alloc: Global,
    cursor: &mut Cursor<'_>,
    level: u32,
    token: Token<'_>,
) -> Result<Declared, Stop>
    ensures tree { Gives declared_of (file_reader (part.DelegateOf (seen token.entry)) level (rest cursor.old)) result (rest cursor.new) }
    ensures kept { stop cursor.new ≡ stop cursor.old }
{
    let returned = code::any_type(alloc, cursor, level)?;
    delegate_named(alloc, cursor, level, token, returned)
}

#[tactic(auto, using(crate::proofs::WordLaws::delegate_named_law))]
fn delegate_named(
    alloc: Global,
    cursor: &mut Cursor<'_>,
    level: u32,
    token: Token<'_>,
    returned: TypeTree,
) -> Result<Declared, Stop>
    ensures tree { Gives declared_of (reads (delegate_named (seen token.entry) returned) level (rest cursor.old)) result (rest cursor.new) }
    ensures kept { stop cursor.new ≡ stop cursor.old }
{
    if is_next_among(cursor, &[Sort::Star, Sort::Less]) {
        return Err(Stop::Flawed(Flaw::LeftOut));
    }
    let name = expect(cursor, Sort::Identifier, level)?;
    expect(cursor, Sort::OpenParen, level)?;
    delegate_behind(alloc, cursor, level, token, returned, name)
}

#[tactic(auto, using(crate::proofs::WordLaws::delegate_behind_law))]
fn delegate_behind(
    alloc: Global,
    cursor: &mut Cursor<'_>,
    level: u32,
    token: Token<'_>,
    returned: TypeTree,
    name: Token<'_>,
) -> Result<Declared, Stop>
    requires low { level < 201 }
    ensures tree { Gives declared_of (reads (delegate_behind (seen token.entry) returned (seen name.entry)) level (rest cursor.old)) result (rest cursor.new) }
    ensures kept { stop cursor.new ≡ stop cursor.old }
{
    let parameters = parameters(alloc, cursor, level + 1, Owner::Plain)?;
    let throws = throws(alloc, cursor, level)?;
    let close = expect(cursor, Sort::Semicolon, level)?;
    Ok(delegate_node(alloc, token, returned, name, parameters, throws, close)?)
}

/// The delegate with a signature of these parts.
fn delegate_node(
    alloc: Global,
    token: Token<'_>,
    returned: TypeTree,
    name: Token<'_>,
    parameters: Items<Parameter>,
    throws: Items<TypeTree>,
    close: Token<'_>,
) -> Result<Declared, AllocError>
    ensures { IfOk result (λ d. declared_of d ≡ trees.delegate (seen token.entry) (trees.signature returned (seen name.entry) parameters throws) (seen close.entry)) }
{
    let signature = signature(alloc, returned, name, parameters, throws)?;
    Ok(nodes::delegate(token, signature, close))
}

/// What follows `const`.
#[tactic(auto, using(crate::proofs::WordLaws::constant_law))]
pub fn constant(
    alloc: Global,
    cursor: &mut Cursor<'_>,
    level: u32,
    token: Token<'_>,
) -> Result<Declared, Stop>
    requires low { level ≤ 201 }
    ensures tree { Gives declared_of (file_reader (part.ConstantOf (seen token.entry)) level (rest cursor.old)) result (rest cursor.new) }
    ensures kept { stop cursor.new ≡ stop cursor.old }
{
    let declared = code::any_type(alloc, cursor, level)?;
    constant_named(alloc, cursor, level, token, declared)
}

#[tactic(auto, using(crate::proofs::WordLaws::constant_named_law))]
fn constant_named(
    alloc: Global,
    cursor: &mut Cursor<'_>,
    level: u32,
    token: Token<'_>,
    declared: TypeTree,
) -> Result<Declared, Stop>
    requires low { level ≤ 201 }
    ensures tree { Gives declared_of (reads (constant_named (seen token.entry) declared) level (rest cursor.old)) result (rest cursor.new) }
    ensures kept { stop cursor.new ≡ stop cursor.old }
{
    if is_next_among(cursor, &[Sort::Star, Sort::Less]) {
        return Err(Stop::Flawed(Flaw::LeftOut));
    }
    let name = expect(cursor, Sort::Identifier, level)?;
    expect(cursor, Sort::Assign, level)?;
    constant_behind(alloc, cursor, level, token, declared, name)
}

#[tactic(auto, using(crate::proofs::WordLaws::constant_behind_law))]
fn constant_behind(
    alloc: Global,
    cursor: &mut Cursor<'_>,
    level: u32,
    token: Token<'_>,
    declared: TypeTree,
    name: Token<'_>,
) -> Result<Declared, Stop>
    requires low { level ≤ 201 }
    ensures tree { Gives declared_of (reads (constant_behind (seen token.entry) declared (seen name.entry)) level (rest cursor.old)) result (rest cursor.new) }
    ensures kept { stop cursor.new ≡ stop cursor.old }
{
    if is_next(cursor, Sort::OpenBrace) {
        return Err(Stop::Flawed(Flaw::LeftOut));
    }
    let value = code::whole(alloc, cursor, level)?;
    let close = expect(cursor, Sort::Semicolon, level)?;
    Ok(nodes::constant(alloc, token, declared, name, value, close)?)
}

/// What follows `~` in the class whose name ends with the word.
#[tactic(auto, using(crate::proofs::WordLaws::destructor_law))]
pub fn destructor(
    alloc: Global,
    cursor: &mut Cursor<'_>,
    level: u32,
    class: &[u8],
    token: Token<'_>,
) -> Result<Declared, Stop>
    requires low { level ≤ 201 }
    ensures tree { Gives declared_of (file_reader (part.DestructorOf class.now (seen token.entry)) level (rest cursor.old)) result (rest cursor.new) }
    ensures kept { stop cursor.new ≡ stop cursor.old }
{
    let name = expect_name(cursor, class, level)?;
    expect(cursor, Sort::OpenParen, level)?;
    expect(cursor, Sort::CloseParen, level + 1)?;
    let body = code::block(alloc, cursor, level)?;
    Ok(nodes::destructor(alloc, token, name, body)?)
}

/// What follows `signal`.
#[tactic(auto, using(crate::proofs::WordLaws::signal_law))]
pub fn signal(
    alloc: Global,
    cursor: &mut Cursor<'_>,
    level: u32,
    token: Token<'_>,
) -> Result<Declared, Stop>
    ensures tree { Gives declared_of (file_reader (part.SignalOf (seen token.entry)) level (rest cursor.old)) result (rest cursor.new) }
    ensures kept { stop cursor.new ≡ stop cursor.old }
{
    if is_next_among(cursor, &[Sort::Owned, Sort::Unowned, Sort::Identifier]) {
        return Err(Stop::Flawed(Flaw::LeftOut));
    }
    expect(cursor, Sort::Void, level)?;
    signal_named(alloc, cursor, level, token)
}

#[tactic(auto, using(crate::proofs::WordLaws::signal_named_law))]
fn signal_named(
    alloc: Global,
    cursor: &mut Cursor<'_>,
    level: u32,
    token: Token<'_>,
) -> Result<Declared, Stop>
    ensures tree { Gives declared_of (reads (signal_named (seen token.entry)) level (rest cursor.old)) result (rest cursor.new) }
    ensures kept { stop cursor.new ≡ stop cursor.old }
{
    if is_next_among(cursor, &[Sort::Star, Sort::Less]) {
        return Err(Stop::Flawed(Flaw::LeftOut));
    }
    let name = expect(cursor, Sort::Identifier, level)?;
    expect(cursor, Sort::OpenParen, level)?;
    let parameters = parameters(alloc, cursor, level + 1, Owner::Signal)?;
    let body = body(alloc, cursor, level, Bodied::Method)?;
    Ok(nodes::signal(alloc, token, name, parameters, body)?)
}

/// What follows `construct`.
#[tactic(auto, unfolding(crate::specs::Declarations::construction_of))]
pub fn construction(
    alloc: Global,
    cursor: &mut Cursor<'_>,
    level: u32,
    token: Token<'_>,
) -> Result<Declared, Stop>
    requires low { level ≤ 201 }
    ensures tree { Gives declared_of (construction_of (seen token.entry) level (rest cursor.old)) result (rest cursor.new) }
    ensures kept { stop cursor.new ≡ stop cursor.old }
{
    let body = code::block(alloc, cursor, level)?;
    Ok(nodes::construction(token, body))
}
