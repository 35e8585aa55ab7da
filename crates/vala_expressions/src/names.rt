// Names and types.

ghost use Rattle.std.specs.Prelude.{◌≡◌};
ghost use Rattle.vala_grammar.specs.Grammar.{type_behind};
ghost use Rattle.vala_grammar.specs.declared.parts.TypeName.TheVariants as type_name;
ghost use Rattle.vala_grammar.specs.Parts as part;
ghost use Rattle.vala_cursor.specs.Ahead.{rest, reads, stop};
ghost use Rattle.vala_cursor.specs.Gets.{Gets, seen_option};
ghost use Rattle.vala_grammar.specs.Read.{vala_reader};

use std::alloc::Global;
use vala_cursor::{Cursor, Flaw, Stop};
use vala_grammar::{Sort, TypeName};
use vala_lexer::Token;
use vala_nodes::names as nodes;
use vala_tree::{NameTree, TypeTree};
use vg_base::Span;

/// Words with dots between.
#[tactic(auto, using(crate::proofs::NameLaws::name_law, vala_cursor::proofs::Steps::just))]
pub fn name(alloc: Global, cursor: &mut Cursor<'_>, level: u32) -> Result<NameTree, Stop>
    ensures tree { Gets (vala_reader part.Name level (rest cursor.old)) result (rest cursor.new) }
    ensures kept { stop cursor.new ≡ stop cursor.old }
{
    let token = cursor.expect(Sort::Identifier, level)?;
    let first = nodes::one_word(alloc, token)?;
    name_more(alloc, cursor, level, first)
}

#[tactic(auto, using(crate::proofs::NameLaws::name_more_law, vala_cursor::proofs::Steps::just))]
fn name_more(
    alloc: Global,
    cursor: &mut Cursor<'_>,
    level: u32,
    first: NameTree,
) -> Result<NameTree, Stop>
    ensures tree { Gets (vala_reader (part.NameMore first) level (rest cursor.old)) result (rest cursor.new) }
    ensures kept { stop cursor.new ≡ stop cursor.old }
{
    let mut name = first;
    let mut level = level;
    'words: while cursor.is(Sort::Dot) {
        cursor.expect(Sort::Dot, level)?;
        let token = cursor.expect(Sort::Identifier, level)?;
        name = nodes::one_more_word(alloc, name, token)?;
        level += 1;
    }
    Ok(name)
}

/// A type.
#[tactic(auto, using(crate::proofs::NameLaws::any_type_law, vala_cursor::proofs::Steps::just))]
pub fn any_type(alloc: Global, cursor: &mut Cursor<'_>, level: u32) -> Result<TypeTree, Stop>
    ensures tree { Gets (vala_reader part.AnyType level (rest cursor.old)) result (rest cursor.new) }
    ensures kept { stop cursor.new ≡ stop cursor.old }
{
    if cursor.is_among(&[Sort::Owned, Sort::Unowned]) {
        let word = cursor.take_among(&[Sort::Owned, Sort::Unowned], level)?;
        return type_body(alloc, cursor, level, Some(word));
    }
    type_body(alloc, cursor, level, None)
}

/// A type behind the word in front of it.
#[tactic(auto, using(crate::proofs::NameLaws::type_body_law))]
pub fn type_body(
    alloc: Global,
    cursor: &mut Cursor<'_>,
    level: u32,
    word: Option<Token<'_>>,
) -> Result<TypeTree, Stop>
    ensures tree { Gets (vala_reader (part.TypeBody (seen_option word.entry)) level (rest cursor.old)) result (rest cursor.new) }
    ensures kept { stop cursor.new ≡ stop cursor.old }
{
    if cursor.is(Sort::Void) {
        let token = cursor.expect(Sort::Void, level)?;
        return Ok(nodes::void_type(word, token));
    }
    let name = name_in_type(alloc, cursor, level)?;
    match name {
        TypeName::Single(name) => single_behind(cursor, level, word, name),
        TypeName::Array(name, close) => array_behind(cursor, level, word, name, close),
    }
}

/// What follows a name in a type.
#[tactic(auto, using(crate::proofs::NameLaws::single_behind))]
fn single_behind(
    cursor: &mut Cursor<'_>,
    level: u32,
    word: Option<Token<'_>>,
    name: NameTree,
) -> Result<TypeTree, Stop>
    ensures tree { Gets (reads (type_behind (seen_option word.entry) (type_name.Single name)) level (rest cursor.old)) result (rest cursor.new) }
    ensures kept { stop cursor.new ≡ stop cursor.old }
{
    if !cursor.is(Sort::Question) {
        return Ok(nodes::single_type(word, name, None));
    }
    let mark = cursor.expect(Sort::Question, level)?.span;
    if !cursor.is(Sort::OpenBracket) {
        return Ok(nodes::single_type(word, name, Some(mark)));
    }
    cursor.expect(Sort::OpenBracket, level)?;
    if cursor.is(Sort::Comma) {
        return Err(Stop::Flawed(Flaw::LeftOut));
    }
    let close = cursor.expect(Sort::CloseBracket, level + 1)?.span;
    if !cursor.is(Sort::Question) {
        return Ok(nodes::array_type(word, name, Some(mark), close, None));
    }
    let behind = cursor.expect(Sort::Question, level)?.span;
    Ok(nodes::array_type(word, name, Some(mark), close, Some(behind)))
}

/// What follows `[]` behind a name in a type.
#[tactic(auto, using(crate::proofs::NameLaws::array_behind))]
fn array_behind(
    cursor: &mut Cursor<'_>,
    level: u32,
    word: Option<Token<'_>>,
    name: NameTree,
    close: Span,
) -> Result<TypeTree, Stop>
    ensures tree { Gets (reads (type_behind (seen_option word.entry) (type_name.Array name close)) level (rest cursor.old)) result (rest cursor.new) }
    ensures kept { stop cursor.new ≡ stop cursor.old }
{
    if !cursor.is(Sort::Question) {
        return Ok(nodes::array_type(word, name, None, close, None));
    }
    let behind = cursor.expect(Sort::Question, level)?.span;
    Ok(nodes::array_type(word, name, None, close, Some(behind)))
}

/// A name in a type, and `[]` behind it.
#[tactic(auto, using(crate::proofs::NameLaws::name_in_type_law, vala_cursor::proofs::Steps::just))]
pub fn name_in_type(alloc: Global, cursor: &mut Cursor<'_>, level: u32) -> Result<TypeName, Stop>
    ensures tree { Gets (vala_reader part.NameInType level (rest cursor.old)) result (rest cursor.new) }
    ensures kept { stop cursor.new ≡ stop cursor.old }
{
    let token = cursor.expect(Sort::Identifier, level)?;
    let first = nodes::one_word(alloc, token)?;
    name_in_type_more(alloc, cursor, level, first)
}

/// What follows the first word of a name in a type.
#[tactic(auto, using(crate::proofs::NameLaws::name_in_type_more_law, vala_cursor::proofs::Steps::just))]
pub fn name_in_type_more(
    alloc: Global,
    cursor: &mut Cursor<'_>,
    level: u32,
    first: NameTree,
) -> Result<TypeName, Stop>
    ensures tree { Gets (vala_reader (part.NameInTypeMore first) level (rest cursor.old)) result (rest cursor.new) }
    ensures kept { stop cursor.new ≡ stop cursor.old }
{
    let mut name = first;
    let mut level = level;
    'words: while cursor.is(Sort::Dot) {
        cursor.expect(Sort::Dot, level)?;
        let token = cursor.expect(Sort::Identifier, level)?;
        name = nodes::one_more_word(alloc, name, token)?;
        level += 1;
    }
    if !cursor.is(Sort::OpenBracket) {
        return Ok(TypeName::Single(name));
    }
    cursor.expect(Sort::OpenBracket, level)?;
    if cursor.is(Sort::Comma) {
        return Err(Stop::Flawed(Flaw::LeftOut));
    }
    let close = cursor.expect(Sort::CloseBracket, level + 1)?;
    Ok(TypeName::Array(name, close.span))
}
