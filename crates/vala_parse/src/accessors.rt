// The accessors of a property.

ghost use Rattle.std.specs.Prelude.{◌≡◌, ◌<◌, ◌≤◌, [], IsOk, length};
ghost use Rattle.vala_cursor.specs.Ahead.{rest, stop};
ghost use Rattle.vala_cursor.specs.Gets.{Gets, Gives, seen};
ghost use Rattle.vala_nodes.specs.Seen.{seen_option};
ghost use Rattle.vala_declaration_nodes.specs.Views.{closed_of};
ghost use Rattle.vala_file_grammar.specs.Grammar.{getter, setter};
ghost use Rattle.vala_file_grammar.specs.Parts as part;
ghost use Rattle.vala_file_grammar.specs.Read.{file_reader};
ghost use Rattle.vala_parse.specs.Declarations.{construct_words, default_of, set_words, setter_words};
ghost use Rattle.vala_parse.specs.Steps.{reads};

use crate::bodies::body;
use crate::code;
use crate::heads::is_modifier_next;
use crate::next::{expect, is_next};
use crate::places::Bodied;
use crate::words::{expect_word, is_word};
use sqlite_items::Items;
use std::alloc::Global;
use vala_cursor::{Cursor, Flaw, Stop};
use vala_declaration_nodes as nodes;
use vala_declaration_nodes::Closed;
use vala_file_grammar::Special;
use vala_grammar::Sort;
use vala_lexer::Token;
use vala_tree::{Accessor, SetterWords};

/// What follows `{`, up to `}`.
#[tactic(auto, using(crate::proofs::AccessorLaws::accessors_law, vala_cursor::proofs::Steps::just))]
pub fn accessors(
    alloc: Global,
    cursor: &mut Cursor<'_>,
    level: u32,
) -> Result<Closed<Accessor>, Stop>
    requires low { level ≤ 201 }
    ensures tree { Gives closed_of (file_reader (part.Accessors []) level (rest cursor.old)) result (rest cursor.new) }
    ensures kept { stop cursor.new ≡ stop cursor.old }
{
    let mut list = Items::new(alloc);
    'accessors: while !is_next(cursor, Sort::New) {
        if is_next(cursor, Sort::CloseBrace) {
            let close = expect(cursor, Sort::CloseBrace, level)?.span;
            return Ok(Closed { list, close });
        }
        list.push(listed_accessor(alloc, cursor, level)?)?;
    }
    Err(Stop::Flawed(Flaw::LeftOut))
}

/// An accessor of a list, which has a token.
#[tactic(auto, using(crate::proofs::Progress::accessor_moves))]
fn listed_accessor(alloc: Global, cursor: &mut Cursor<'_>, level: u32) -> Result<Accessor, Stop>
    requires low { level ≤ 201 }
    ensures tree { Gets (file_reader part.AccessorOf level (rest cursor.old)) result (rest cursor.new) }
    ensures kept { stop cursor.new ≡ stop cursor.old }
    ensures shorter { IsOk result → length (rest cursor.new) < length (rest cursor.old) }
{
    let accessor = accessor(alloc, cursor, level)?;
    Ok(accessor)
}

#[tactic(auto, using(crate::proofs::AccessorLaws::accessor_law, vala_cursor::proofs::Steps::just), unfolding(crate::specs::Steps::got))]
fn accessor(alloc: Global, cursor: &mut Cursor<'_>, level: u32) -> Result<Accessor, Stop>
    requires low { level ≤ 201 }
    ensures tree { Gets (file_reader part.AccessorOf level (rest cursor.old)) result (rest cursor.new) }
    ensures kept { stop cursor.new ≡ stop cursor.old }
{
    if is_modifier_next(cursor) {
        let word = cursor.shift(0, level)?;
        return accessor_words(alloc, cursor, level, Some(word));
    }
    if is_next(cursor, Sort::Default) {
        let token = expect(cursor, Sort::Default, level)?;
        return default_value(alloc, cursor, level, token);
    }
    accessor_words(alloc, cursor, level, None)
}

#[tactic(auto, using(crate::proofs::AccessorLaws::default_law))]
fn default_value(
    alloc: Global,
    cursor: &mut Cursor<'_>,
    level: u32,
    token: Token<'_>,
) -> Result<Accessor, Stop>
    requires low { level ≤ 201 }
    ensures tree { Gets (reads (default_of (seen token.entry)) level (rest cursor.old)) result (rest cursor.new) }
    ensures kept { stop cursor.new ≡ stop cursor.old }
{
    expect(cursor, Sort::Assign, level)?;
    let value = code::whole(alloc, cursor, level)?;
    let close = expect(cursor, Sort::Semicolon, level)?;
    Ok(nodes::default_value(token, value, close))
}

#[tactic(auto, using(crate::proofs::AccessorLaws::accessor_words_law))]
fn accessor_words(
    alloc: Global,
    cursor: &mut Cursor<'_>,
    level: u32,
    word: Option<Token<'_>>,
) -> Result<Accessor, Stop>
    requires low { level ≤ 201 }
    ensures tree { Gets (file_reader (part.AccessorWords (seen_option word.entry)) level (rest cursor.old)) result (rest cursor.new) }
    ensures kept { stop cursor.new ≡ stop cursor.old }
{
    if is_next(cursor, Sort::Owned) {
        let owned = expect(cursor, Sort::Owned, level)?;
        let token = expect_word(cursor, Special::Get, level)?;
        return getter(alloc, cursor, level, word, Some(owned), token);
    }
    if is_word(cursor, Special::Get) {
        let token = expect_word(cursor, Special::Get, level)?;
        return getter(alloc, cursor, level, word, None, token);
    }
    setter_words(alloc, cursor, level, word)
}

#[tactic(auto, using(crate::proofs::AccessorLaws::getter_law))]
fn getter(
    alloc: Global,
    cursor: &mut Cursor<'_>,
    level: u32,
    word: Option<Token<'_>>,
    owned: Option<Token<'_>>,
    token: Token<'_>,
) -> Result<Accessor, Stop>
    requires low { level ≤ 201 }
    ensures tree { Gets (reads (getter {m = seen_option word.entry} (seen_option owned.entry) (seen token.entry)) level (rest cursor.old)) result (rest cursor.new) }
    ensures kept { stop cursor.new ≡ stop cursor.old }
{
    let body = body(alloc, cursor, level, Bodied::Accessing)?;
    Ok(nodes::getter(word, owned, token, body))
}

#[tactic(auto, using(crate::proofs::AccessorLaws::setter_words_law))]
fn setter_words(
    alloc: Global,
    cursor: &mut Cursor<'_>,
    level: u32,
    word: Option<Token<'_>>,
) -> Result<Accessor, Stop>
    requires low { level ≤ 201 }
    ensures tree { Gets (reads (setter_words (seen_option word.entry)) level (rest cursor.old)) result (rest cursor.new) }
    ensures kept { stop cursor.new ≡ stop cursor.old }
{
    if is_word(cursor, Special::Set) {
        let token = expect_word(cursor, Special::Set, level)?;
        return set_words(alloc, cursor, level, word, token);
    }
    let token = expect(cursor, Sort::Construct, level)?;
    construct_words(alloc, cursor, level, word, token)
}

/// `set`, and `construct` behind it if it stands there.
#[tactic(auto, using(crate::proofs::AccessorLaws::set_words_law))]
fn set_words(
    alloc: Global,
    cursor: &mut Cursor<'_>,
    level: u32,
    word: Option<Token<'_>>,
    token: Token<'_>,
) -> Result<Accessor, Stop>
    requires low { level ≤ 201 }
    ensures tree { Gets (reads (set_words (seen_option word.entry) (seen token.entry)) level (rest cursor.old)) result (rest cursor.new) }
    ensures kept { stop cursor.new ≡ stop cursor.old }
{
    if is_next(cursor, Sort::Construct) {
        let behind = expect(cursor, Sort::Construct, level)?;
        let words = SetterWords::SetConstruct(token.span, behind.span);
        return setter(alloc, cursor, level, word, token, words);
    }
    setter(
        alloc,
        cursor,
        level,
        word,
        token,
        SetterWords::Set(token.span),
    )
}

/// `construct`, and `set` behind it if it stands there.
#[tactic(auto, using(crate::proofs::AccessorLaws::construct_words_law))]
fn construct_words(
    alloc: Global,
    cursor: &mut Cursor<'_>,
    level: u32,
    word: Option<Token<'_>>,
    token: Token<'_>,
) -> Result<Accessor, Stop>
    requires low { level ≤ 201 }
    ensures tree { Gets (reads (construct_words (seen_option word.entry) (seen token.entry)) level (rest cursor.old)) result (rest cursor.new) }
    ensures kept { stop cursor.new ≡ stop cursor.old }
{
    if is_word(cursor, Special::Set) {
        let behind = expect_word(cursor, Special::Set, level)?;
        let words = SetterWords::ConstructSet(token.span, behind.span);
        return setter(alloc, cursor, level, word, token, words);
    }
    setter(
        alloc,
        cursor,
        level,
        word,
        token,
        SetterWords::Construct(token.span),
    )
}

#[tactic(auto, using(crate::proofs::AccessorLaws::setter_law))]
fn setter(
    alloc: Global,
    cursor: &mut Cursor<'_>,
    level: u32,
    word: Option<Token<'_>>,
    token: Token<'_>,
    words: SetterWords,
) -> Result<Accessor, Stop>
    requires low { level ≤ 201 }
    ensures tree { Gets (reads (setter {m = seen_option word.entry} (seen token.entry) words) level (rest cursor.old)) result (rest cursor.new) }
    ensures kept { stop cursor.new ≡ stop cursor.old }
{
    let body = body(alloc, cursor, level, Bodied::Accessing)?;
    Ok(nodes::setter(word, token, words, body))
}
