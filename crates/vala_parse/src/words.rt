// Names and texts that stand alone in their places, by their letters.

ghost use Rattle.std.specs.Prelude.{◌≡◌, [], ◌∷◌, IfOk, ◌<◌, length, IsOk};
ghost use Rattle.vala_cursor.specs.Ahead.{rest, stop};
ghost use Rattle.vala_cursor.specs.Gets.{Gives, seen};
ghost use Rattle.vala_file_grammar.specs.Grammar.{is_other_name};
ghost use Rattle.vala_file_grammar.specs.Kinds as spec;
ghost use Rattle.vala_file_grammar.specs.Kinds.{kind, named, word};
ghost use Rattle.vala_file_grammar.specs.declared.kind.Special.TheVariants as special;
ghost use Rattle.vala_parse.specs.Steps.{got, next};
ghost use Rattle.vala_parse.specs.Names.{c_text_of};

use crate::next::is_next;
use std::alloc::{AllocError, Global};
use text_values::text_value;
use vala_cursor::{Cursor, Flaw, Stop, same_sort};
use vala_file_grammar::{Special, is_c_identifier, letters, same_letters, special_of};
use vala_grammar::{Sort, sort_of};
use vala_lexer::Token;

fn number(word: Special) -> u8
    ensures { result ≡ spec.number word }
{
    match word {
        Special::Get => 0,
        Special::Set => 1,
        Special::CCode => 2,
        Special::HeaderFilename => 3,
        Special::CName => 4,
    }
}

#[tactic(auto, using(crate::proofs::KindTests::word_of_name, crate::proofs::KindTests::no_word))]
fn is_special(token: Token<'_>, wanted: Special) -> bool
    ensures { result ≡ word wanted (kind (seen token.entry)) }
{
    if !same_sort(sort_of(token.kind), Sort::Identifier) {
        return false;
    }
    match special_of(token.text) {
        Some(found) => number(wanted) == number(found),
        None => false,
    }
}

/// Whether the next token is the word.
#[tactic(auto, using(crate::proofs::KindTests::next_of_token))]
pub fn is_word(cursor: &Cursor<'_>, wanted: Special) -> bool
    ensures { result ≡ next (word wanted) (rest cursor.now) }
{
    match cursor.token() {
        Some(token) => is_special(token, wanted),
        None => false,
    }
}

/// Takes the word.
#[tactic(auto, unfolding(crate::specs::Steps::got), using(crate::proofs::Progress::shift_moves))]
pub fn expect_word<'t>(
    cursor: &mut Cursor<'t>,
    wanted: Special,
    level: u32,
) -> Result<Token<'t>, Stop>
    ensures token { Gives seen (got (word wanted) 0 level (rest cursor.old)) result (rest cursor.new) }
    ensures kept { stop cursor.new ≡ stop cursor.old }
    ensures shorter { IsOk result → length (rest cursor.new) < length (rest cursor.old) }
{
    if is_word(cursor, wanted) {
        cursor.shift(0, level)
    } else {
        Err(Stop::Flawed(Flaw::Syntax))
    }
}

/// Whether the next token is a name that is no attribute of the profile.
#[tactic(auto, using(crate::proofs::KindTests::other_attribute))]
pub fn is_other_attribute(cursor: &Cursor<'_>) -> bool
    ensures { result ≡ next (is_other_name (special.CCode ∷ [])) (rest cursor.now) }
{
    is_next(cursor, Sort::Identifier) && !is_word(cursor, Special::CCode)
}

/// Whether the next token is a name that is no argument of an attribute of the profile.
#[tactic(auto, using(crate::proofs::KindTests::other_argument))]
pub fn is_other_argument(cursor: &Cursor<'_>) -> bool
    ensures { result ≡ next (is_other_name (special.HeaderFilename ∷ special.CName ∷ [])) (rest cursor.now) }
{
    is_next(cursor, Sort::Identifier)
        && !(is_word(cursor, Special::HeaderFilename) || is_word(cursor, Special::CName))
}

fn is_named(token: Token<'_>, name: &[u8]) -> bool
    ensures { result ≡ named name.now (kind (seen token.entry)) }
{
    same_sort(sort_of(token.kind), Sort::Identifier) && same_letters(name, letters(token.text))
}

/// Whether the next token is a name with these letters.
#[tactic(auto, using(crate::proofs::KindTests::next_of_token))]
pub fn is_name(cursor: &Cursor<'_>, name: &[u8]) -> bool
    ensures { result ≡ next (named name.now) (rest cursor.now) }
{
    match cursor.token() {
        Some(token) => is_named(token, name),
        None => false,
    }
}

/// Takes a name with these letters.
#[tactic(auto, unfolding(crate::specs::Steps::got))]
pub fn expect_name<'t>(cursor: &mut Cursor<'t>, name: &[u8], level: u32) -> Result<Token<'t>, Stop>
    ensures token { Gives seen (got (named name.now) 0 level (rest cursor.old)) result (rest cursor.new) }
    ensures kept { stop cursor.new ≡ stop cursor.old }
{
    if is_name(cursor, name) {
        cursor.shift(0, level)
    } else {
        Err(Stop::Flawed(Flaw::Syntax))
    }
}

/// Whether the token is a text that is a C identifier.
#[tactic(auto, using(crate::proofs::KindTests::c_text_of_text, crate::proofs::KindTests::no_c_text))]
fn is_c_text(alloc: Global, token: Token<'_>) -> Result<bool, AllocError>
    ensures { IfOk result (λ b. b ≡ spec.is_c_text (kind (seen token.entry))) }
{
    if !same_sort(sort_of(token.kind), Sort::Text) {
        return Ok(false);
    }
    let value = text_value(alloc, token.text)?;
    Ok(is_c_identifier(value.as_slice()))
}

#[tactic(auto, using(crate::proofs::KindTests::next_of_token))]
fn is_c_text_next(alloc: Global, cursor: &Cursor<'_>) -> Result<bool, AllocError>
    ensures { IfOk result (λ b. b ≡ next spec.is_c_text (rest cursor.now)) }
{
    match cursor.token() {
        Some(token) => is_c_text(alloc, token),
        None => Ok(false),
    }
}

/// Takes a text that is a C identifier. Another text is left out.
#[tactic(auto, using(crate::proofs::KindTests::c_text_law, crate::proofs::Progress::shift_moves), unfolding(crate::specs::Steps::got))]
pub fn expect_c_text<'t>(
    alloc: Global,
    cursor: &mut Cursor<'t>,
    level: u32,
) -> Result<Token<'t>, Stop>
    ensures token { Gives seen (c_text_of level (rest cursor.old)) result (rest cursor.new) }
    ensures kept { stop cursor.new ≡ stop cursor.old }
    ensures shorter { IsOk result → length (rest cursor.new) < length (rest cursor.old) }
{
    if is_c_text_next(alloc, cursor)? {
        return cursor.shift(0, level);
    }
    if is_next(cursor, Sort::Text) {
        return Err(Stop::Flawed(Flaw::LeftOut));
    }
    Err(Stop::Flawed(Flaw::Syntax))
}
