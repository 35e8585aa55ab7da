// Names of declarations.

ghost use Rattle.std.specs.Prelude.{◌≡◌, ◌<◌, Some, None};
ghost use Rattle.vala_cursor.specs.Ahead.{rest, stop};
ghost use Rattle.vala_cursor.specs.Gets.{Gives, seen};
ghost use Rattle.vala_file_grammar.specs.Heads.{async_in};
ghost use Rattle.vala_parse.specs.Names.{but_main, name_of};

use crate::heads::async_in;
use crate::next::{expect, is_next, is_next_among};
use crate::words::is_name;
use static_rules::Rule;
use vala_cursor::{Cursor, Flaw, Stop};
use vala_grammar::Sort;
use vala_lexer::Token;
use vala_tree::Modifier;
use vg_base::Span;

/// The name of a declaration behind its type. It is not `main` where `async` is one of the words in front.
#[tactic(auto, unfolding(crate::specs::Names::name_of))]
pub fn declared_name<'t>(
    cursor: &mut Cursor<'t>,
    level: u32,
    words: &[Modifier],
) -> Result<Token<'t>, Stop>
    ensures token { Gives seen (name_of (async_in words.now) level (rest cursor.old)) result (rest cursor.new) }
    ensures kept { stop cursor.new ≡ stop cursor.old }
{
    if is_next_among(cursor, &[Sort::Star, Sort::Less]) {
        return Err(Stop::Flawed(Flaw::LeftOut));
    }
    match async_in(words) {
        None => expect(cursor, Sort::Identifier, level),
        Some(span) => name_but_main(cursor, level, span),
    }
}

#[tactic(auto, unfolding(crate::specs::Names::but_main, crate::specs::Steps::got), using(crate::proofs::KindTests::no_main))]
fn name_but_main<'t>(cursor: &mut Cursor<'t>, level: u32, span: Span) -> Result<Token<'t>, Stop>
    ensures token { Gives seen (but_main span level (rest cursor.old)) result (rest cursor.new) }
    ensures kept { stop cursor.new ≡ stop cursor.old }
{
    if is_name(cursor, b"main") {
        return Err(Stop::Flawed(Flaw::Earlier(Rule::U1, span)));
    }
    if is_next(cursor, Sort::Identifier) {
        return cursor.shift(0, level);
    }
    Err(Stop::Flawed(Flaw::Syntax))
}
