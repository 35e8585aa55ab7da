// Types.

ghost use Rattle.std.specs.Prelude.{◌≡◌, ◌≤◌, false, IfOk, None, Some};
ghost use Rattle.c_grammar.specs.Parts as part;
ghost use Rattle.c_nodes.specs.Rows.{row_of, stars_of, type_in_rows};
ghost use Rattle.c_cursor.specs.Gives.{reads, room, seen_by, state};
ghost use Rattle.c_parser.specs.Rows as rows;
ghost use Rattle.c_cursor.specs.State.{bad};
ghost use Rattle.c_nodes.specs.Seen.{seen};
ghost use Rattle.c_parser.specs.Pieces as piece;
ghost use Rattle.c_cursor.specs.Scopes.{names_of};

use c_cursor::{NoMemory, Parser, Set};
use c_lexer::{Keyword, Sign};
use c_nodes::Token;
use c_nodes::names::at;
use c_nodes::types::{Stars, is_void, type_of};
use c_tree::{CType, Span};

// Where tokens stand with more of them behind.
fn joined(row: Option<Span>, more: Option<Span>) -> Option<Span>
    ensures { result ≡ rows.joined row more }
{
    match row {
        None => more,
        Some(first) => match more {
            None => row,
            Some(last) => Some(Span {
                start: first.start,
                end: last.end,
            }),
        },
    }
}

/// `Consts`: any number of `const`, by where they stand.
#[tactic(auto, using(crate::proofs::ConstLaws::consts_laws))]
pub fn consts(parser: &mut Parser<'_>, level: u32) -> Option<Span>
    ensures tree { seen_by row_of (reads part.Consts level parser.old) ≡ Some (result, state parser.new) }
    ensures names { parser.new.names ≡ parser.old.names }
    ensures ends { parser.new.end ≡ parser.old.end }
    ensures stop { bad parser.new.cursor ≡ bad parser.old.cursor }
    ensures fewer { room (state parser.new) ≤ room (state parser.old) }
{
    let mut row = None;
    'consts: while let Some(token) = parser.accept(Set::Word(Keyword::Const), level) {
        row = joined(row, Some(at(token)));
    }
    row
}

/// No stars.
fn no_stars() -> Stars
    ensures { result ≡ rows.no_stars }
{
    Stars {
        count: 0,
        row: None,
    }
}

// A star behind others, and the `const` behind it.
#[tactic(auto, unfolding(crate::specs::Rows::star_behind))]
fn one_more(
    parser: &mut Parser<'_>,
    level: u32,
    stars: Stars,
    star: Token<'_>,
) -> Result<Stars, NoMemory>
    ensures tree { IfOk result (λ k. rows.star_behind parser.old.end (names_of parser.old.names) stars (seen star.entry) level (state parser.old) ≡ Some (k, state parser.new)) }
    ensures names { parser.new.names ≡ parser.old.names }
    ensures ends { parser.new.end ≡ parser.old.end }
    ensures stop { bad parser.new.cursor ≡ bad parser.old.cursor }
    ensures fewer { room (state parser.new) ≤ room (state parser.old) }
{
    let Some(count) = stars.count.checked_add(1) else {
        return Err(NoMemory);
    };
    let row = joined(stars.row, Some(at(star)));
    Ok(Stars {
        count,
        row: joined(row, consts(parser, level)),
    })
}

// The star that must stand there, if one must.
#[tactic(auto, using(crate::proofs::StarLaws::star_laws))]
fn first_star(parser: &mut Parser<'_>, level: u32, must: bool) -> Result<Stars, NoMemory>
    ensures tree { IfOk result (λ k. rows.stars_behind k (reads (part.Stars false) level parser.new) ≡ rows.stars_behind rows.no_stars (reads (part.Stars must) level parser.old)) }
    ensures names { parser.new.names ≡ parser.old.names }
    ensures ends { parser.new.end ≡ parser.old.end }
    ensures stop { bad parser.new.cursor ≡ bad parser.old.cursor }
{
    if !must {
        return Ok(no_stars());
    }
    let star = parser.expect(Set::Sign(Sign::Star), level);
    one_more(parser, level, no_stars(), star)
}

/// `Stars`: any number of `*`, each with any number of `const` behind it; one at least or not.
#[tactic(auto, using(crate::proofs::StarLaws::star_laws))]
pub fn stars(parser: &mut Parser<'_>, level: u32, must: bool) -> Result<Stars, NoMemory>
    ensures tree { IfOk result (λ k. seen_by stars_of (reads (part.Stars must) level parser.old) ≡ Some (k, state parser.new)) }
    ensures names { parser.new.names ≡ parser.old.names }
    ensures ends { parser.new.end ≡ parser.old.end }
    ensures stop { bad parser.new.cursor ≡ bad parser.old.cursor }
{
    let mut stars = first_star(parser, level, must)?;
    'stars: while let Some(star) = parser.accept(Set::Sign(Sign::Star), level) {
        stars = one_more(parser, level, stars, star)?;
    }
    Ok(stars)
}

/// `TypeRest`: what follows these `const` and this base of a type; a `*` must or not.
#[tactic(auto, unfolding(crate::specs::Pieces::type_rest))]
pub fn type_rest(
    parser: &mut Parser<'_>,
    level: u32,
    before: Option<Span>,
    base: Token<'_>,
    must: bool,
) -> Result<CType, NoMemory>
    ensures tree { IfOk result (λ c. piece.type_rest parser.old.end (names_of parser.old.names) before (seen base.entry) must level (state parser.old) ≡ Some (c, state parser.new)) }
    ensures names { parser.new.names ≡ parser.old.names }
    ensures ends { parser.new.end ≡ parser.old.end }
    ensures stop { bad parser.new.cursor ≡ bad parser.old.cursor }
{
    let behind = consts(parser, level);
    let stars = stars(parser, level, must)?;
    Ok(type_of(parser.alloc, before, base, behind, stars)?)
}

/// `TypeMore`: what follows these `const` and this base of a type, where there is something.
#[tactic(auto, unfolding(crate::specs::Pieces::type_more))]
pub fn type_more(
    parser: &mut Parser<'_>,
    level: u32,
    before: Option<Span>,
    base: Token<'_>,
) -> Result<CType, NoMemory>
    ensures tree { IfOk result (λ c. piece.type_more parser.old.end (names_of parser.old.names) before (seen base.entry) level (state parser.old) ≡ Some (c, state parser.new)) }
    ensures names { parser.new.names ≡ parser.old.names }
    ensures ends { parser.new.end ≡ parser.old.end }
    ensures stop { bad parser.new.cursor ≡ bad parser.old.cursor }
{
    let behind = consts(parser, level);
    let stars = stars(parser, level, behind.is_none())?;
    Ok(type_of(parser.alloc, before, base, behind, stars)?)
}

/// A base alone as a type.
pub fn base_alone(
    parser: &mut Parser<'_>,
    before: Option<Span>,
    base: Token<'_>,
) -> Result<CType, NoMemory>
    ensures tree { IfOk result (λ c. c ≡ type_in_rows before (seen base.entry) None rows.no_stars) }
    ensures same { state parser.new ≡ state parser.old }
    ensures names { parser.new.names ≡ parser.old.names }
    ensures ends { parser.new.end ≡ parser.old.end }
    ensures stop { bad parser.new.cursor ≡ bad parser.old.cursor }
{
    Ok(type_of(parser.alloc, before, base, None, no_stars())?)
}

/// `AnyType`: a type; whether a name that nothing declares is one, and whether it must be one that something can have.
#[tactic(auto, using(crate::proofs::TypeForms::any_type_law))]
pub fn any_type(
    parser: &mut Parser<'_>,
    level: u32,
    anyhow: bool,
    object: bool,
) -> Result<CType, NoMemory>
    ensures tree { IfOk result (λ c. reads (part.AnyType anyhow object) level parser.old ≡ Some (c, state parser.new)) }
    ensures names { parser.new.names ≡ parser.old.names }
    ensures ends { parser.new.end ≡ parser.old.end }
    ensures stop { bad parser.new.cursor ≡ bad parser.old.cursor }
{
    let before = consts(parser, level);
    let base = parser.expect(Set::Base(anyhow), level);
    type_rest(parser, level, before, base, object && is_void(base))
}

// The base of a type that begins with a word of its own, behind these `const`.
#[tactic(auto, unfolding(crate::specs::Rows::key_base))]
fn key_base<'t>(parser: &mut Parser<'t>, level: u32, before: Option<Span>) -> Token<'t>
    ensures tree { rows.key_base parser.old.end (names_of parser.old.names) before level (state parser.old) ≡ Some (seen result, state parser.new) }
    ensures names { parser.new.names ≡ parser.old.names }
    ensures ends { parser.new.end ≡ parser.old.end }
    ensures stop { bad parser.new.cursor ≡ bad parser.old.cursor }
{
    match before {
        Some(_) => parser.expect(Set::Base(true), level),
        None => parser.expect(Set::KeyBase, level),
    }
}

/// `KeyType`: a type of something that begins with a word of its own.
#[tactic(auto, using(crate::proofs::TypeForms::key_type_law))]
pub fn key_type(parser: &mut Parser<'_>, level: u32) -> Result<CType, NoMemory>
    ensures tree { IfOk result (λ c. reads part.KeyType level parser.old ≡ Some (c, state parser.new)) }
    ensures names { parser.new.names ≡ parser.old.names }
    ensures ends { parser.new.end ≡ parser.old.end }
    ensures stop { bad parser.new.cursor ≡ bad parser.old.cursor }
{
    let before = consts(parser, level);
    let base = key_base(parser, level, before);
    type_rest(parser, level, before, base, is_void(base))
}

/// `IntType`: a type that means `int`.
#[tactic(auto, using(crate::proofs::TypeForms::int_type_law))]
pub fn int_type(parser: &mut Parser<'_>, level: u32) -> Result<CType, NoMemory>
    ensures tree { IfOk result (λ c. reads part.IntType level parser.old ≡ Some (c, state parser.new)) }
    ensures names { parser.new.names ≡ parser.old.names }
    ensures ends { parser.new.end ≡ parser.old.end }
    ensures stop { bad parser.new.cursor ≡ bad parser.old.cursor }
{
    let before = consts(parser, level);
    let base = parser.expect(Set::IntBase, level);
    let behind = consts(parser, level);
    Ok(type_of(parser.alloc, before, base, behind, no_stars())?)
}

// Two stars.
#[tactic(auto, unfolding(crate::specs::Rows::two_stars))]
fn two_stars(parser: &mut Parser<'_>, level: u32) -> Result<Stars, NoMemory>
    ensures tree { IfOk result (λ k. rows.two_stars parser.old.end (names_of parser.old.names) level (state parser.old) ≡ Some (k, state parser.new)) }
    ensures names { parser.new.names ≡ parser.old.names }
    ensures ends { parser.new.end ≡ parser.old.end }
    ensures stop { bad parser.new.cursor ≡ bad parser.old.cursor }
{
    let first = parser.expect(Set::Sign(Sign::Star), level);
    let one = one_more(parser, level, no_stars(), first)?;
    let second = parser.expect(Set::Sign(Sign::Star), level);
    one_more(parser, level, one, second)
}

/// `TextsType`: a type that means `char **`.
#[tactic(auto, using(crate::proofs::TypeForms::texts_type_law))]
pub fn texts_type(parser: &mut Parser<'_>, level: u32) -> Result<CType, NoMemory>
    ensures tree { IfOk result (λ c. reads part.TextsType level parser.old ≡ Some (c, state parser.new)) }
    ensures names { parser.new.names ≡ parser.old.names }
    ensures ends { parser.new.end ≡ parser.old.end }
    ensures stop { bad parser.new.cursor ≡ bad parser.old.cursor }
{
    let before = consts(parser, level);
    let base = parser.expect(Set::CharBase, level);
    let behind = consts(parser, level);
    let stars = two_stars(parser, level)?;
    Ok(type_of(parser.alloc, before, base, behind, stars)?)
}
