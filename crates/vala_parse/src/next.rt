// The next token, by its kind.

ghost use Rattle.std.specs.Prelude.{◌≡◌, ◌<◌, IsOk, length};
ghost use Rattle.vala_cursor.specs.Ahead.{rest, stop};
ghost use Rattle.vala_cursor.specs.Gets.{Gives, seen};
ghost use Rattle.vala_file_grammar.specs.Kinds.{sorted, one_of};
ghost use Rattle.vala_parse.specs.Steps.{got, next};

use vala_cursor::{Cursor, Stop};
use vala_grammar::Sort;
use vala_lexer::Token;

/// Whether the next token is of the sort.
#[tactic(auto, using(crate::proofs::KindTests::sorted_next))]
pub fn is_next(cursor: &Cursor<'_>, sort: Sort) -> bool
    ensures { result ≡ next (sorted sort) (rest cursor.now) }
{
    cursor.is(sort)
}

/// Whether the next token is of one of the sorts.
#[tactic(auto, using(crate::proofs::KindTests::one_of_next))]
pub fn is_next_among(cursor: &Cursor<'_>, sorts: &[Sort]) -> bool
    ensures { result ≡ next (one_of sorts.now) (rest cursor.now) }
{
    cursor.is_among(sorts)
}

/// Takes a token of the sort.
#[tactic(auto, using(crate::proofs::KindTests::sorted_got, crate::proofs::Progress::sort_moves))]
pub fn expect<'t>(cursor: &mut Cursor<'t>, sort: Sort, level: u32) -> Result<Token<'t>, Stop>
    ensures token { Gives seen (got (sorted sort) 0 level (rest cursor.old)) result (rest cursor.new) }
    ensures kept { stop cursor.new ≡ stop cursor.old }
    ensures shorter { IsOk result → length (rest cursor.new) < length (rest cursor.old) }
    ensures low { IsOk result → level < 201 }
{
    cursor.expect(sort, level)
}

/// Takes a token of the sort behind which one more item of a list stands.
#[tactic(auto, using(crate::proofs::KindTests::sorted_got, crate::proofs::Progress::sort_moves))]
pub fn expect_item<'t>(
    cursor: &mut Cursor<'t>,
    sort: Sort,
    items: usize,
    level: u32,
) -> Result<Token<'t>, Stop>
    ensures token { Gives seen (got (sorted sort) items level (rest cursor.old)) result (rest cursor.new) }
    ensures kept { stop cursor.new ≡ stop cursor.old }
    ensures shorter { IsOk result → length (rest cursor.new) < length (rest cursor.old) }
{
    cursor.expect_item(sort, items, level)
}

/// Takes a token of one of the sorts.
#[tactic(auto, using(crate::proofs::KindTests::one_of_got))]
pub fn expect_among<'t>(
    cursor: &mut Cursor<'t>,
    sorts: &[Sort],
    level: u32,
) -> Result<Token<'t>, Stop>
    ensures token { Gives seen (got (one_of sorts.now) 0 level (rest cursor.old)) result (rest cursor.new) }
    ensures kept { stop cursor.new ≡ stop cursor.old }
{
    cursor.take_among(sorts, level)
}
