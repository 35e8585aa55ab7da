// The laws on places. The bodies do nothing: the clauses are theorems.

ghost use Rattle.c_places.specs.Laws.{LocalsStandApart, TextsStandApart};

use c_lexer::tokens_cover;

/// The text literals of a unit that was read stand at places of their own, each behind the one before it.
pub fn texts_stand_apart()
    ensures { TextsStandApart }
{
    tokens_cover();
}

/// So do the names of the locals of each body.
pub fn locals_stand_apart()
    ensures { LocalsStandApart }
{
    tokens_cover();
}
