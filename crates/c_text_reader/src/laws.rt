// The laws on the faults of texts. The bodies do nothing: the clauses are theorems.

ghost use Rattle.c_text_reader.specs.Laws.{FaultsAreKnown, TokensAreInOrder};

use c_lexer::tokens_cover;

/// The tokens of a text are in order.
pub fn tokens_are_in_order()
    ensures { TokensAreInOrder }
{
    tokens_cover();
}

/// Each fault of a unit is known by the end of its text.
pub fn faults_are_known()
    ensures { FaultsAreKnown }
{}
