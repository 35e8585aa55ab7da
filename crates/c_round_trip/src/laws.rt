// The law that joins printing and reading. The body does nothing: the clause is a theorem.

ghost use Rattle.c_round_trip.specs.Laws.{PrintedTextsAreRead};

use c_grammar::bytes_have_one_answer;

/// The text of a unit, within the limit, is read as that unit, apart from places.
pub fn printed_texts_are_read()
    ensures { PrintedTextsAreRead }
{
    bytes_have_one_answer();
}
