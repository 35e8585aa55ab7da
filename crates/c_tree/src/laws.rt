// The laws on the dialect. The bodies do nothing: the clauses are theorems.

ghost use Rattle.c_tree.specs.Examples.{AcceptedTexts, RefusedTexts};
ghost use Rattle.c_tree.specs.Laws.{AnswersUnits, EachKindFitsItself, FaultsHaveALeast, LeastIsFirst, OneAnswer, OneUnit, SameKindsAreEqual, WellFormedUnitsAreSound};

/// Where tokens are one unit at most, bytes have one answer at most.
pub fn one_answer()
    ensures { OneUnit → OneAnswer }
{}

/// A unit is answered exactly where the bytes are one, and a well-formed unit keeps every rule.
pub fn units_are_answered()
    ensures answers { AnswersUnits }
    ensures sound { WellFormedUnitsAreSound }
{}

/// The least fault of a list is one of it, none of it comes before, and only an empty list has none.
pub fn least_fault_is_first()
    ensures first { LeastIsFirst }
    ensures found { FaultsHaveALeast }
{}

/// Kinds are compared rightly, and each fits itself.
pub fn kinds_are_compared()
    ensures equal { SameKindsAreEqual }
    ensures fits { EachKindFitsItself }
{}

/// These texts are units, and those are refused by that cause at that place.
pub fn texts_are_answered()
    ensures units { AcceptedTexts }
    ensures refusals { RefusedTexts }
{}
