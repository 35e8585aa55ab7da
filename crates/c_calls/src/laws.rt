// The law on the calls of a unit that was read. The body does nothing: the clause is a theorem.

ghost use Rattle.c_calls.specs.Laws.{UnitsHaveCode};

/// A unit that was read calls no function of the library that has no code.
pub fn units_have_code()
    ensures { UnitsHaveCode }
{}
