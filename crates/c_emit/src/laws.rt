// The laws on programs and their units. The bodies do nothing: the clauses are theorems.

ghost use Rattle.c_emit.specs.Laws.{EmittedUnitsRun, EmittedUnitsStayWithin, ProgramsAreQuiet};

/// The unit of a program runs as the program does.
pub fn emitted_units_run()
    ensures { EmittedUnitsRun }
{}

/// And what is counted in its run stays within the limits.
pub fn emitted_units_stay_within()
    ensures { EmittedUnitsStayWithin }
{}

/// So does what is counted in the run of a program, which writes nothing to the stream of errors.
pub fn programs_are_quiet()
    ensures { ProgramsAreQuiet }
{}
