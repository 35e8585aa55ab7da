// The laws that join code to what it is the code of. The bodies do nothing: the clauses are theorems.

ghost use Rattle.c_code.specs.Looks.{HeapsAreSeen};
ghost use Rattle.c_code.specs.Laws.{CodeMeansTheSame, StepsAreTheSame};
ghost use Rattle.c_code.specs.Steady.{StepsAreSteady};

/// What is found in the heap of a run is what is found in the run.
pub fn heaps_are_seen()
    ensures { HeapsAreSeen }
{}

/// The code of a value comes to the value and the place that the value means.
pub fn code_means_the_same()
    ensures { CodeMeansTheSame }
{}

/// A step by the code of functions is the step of their unit.
pub fn steps_are_the_same()
    ensures { StepsAreTheSame }
{}

/// A step by code keeps the places of literals and static variables, and prints at most once.
pub fn steps_are_steady()
    ensures { StepsAreSteady }
{}
