// What is known of the code that runs. The body does nothing: the clause is a theorem.

ghost use Rattle.c_steps.specs.Performs.{CodeIsSized};

/// The code of a unit's functions knows the cells of the places that take what calls give.
pub fn code_is_sized()
    ensures { CodeIsSized }
{}
