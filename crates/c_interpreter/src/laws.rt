// Laws of the runs of a unit. The bodies do nothing: the clauses are theorems.

ghost use Rattle.c_interpreter.specs.Laws.{CountsEachStep, PrintsGrow};

/// A law: while no end came, a machine that was loaded and made n steps counts n.
pub fn counts_each_step()
    ensures { CountsEachStep }
{}

/// A law: what fewer steps print is a front of what more steps print.
pub fn prints_grow()
    ensures { PrintsGrow }
{}
