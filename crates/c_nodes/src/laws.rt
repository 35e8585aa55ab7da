// Laws. The bodies do nothing: the clauses are theorems.

ghost use Rattle.c_nodes.specs.Laws.{TypesAreInRows};

/// A type between tokens is that between the rows of these.
pub fn types_are_in_rows()
    ensures { TypesAreInRows }
{}
