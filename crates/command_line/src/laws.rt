// The laws on what words ask for. The bodies do nothing: the clauses are theorems.

ghost use Rattle.command_line.specs.Laws.{AskInBounds};

/// What words ask for is in the bounds of a call.
pub fn words_ask_in_bounds()
    ensures { AskInBounds }
{}
