// The laws on the meaning. The bodies do nothing: the clauses are theorems.

ghost use Rattle.c_meaning.specs.Laws.{BlocksAreNumbered, DeadBlocksStay, FreedBlocksAreDead, RunsGoOn};

/// A trace only grows, and an end stays.
pub fn runs_go_on()
    ensures { RunsGoOn }
{}

/// A block that is freed is dead, and no store and no other freeing makes it live again.
pub fn freed_blocks_stay()
    ensures dead { FreedBlocksAreDead }
    ensures stays { DeadBlocksStay }
{}

/// Blocks have the numbers 1, 2, 3 in the order of their making.
pub fn blocks_are_numbered()
    ensures { BlocksAreNumbered }
{}
