// The laws on heaps and on the blocks of runs. The bodies do nothing: the clauses are theorems.

ghost use Rattle.cell_heap.specs.Runs.{RunsAreFound, RunsAreStored};
ghost use Rattle.cell_heap.specs.States.{BlocksAreFound, CellsAreFound, CellsAreStored, BlocksAreNumbered, BlocksAreMade, BlocksAreAdded, BlocksAreFreed, FreedBlocksStay};
ghost use Rattle.cell_heap.specs.Texts.{TextsAreRead};

/// A live block of a run has its cells in the heap of the run.
pub fn blocks_are_found()
    ensures { BlocksAreFound }
{}

/// What stands at a place of a run stands there in its heap.
pub fn cells_are_found()
    ensures { CellsAreFound }
{}

/// What stands from a place of a run on stands there in its heap.
pub fn runs_are_found()
    ensures { RunsAreFound }
{}

/// A store of several cells to a run is one to its heap.
pub fn runs_are_stored()
    ensures { RunsAreStored }
{}

/// A text of a run is one in its heap.
pub fn texts_are_read()
    ensures { TextsAreRead }
{}

/// A store to a run is a store to its heap.
pub fn cells_are_stored()
    ensures { CellsAreStored }
{}

/// A making of unset cells in a run is one in its heap, under the same number.
pub fn blocks_are_made()
    ensures numbered { BlocksAreNumbered }
    ensures made { BlocksAreMade }
{}

/// Any live block that is added to a run stands last in its heap.
pub fn blocks_are_added()
    ensures { BlocksAreAdded }
{}

/// A freeing in a run is one in its heap.
pub fn blocks_are_freed()
    ensures { BlocksAreFreed }
{}

/// A number that was freed never answers again.
pub fn freed_blocks_stay()
    ensures { FreedBlocksStay }
{}
