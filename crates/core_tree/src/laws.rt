// The laws on the meaning. The bodies do nothing: the clauses are theorems.

ghost use Rattle.std.specs.Prelude.{ℕ};
ghost use Rattle.core_tree.specs.State.{State};
ghost use Rattle.core_tree.specs.Runs.{DispatchesSourceThere, EndingsStandOnce, GoneOnce, IdsAreGivenOnce, IsAlwaysTidy, MadeBeforeGone, MakingsAreNumbered, OneEndingBegins, OneOwnerIsLost, OnePlaceIsGivenUp, OneStageAStep, OwnedIsLive, ThingsGoOn};
ghost use Rattle.core_tree.specs.Laws.{CallbacksOwnNothing, DispatchesReadySource, EmptiesOnePlace, LiteralsAreNoThings, NothingLivesAtFirst, RunsGoOn, ThingsAreNumbered};

/// A trace only grows, an end stays, and nothing lives before the first step.
pub fn runs_go_on()
    ensures stays { RunsGoOn }
    ensures opening { NothingLivesAtFirst }
{}

/// Text literals are no things, and what resumes an activation owns nothing.
pub fn only_things_are_owned()
    ensures literals { LiteralsAreNoThings }
    ensures callbacks { CallbacksOwnNothing }
{}

/// A step that gives up a place empties that one alone.
pub fn one_place_is_given_up()
    ensures { (s : State) (n : ℕ) → EmptiesOnePlace s n }
{}

/// Things are numbered 1, 2, 3 in the order of their making.
pub fn things_are_numbered()
    ensures { ThingsAreNumbered }
{}

/// What a turn of the main loop dispatches is a source that is there and ready.
pub fn ready_sources_are_dispatched()
    ensures { DispatchesReadySource }
{}

/// In every run the n-th thing that the trace says was made is the one with the serial n, and what is there stays what it is.
pub fn makings_are_numbered()
    ensures numbered { MakingsAreNumbered }
    ensures stay { ThingsGoOn }
    ensures stages { OneStageAStep }
{}

/// In every run a thing goes once, after it was made, and its ending stands in the work once while it is ending.
pub fn things_go_once()
    ensures gone { GoneOnce }
    ensures order { MadeBeforeGone }
    ensures endings { EndingsStandOnce }
    ensures one { OneEndingBegins }
{}

/// Between any two steps of every run a live thing has an owner, and one that is ending or gone has none.
/// In a step at most one thing has fewer owners than before, and it has one fewer. So at most one place is given up: there is a place without which
/// each thing had no more owners before the step than it has after. What moves from one place to another keeps its owners.
pub fn live_things_are_owned()
    ensures tidy { IsAlwaysTidy }
    ensures live { OwnedIsLive }
    ensures one { OneOwnerIsLost }
    ensures place { OnePlaceIsGivenUp }
{}

/// In every run no id of a handler or source is given twice, and what is dispatched is a source that is there.
pub fn ids_are_given_once()
    ensures ids { IdsAreGivenOnce }
    ensures dispatches { DispatchesSourceThere }
{}
