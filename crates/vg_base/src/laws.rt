// The laws on runs and their ends. The bodies do nothing: the clauses are theorems.

ghost use Rattle.std.specs.Prelude.{◌≡◌, ◌≢◌, ℕ, List, Some};
ghost use Rattle.vg_base.specs.declared.event.CEnd.{CEnd};
ghost use Rattle.vg_base.specs.declared.event.CEnd.TheVariants.{Undefined};
ghost use Rattle.vg_base.specs.declared.event.Stream.{Stream};
ghost use Rattle.vg_base.specs.declared.event.UndefKind.{UndefKind};
ghost use Rattle.vg_base.specs.declared.event.UndefKind.TheVariants.{Freed};
ghost use Rattle.vg_base.specs.declared.event.VEnd.{VEnd};
ghost use Rattle.vg_base.specs.Headline.{Said, Meaning, Observed, observed, WithinLimits, Headline, events};
ghost use Rattle.vg_base.specs.Laws.{MatchedRunsAgree, AgreementComposes, AgreeInPart, Parts, printed_by, EndStays, EndsAreMates, BlocksAgree, BlocksGiveHeadline};
ghost use Rattle.vg_base.specs.Machine.{Machine, run_from};
ghost use Rattle.vg_base.specs.Run.{Run, IsRun, Limits, Agrees};
ghost use Rattle.vg_base.specs.World.{Mates};

/// Runs that go in step agree in both directions.
pub fn runs_that_match_agree()
    ensures { MatchedRunsAgree }
{}

/// A run that agrees with one of the same ends agrees with what that one agrees with.
pub fn agreement_composes()
    ensures { AgreementComposes }
{}

/// Runs that agree agree in their traces, in what they print on each stream, and in each other part of what they say.
pub fn prints_agree()
    ensures traces { AgreeInPart events }
    ensures prints { (s : Stream) → AgreeInPart (printed_by s) }
    ensures parts { (part : List Said → List Said) → Parts part → AgreeInPart part }
{}

/// An end has at most one mate. What has no meaning in C is a mate only as a use of what was freed.
pub fn mates_are_unique()
    ensures vala { (x y : VEnd) (z : CEnd) → Mates x z → Mates y z → x ≡ y }
    ensures c { (x : VEnd) (y z : CEnd) → Mates x y → Mates x z → y ≡ z }
    ensures undefined { (x : VEnd) (k : UndefKind) → k ≢ Freed → Mates x (Undefined k) → ⊥ }
{}

/// What agrees with a Vala run does nothing without a meaning, but for a use of what was freed.
pub fn nothing_is_undefined()
    ensures agreeing { (l : Limits) (X : Run Said VEnd) (Y : Run Said CEnd) → Agrees Mates l X Y → (m : ℕ) (k : UndefKind) → k ≢ Freed → Y.ended m ≢ Some (Undefined k) }
    ensures headline { (V : Observed VEnd) (C : Observed CEnd) → Headline V C → (m : ℕ) (k : UndefKind) → WithinLimits C m → k ≢ Freed → C.ended m ≢ Some (Undefined k) }
{}

/// The run of a machine is a run: what was said stays, and so does an end.
pub fn machines_run<S>()
    ensures vala { (M : Machine S Said VEnd) (s : S) → IsRun (run_from M s) }
    ensures c { (M : Machine S Said CEnd) (s : S) → IsRun (run_from M s) }
{}

/// Where the headline holds, both runs end in mates, however many steps each is followed.
pub fn one_end<S, T>()
    ensures staying { (V : Observed VEnd) (C : Observed CEnd) → EndStays C → Headline V C → EndsAreMates V C }
    ensures meanings { (V : Meaning S VEnd) (C : Meaning T CEnd) (x : S) (y : T) → Headline (observed V x) (observed C y) → EndsAreMates (observed V x) (observed C y) }
{}

/// Machines go in step from related states on, and so agree, if blocks of steps keep the relation.
pub fn blocks_agree<S, T>()
    ensures { BlocksAgree S T }
{}

/// A relation of states that blocks of steps keep gives the headline. A block is owed only within the limits.
pub fn blocks_give_headline<S, T>()
    ensures { BlocksGiveHeadline S T }
{}
