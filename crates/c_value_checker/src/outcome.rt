// What a rule says of a part, and what follows from it.

ghost use Rattle.std.specs.Prelude.{◌≡◌};
ghost use Rattle.c_tree.specs.Faults.{outcome};
ghost use Rattle.c_tree.specs.Kinds.{given_if};
ghost use Rattle.c_tree.specs.Words.{join};
ghost use Rattle.c_value_checker.specs.Noted.{noted};
ghost use Rattle.c_value_checker.specs.Outcomes.{faults_told, kind_told, told};

use crate::faults::Findings;
use c_tree::{Cause, Kind, Span};

/// What a rule says of a part.
#[derive(Clone, Copy)]
pub enum Outcome {
    Gives(Kind),
    /// It does not fit.
    Wrong,
    /// A struct lacks the field whose name begins there.
    Lacks(u32),
    /// A part of it has no kind.
    Silent,
}

impl Outcome {
    /// The kind of a part.
    pub fn kind(self) -> Option<Kind>
        ensures { result ≡ kind_told self }
    {
        match self {
            Outcome::Gives(kind) => Some(kind),
            _ => None,
        }
    }
}

/// A kind, where a test holds.
pub fn given_if(test: bool, kind: Kind) -> Outcome
    ensures { result ≡ told (outcome (given_if test kind)) }
{
    if test {
        Outcome::Gives(kind)
    } else {
        Outcome::Wrong
    }
}

/// A kind, or that there is none.
pub fn given(kind: Option<Kind>) -> Outcome
    ensures { result ≡ told (outcome kind) }
{
    match kind {
        None => Outcome::Wrong,
        Some(kind) => Outcome::Gives(kind),
    }
}

/// From the start of one to the end of another.
pub fn join(a: Span, b: Span) -> Span
    ensures { result ≡ join a b }
{
    Span {
        start: a.start,
        end: b.end,
    }
}

/// The kind of a part; what is wrong with it is noted.
pub fn settle(findings: &mut Findings, outcome: Outcome, span: Span) -> Option<Kind>
    ensures kind { result ≡ kind_told outcome }
    ensures fault { findings.new ≡ noted findings.old (faults_told outcome span) }
{
    match outcome {
        Outcome::Gives(kind) => Some(kind),
        Outcome::Wrong => {
            findings.misfit(span);
            None
        }
        Outcome::Lacks(place) => {
            findings.note(place, Cause::Undeclared, place);
            None
        }
        Outcome::Silent => None,
    }
}
