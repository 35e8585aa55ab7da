// Which fault comes first.

ghost use Rattle.std.specs.Prelude.{◌≡◌, [], ◌∷◌};
ghost use Rattle.c_tree.specs.Faults as spec;
ghost use Rattle.c_value_checker.specs.Noted.{begun, known_from, noted};

use c_tree::{Cause, Fault, Name, Span};

/// The first fault so far, of those that are known once the token at `last` was taken. None is known before `floor`.
#[derive(Clone, Copy)]
pub struct Findings {
    pub first: Option<Fault>,
    pub last: u32,
    pub floor: u64,
}

fn rank(cause: Cause) -> u8
    ensures { result ≡ spec.rank cause }
{
    match cause {
        Cause::Token => 1,
        Cause::Syntax => 2,
        Cause::Undeclared => 3,
        Cause::Misfit => 4,
        Cause::Twice => 5,
        Cause::Large => 6,
    }
}

/// By place, and then by the order of causes.
pub fn is_before(a: Fault, b: Fault) -> bool
    ensures { result ≡ spec.is_before a b }
{
    a.place < b.place || (a.place == b.place && rank(a.cause) < rank(b.cause))
}

/// Keeps the earlier of what is there and this, if it is known once the token at `last` was taken.
pub fn keep(least: &mut Option<Fault>, last: u32, fault: Fault)
    ensures { least.new ≡ spec.least least.old (spec.known last (fault ∷ [])) }
{
    if fault.since > last {
        return;
    }
    match *least {
        None => *least = Some(fault),
        Some(there) => {
            if is_before(fault, there) {
                *least = Some(fault);
            }
        }
    }
}

// From where on a fault is known, if that is not behind `last`.
fn known_since(floor: u64, last: u32, since: u32) -> Option<u32>
    ensures { result ≡ known_from floor last since }
{
    if floor <= since as u64 {
        if since <= last { Some(since) } else { None }
    } else if floor <= last as u64 {
        Some(floor as u32)
    } else {
        None
    }
}

impl Findings {
    /// What is there, and nothing further yet.
    pub fn new(first: Option<Fault>, last: u32) -> Findings
        ensures { result ≡ record { first = first; last = last; floor = 0 } }
    {
        Findings {
            first,
            last,
            floor: 0,
        }
    }

    /// One more fault.
    pub fn note(&mut self, place: u32, cause: Cause, since: u32)
        ensures { self.new ≡ noted self.old (spec.fault cause place since) }
    {
        if let Some(since) = known_since(self.floor, self.last, since) {
            keep(
                &mut self.first,
                self.last,
                Fault {
                    place,
                    cause,
                    since,
                },
            );
        }
    }

    /// What is noted from now on is not known by the token that begins at `start`. Gives the floor before.
    pub fn begin(&mut self, start: u32) -> u64
        ensures before { result ≡ self.old.floor }
        ensures now { self.new ≡ begun self.old start }
    {
        let before = self.floor;
        let behind = start as u64 + 1;
        if before < behind {
            self.floor = behind;
        }
        before
    }

    /// A part does not fit, which is known by the token behind it.
    pub fn misfit(&mut self, span: Span)
        ensures { self.new ≡ noted self.old (spec.misfit span) }
    {
        self.note(span.start, Cause::Misfit, span.end);
    }

    /// Nothing declares a name.
    pub fn undeclared(&mut self, name: &Name)
        ensures { self.new ≡ noted self.old (spec.undeclared name.now) }
    {
        self.note(name.span.start, Cause::Undeclared, name.span.start);
    }

    /// A scope has a name already.
    pub fn twice(&mut self, name: &Name)
        ensures { self.new ≡ noted self.old (spec.twice name.now) }
    {
        self.note(name.span.start, Cause::Twice, name.span.start);
    }
}
