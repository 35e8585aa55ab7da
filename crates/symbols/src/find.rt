// What a name means at a place, and whether it may be used there.

ghost use Rattle.std.specs.Prelude.{◌≡◌, slice_get};
ghost use Rattle.symbols.specs.Search as spec;

use crate::kinds::Access;
use crate::table::{Names, Symbol};
use static_rules::{Refusal, Rule};
use vg_base::Span;

impl Names {
    /// The scopes of the namespaces in use in a file.
    fn in_use(&self, file: u32) -> &[u32]
        ensures { result.now ≡ spec.in_use self.now file }
    {
        match self.uses.get(file as usize) {
            Some(scopes) => scopes.as_slice(),
            None => &[1],
        }
    }

    /// The only declaration of a name in scopes that are looked at together.
    #[tactic(auto, using(crate::proofs::TableLemmas::met_none, crate::proofs::TableLemmas::met_same, crate::proofs::TableLemmas::met_other, crate::proofs::TableLemmas::met_one, crate::proofs::TableLemmas::met_nothing))]
    fn only_met(&self, scopes: &[u32], name: &[u8], place: u32) -> Result<usize, Rule>
        ensures { result ≡ spec.one_meaning (spec.only (spec.met self.now name.now place scopes.now)) }
    {
        let mut only: Option<usize> = None;
        for scope in scopes {
            if let Some(found) = self.first_in(*scope, name, place) {
                if !is_same(only, found) {
                    return Err(Rule::N3);
                }
                only = Some(found);
            }
        }
        match only {
            Some(found) => Ok(found),
            None => Err(Rule::N1),
        }
    }

    /// What a name means.
    fn meaning(&self, scope: u32, name: &[u8], place: Span) -> Result<usize, Rule>
        ensures { result ≡ spec.one_meaning (spec.meaning_of self.now scope name.now place) }
    {
        match self.nearest_outward(scope, name, place.start) {
            Some(found) => Ok(found),
            None => self.only_met(self.in_use(place.file), name, place.start),
        }
    }

    /// Whether a scope stands in another.
    #[tactic(auto, using(crate::proofs::TableLemmas::any_there, crate::proofs::TableLemmas::any_seen, crate::proofs::TableLemmas::any_out, crate::proofs::TableLemmas::any_last))]
    fn is_inside(&self, scope: u32, home: u32) -> bool
        ensures { result ≡ spec.is_inside self.now scope home }
    {
        let mut at = scope;
        for step in 0..scope {
            if at == home {
                return true;
            }
            if at == 0 {
                return false;
            }
            at = self.outer_of(at);
        }
        at == home
    }

    /// Whether a scope is that of a class or of one that is derived from it.
    fn is_derived(&self, home: u32, scope: u32) -> bool
        ensures { result ≡ spec.is_derived self.now home scope }
    {
        scope == home || self.base_scopes(scope).contains(&home)
    }

    /// Whether a scope stands in the class with that scope or in one that is derived from it.
    #[tactic(auto, using(crate::proofs::TableLemmas::any_there, crate::proofs::TableLemmas::any_seen, crate::proofs::TableLemmas::any_out, crate::proofs::TableLemmas::any_last))]
    fn is_in_derived(&self, scope: u32, home: u32) -> bool
        ensures { result ≡ spec.is_in_derived self.now scope home }
    {
        let mut at = scope;
        for step in 0..scope {
            if self.is_derived(home, at) {
                return true;
            }
            if at == 0 {
                return false;
            }
            at = self.outer_of(at);
        }
        self.is_derived(home, at)
    }

    /// Whether a place in a scope may use a declaration.
    fn may_use(&self, scope: u32, symbol: &Symbol) -> bool
        ensures { result ≡ spec.may_use self.now scope symbol.now }
    {
        match symbol.access {
            Access::Public | Access::Internal => true,
            Access::Protected => self.is_in_derived(scope, symbol.scope),
            Access::Private => self.is_inside(scope, symbol.scope),
        }
    }

    /// A declaration, if a place in a scope may use it.
    pub(crate) fn usable(&self, scope: u32, found: usize) -> Result<u32, Rule>
        ensures { result ≡ spec.used_from self.now scope found (slice_get self.now.symbols found) }
    {
        match self.symbols.get(found) {
            None => Err(Rule::N1),
            Some(symbol) if self.may_use(scope, symbol) => Ok(found as u32),
            Some(_) => Err(Rule::N4),
        }
    }

    fn answer(&self, scope: u32, name: &[u8], place: Span) -> Result<u32, Rule>
        ensures { result ≡ spec.answer self.now scope name.now place }
    {
        let found = match self.meaning(scope, name, place) {
            Ok(found) => found,
            Err(rule) => return Err(rule),
        };
        self.usable(scope, found)
    }

    /// The declaration that a name means in a scope, at a place: unknown (N1), ambiguous (N3), and not to be used there (N4) are
    /// refused. The time is linear in the numbers of declarations and of scopes around.
    pub fn find(&self, scope: u32, name: &[u8], span: Span) -> Result<u32, Refusal>
        ensures { result ≡ spec.as_refusal span (spec.answer self.now scope name.now span) }
    {
        match self.answer(scope, name, span) {
            Ok(symbol) => Ok(symbol),
            Err(rule) => Err(Refusal {
                rule,
                phase: 4,
                span,
            }),
        }
    }
}

/// Whether nothing else was met so far.
fn is_same(only: Option<usize>, found: usize) -> bool
    ensures { result ≡ spec.is_same only found }
{
    match only {
        Some(there) => found == there,
        None => true,
    }
}
