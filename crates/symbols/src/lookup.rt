// Names looked up in the table.

ghost use Rattle.std.specs.Prelude.{◌≡◌, ◌<◌, ◌≤◌, length, slice_get, OnSome};
ghost use Rattle.std.specs.Option.{option_copied};
ghost use Rattle.symbols.specs.Search as spec;

use crate::kinds::SymbolKind;
use crate::table::{MOST_SYMBOLS, Names, Scope, Symbol, Symbols};

/// Whether a name of this kind is seen in the scope in which it stands. Members of enums and error codes are named by their
/// types alone.
fn is_scoped(kind: SymbolKind) -> bool
    ensures { result ≡ spec.is_scoped kind }
{
    !matches!(kind, SymbolKind::EnumMember | SymbolKind::ErrorCode)
}

impl Symbol {
    /// Whether it has that name in that scope, and counts at that place.
    fn is_declared(&self, scope: u32, name: &[u8], place: u32) -> bool
        ensures { result ≡ spec.is_declared scope name.now place self.now }
    {
        self.scope == scope
            && is_scoped(self.kind)
            && self.since <= place
            && self.name.as_slice() == name
    }
}

impl Symbols {
    /// How many there are.
    pub(crate) fn count(&self) -> usize
        ensures exact { result ≡ length self.now }
        ensures bounded { result ≤ MOST_SYMBOLS }
    {
        self.list.len()
    }

    pub(crate) fn get(&self, at: usize) -> Option<&Symbol>
        ensures value { option_copied result ≡ slice_get self.now at }
        ensures within { OnSome result (at < MOST_SYMBOLS) }
    {
        self.list.get(at)
    }

    /// The first declaration of that name in that scope.
    #[tactic(auto, using(crate::proofs::TableLemmas::first_step, crate::proofs::TableLemmas::first_here, crate::proofs::TableLemmas::first_none))]
    fn first(&self, scope: u32, name: &[u8], place: u32) -> Option<usize>
        ensures { result ≡ spec.first_of self.now scope name.now place }
    {
        for (i, symbol) in self.list.iter().enumerate() {
            if symbol.is_declared(scope, name, place) {
                return Some(i);
            }
        }
        None
    }
}

impl Names {
    fn scope_at(&self, scope: u32) -> Option<&Scope>
        ensures { option_copied result ≡ slice_get self.now.scopes scope }
    {
        self.scopes.get(scope as usize)
    }

    pub(crate) fn outer_of(&self, scope: u32) -> u32
        ensures { result ≡ spec.outer_of self.now scope }
    {
        match self.scope_at(scope) {
            Some(found) => found.outer,
            None => 0,
        }
    }

    pub(crate) fn base_scopes(&self, scope: u32) -> &[u32]
        ensures { result.now ≡ spec.base_scopes self.now scope }
    {
        match self.scope_at(scope) {
            Some(found) => found.bases.as_slice(),
            None => &[],
        }
    }

    pub(crate) fn first_in(&self, scope: u32, name: &[u8], place: u32) -> Option<usize>
        ensures { result ≡ spec.first_in self.now scope name.now place }
    {
        self.symbols.first(scope, name, place)
    }

    /// The first declaration in the first of these scopes that has one.
    #[tactic(auto, using(crate::proofs::TableLemmas::next_scope, crate::proofs::TableLemmas::this_scope, crate::proofs::TableLemmas::no_scope))]
    fn nearest(&self, scopes: &[u32], name: &[u8], place: u32) -> Option<usize>
        ensures { result ≡ spec.nearest self.now name.now place scopes.now }
    {
        for scope in scopes {
            if let Some(found) = self.first_in(*scope, name, place) {
                return Some(found);
            }
        }
        None
    }

    /// The declaration in a scope or, where it is that of a class, in the bases.
    fn nearest_at(&self, scope: u32, name: &[u8], place: u32) -> Option<usize>
        ensures { result ≡ spec.nearest self.now name.now place (spec.with_bases self.now scope) }
    {
        match self.first_in(scope, name, place) {
            Some(found) => Some(found),
            None => self.nearest(self.base_scopes(scope), name, place),
        }
    }

    /// The nearest declaration in the scopes outward.
    #[tactic(auto, using(crate::proofs::TableLemmas::found_there, crate::proofs::TableLemmas::all_seen, crate::proofs::TableLemmas::goes_out, crate::proofs::TableLemmas::at_last))]
    pub(crate) fn nearest_outward(&self, scope: u32, name: &[u8], place: u32) -> Option<usize>
        ensures { result ≡ spec.nearest self.now name.now place (spec.looked_in self.now scope) }
    {
        let mut at = scope;
        for step in 0..scope {
            if let Some(found) = self.nearest_at(at, name, place) {
                return Some(found);
            }
            if at == 0 {
                return None;
            }
            at = self.outer_of(at);
        }
        self.nearest_at(at, name, place)
    }
}
