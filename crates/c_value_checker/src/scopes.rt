// Names in scopes.

ghost use Rattle.std.specs.Prelude.{◌≡◌, OnOk, is_some, length, reverse};
ghost use Rattle.c_tree.specs.Env.{declare, found, found_in, innermost, opened, with_entry};
ghost use Rattle.c_tree.specs.Rules.{twice_here};
ghost use Rattle.c_value_checker.specs.Noted.{noted};
ghost use Rattle.c_value_checker.specs.Seen.{begin_of, closed, one_more, seen};

use crate::environment::Environment;
use crate::faults::Findings;
use c_tree::{Name, Sort};
use vg_base::Memory;

impl<'n> Environment<'n> {
    /// What a name stands for: the innermost scope that has it decides.
    pub fn find(&self, name: &Name) -> Option<Sort>
        ensures { result ≡ found (seen self.now).scopes name.now.text }
    {
        self.find_text(name.text.as_slice())
    }

    /// The same of a name by its text.
    #[tactic(auto, using(crate::proofs::ScopeLemmas::found_cut))]
    pub fn find_text(&self, text: &[u8]) -> Option<Sort>
        ensures { result ≡ found (seen self.now).scopes text.now }
    {
        match self.names.find(text) {
            None => None,
            Some(found) => Some(found.meaning),
        }
    }

    // How many names stand in front of the innermost scope.
    #[tactic(auto, using(crate::proofs::ScopeLemmas::last_first))]
    fn begin(&self) -> usize
        ensures { result ≡ begin_of (length self.now.names) (reverse self.now.counts.items) }
    {
        match self.counts.last() {
            None => 0,
            Some(count) => self.names.length().saturating_sub(*count),
        }
    }

    /// Whether the innermost scope has a name.
    #[tactic(auto, using(crate::proofs::ScopeLemmas::here_cut))]
    pub fn is_here(&self, name: &Name) -> bool
        ensures { result ≡ is_some (found_in (innermost (seen self.now).scopes) name.now.text) }
    {
        match self.names.find(name.text.as_slice()) {
            None => false,
            Some(found) => self.begin() <= found.position,
        }
    }

    // One more name in the innermost scope, which the table has already.
    #[tactic(auto, using(crate::proofs::ScopeLemmas::last_first))]
    fn count_name(&mut self) -> Result<(), Memory>
        ensures others { OnOk result (self.new ≡ record self.old { counts = self.new.counts }) }
        ensures counts { OnOk result (reverse self.new.counts.items ≡ one_more (reverse self.old.counts.items)) }
    {
        let Some(count) = self.counts.pop() else {
            return Ok(());
        };
        let Some(more) = count.checked_add(1) else {
            return Err(Memory);
        };
        match self.counts.push(more) {
            Ok(()) => Ok(()),
            Err(_) => Err(Memory),
        }
    }

    /// One more name in the innermost scope, by its text.
    #[tactic(auto, using(crate::proofs::ScopeLemmas::cut_more))]
    pub fn declare_text(&mut self, text: &'n [u8], sort: Sort) -> Result<(), Memory>
        ensures { OnOk result (seen self.new ≡ record (seen self.old) { scopes = with_entry (seen self.old).scopes (record { name = text.now; sort = sort }) }) }
    {
        self.names.push(text, sort)?;
        self.count_name()
    }

    /// One more name in the innermost scope.
    pub fn declare(&mut self, name: &'n Name, sort: Sort) -> Result<(), Memory>
        ensures { OnOk result (seen self.new ≡ declare (seen self.old) name.now sort) }
    {
        self.declare_text(name.text.as_slice(), sort)
    }

    /// A new scope in all others.
    #[tactic(auto, using(crate::proofs::ScopeLemmas::last_first))]
    pub fn open(&mut self) -> Result<(), Memory>
        ensures { OnOk result (seen self.new ≡ opened (seen self.old)) }
    {
        match self.counts.push(0) {
            Ok(()) => Ok(()),
            Err(_) => Err(Memory),
        }
    }

    /// The innermost scope ends.
    #[tactic(auto, using(crate::proofs::ScopeLemmas::last_first, crate::proofs::ScopeLemmas::cut_closed))]
    pub fn close(&mut self)
        ensures { seen self.new ≡ closed (seen self.old) }
    {
        let Some(count) = self.counts.pop() else {
            return;
        };
        let left = self.names.length().saturating_sub(count);
        self.names.truncate(left);
    }

    /// Notes a name that the innermost scope has already.
    pub fn check_new(&self, findings: &mut Findings, name: &Name)
        ensures { findings.new ≡ noted findings.old (twice_here (seen self.now) name.now) }
    {
        if self.is_here(name) {
            findings.twice(name);
        }
    }
}
