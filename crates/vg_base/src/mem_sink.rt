// Sinks that keep in memory what they take. They tell everything.

ghost use Rattle.std.specs.Prelude.{◌≡◌, ◌<◌, ◌++◌, [], OnOk, OnErr};
ghost use Rattle.vg_base.specs.Memory.{MemPuts, GoodPuts, tell_sink, tell_taken};
ghost use Rattle.vg_base.specs.Outside.{IsPut};

use crate::event::Memory;
use crate::memory::is_listed;
use crate::outside::{PutFault, Sink};
use std::alloc::Global;
use std::marker::Model;

/// A sink in memory that takes each piece whole.
#[derive(Drop)]
pub struct GoodSink {
    taken: Vec<u8>,
}

impl Model for GoodSink {
    ghost use Rattle.std.specs.Prelude.{List, ℕ};

    ghost Value = { List ℕ };

    ghost view = { λ s. s.taken.items };
}

/// A sink in memory of which the listed puts fail, counted from 1, and of which one put takes at most so many bytes.
#[derive(Drop)]
pub struct MemSink {
    taken: Vec<u8>,
    puts: u64,
    faults: u64,
    fails: Vec<u32>,
    most: usize,
}

impl Model for MemSink {
    ghost use Rattle.std.specs.Prelude.{◌<◌};
    ghost use Rattle.vg_base.specs.Memory.{MemSinkState};

    ghost Value = { MemSinkState };

    ghost view = { λ s. record { taken = s.taken.items; puts = s.puts; faults = s.faults; fails = s.fails.items; most = s.most } };

    ghost invariant = { λ s. 0 < s.most };
}

impl From<Memory> for PutFault {
    ghost use Rattle.std.specs.Prelude.{◌≡◌};
    ghost use Rattle.vg_base.specs.declared.outside.PutFault.TheVariants as put;

    ghost from_gives = { λ _ e. e ≡ put.Memory };

    fn from(_memory: Memory) -> PutFault {
        PutFault::Memory
    }
}

/// Adds the bytes at the end.
fn extend(taken: &mut Vec<u8>, bytes: &[u8]) -> Result<(), Memory>
    ensures ok { OnOk result (taken.new.items ≡ taken.old.items ++ bytes.now) }
    ensures err { OnErr result (taken.new.items ≡ taken.old.items) }
{
    taken.extend_from_slice(bytes).map_err(|_| Memory)
}

impl GoodSink {
    /// A sink that took nothing.
    pub fn new(alloc: Global) -> GoodSink
        ensures { result ≡ [] }
    {
        GoodSink {
            taken: Vec::new(alloc),
        }
    }

    /// The bytes that it took.
    pub fn taken(&self) -> &[u8]
        ensures { result.now ≡ self.now }
    {
        &self.taken
    }
}

impl Sink for GoodSink {
    ghost seen = { tell_taken };

    fn put(&mut self, _alloc: Global, bytes: &[u8]) -> Result<usize, PutFault>
        ensures is_put { IsPut (tell_taken self.old) bytes.now result (tell_taken self.new) }
        ensures exact { GoodPuts self.old bytes.now result self.new }
    {
        if bytes.is_empty() {
            return Ok(0);
        }
        extend(&mut self.taken, bytes)?;
        Ok(bytes.len())
    }
}

impl MemSink {
    /// A sink that took nothing.
    pub fn new(alloc: Global, fails: Vec<u32>, most: usize) -> MemSink
        requires { 0 < most }
        ensures { result ≡ record { taken = []; puts = 0; faults = 0; fails = fails.items; most = most } }
    {
        MemSink {
            taken: Vec::new(alloc),
            puts: 0,
            faults: 0,
            fails,
            most,
        }
    }

    /// The bytes that it took.
    pub fn taken(&self) -> &[u8]
        ensures { result.now ≡ self.now.taken }
    {
        &self.taken
    }
}

impl Sink for MemSink {
    ghost seen = { tell_sink };

    fn put(&mut self, _alloc: Global, bytes: &[u8]) -> Result<usize, PutFault>
        ensures is_put { IsPut (tell_sink self.old) bytes.now result (tell_sink self.new) }
        ensures exact { MemPuts self.old bytes.now result self.new }
    {
        if bytes.is_empty() {
            return Ok(0);
        }
        if is_listed(&self.fails, self.puts) {
            self.puts = self.puts.saturating_add(1);
            self.faults = self.faults.saturating_add(1);
            return Err(PutFault::Failed);
        }
        let count = self.most.min(bytes.len());
        extend(&mut self.taken, &bytes[..count])?;
        self.puts = self.puts.saturating_add(1);
        Ok(count)
    }
}
