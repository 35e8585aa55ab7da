// The real outside: the files of the current directory, and the standard streams. It tells neither files nor bytes.

ghost use Rattle.std.specs.Prelude.{◌≡◌, ◌≤◌, None};
ghost use Rattle.vg_base.specs.Outside.{Rose};

use std::alloc::Global;
use std::fs;
use std::io::{ErrorKind, Write};
use std::rt::Files;
use vg_base::{Folder, FolderFault, PutFault, Sink};

/// The files under the current directory.
#[derive(Drop)]
pub struct RealFolder<'a, R> {
    rt: &'a R,
    faults: u64,
    misses: u64,
}

impl<'a, R: Files + AllocGlobal> RealFolder<'a, R> {
    /// Nothing failed yet.
    pub fn new(rt: &'a R) -> Self
        ensures { ⟦<RealFolder<'a, R> as Folder>⟧.seen result ≡ record { files = None; calls = None; faults = 0; misses = 0 } }
    {
        RealFolder {
            rt,
            faults: 0,
            misses: 0,
        }
    }
}

impl<'a, R: Files + AllocGlobal> Folder for RealFolder<'a, R> {
    ghost seen = { λ f. record { files = None; calls = None; faults = f.faults; misses = f.misses } };

    ghost tells = { λ f h. h };

    fn read_file(&mut self, _alloc: Global, name: &str) -> Result<Vec<u8>, FolderFault> {
        match fs::read(self.rt, name) {
            Ok(bytes) => Ok(bytes),
            Err(error) => match error.kind() {
                ErrorKind::NotFound => {
                    self.misses = self.misses.saturating_add(1);
                    Err(FolderFault::Missing)
                }
                ErrorKind::OutOfMemory => Err(FolderFault::Memory),
                _ => {
                    self.faults = self.faults.saturating_add(1);
                    Err(FolderFault::Failed)
                }
            },
        }
    }

    fn write_file(&mut self, _alloc: Global, name: &str, bytes: &[u8]) -> Result<(), FolderFault> {
        match fs::write(self.rt, name, bytes) {
            Ok(()) => Ok(()),
            Err(error) => match error.kind() {
                ErrorKind::OutOfMemory => Err(FolderFault::Memory),
                _ => {
                    self.faults = self.faults.saturating_add(1);
                    Err(FolderFault::Failed)
                }
            },
        }
    }
}

/// A stream that bytes are written to.
#[derive(Drop)]
pub struct RealSink<W> {
    writer: W,
    faults: u64,
}

impl<W: Write> RealSink<W> {
    /// Nothing failed yet.
    pub fn new(writer: W) -> Self
        ensures { ⟦<RealSink<W> as Sink>⟧.seen result ≡ record { taken = None; faults = 0 } }
    {
        RealSink { writer, faults: 0 }
    }

    // A write that failed, unless memory ran out.
    fn refuse(&mut self, out_of_memory: bool) -> PutFault
        ensures counted { result ≡ PutFault.Failed → Rose self.old.faults self.new.faults }
        ensures grows { self.old.faults ≤ self.new.faults }
    {
        if out_of_memory {
            return PutFault::Memory;
        }
        self.faults = self.faults.saturating_add(1);
        PutFault::Failed
    }
}

impl<W: Write> Sink for RealSink<W> {
    ghost seen = { λ s. record { taken = None; faults = s.faults } };

    // A write that a signal interrupts is made again. One that takes nothing has failed.
    fn put(&mut self, _alloc: Global, bytes: &[u8]) -> Result<usize, PutFault> {
        if bytes.is_empty() {
            return Ok(0);
        }
        for _ in 0..u64::MAX {
            match self.writer.write(bytes) {
                Ok(0) => break,
                Ok(n) => return Ok(n),
                Err(error) if error.kind() == ErrorKind::Interrupted => {}
                Err(error) => return Err(self.refuse(error.kind() == ErrorKind::OutOfMemory)),
            }
        }
        Err(self.refuse(false))
    }
}
