// The outside: a folder of files, sinks that take bytes, and how all bytes are put.

ghost use Rattle.std.specs.Prelude.{length};
ghost use Rattle.vg_base.specs.Outside.{PutsAll};

use crate::event::Bytes;
use std::alloc::Global;
use thiserror::Error;

/// Why a call on a folder was refused.
#[derive(Debug, Drop, Error)]
pub enum FolderFault {
    #[error("no such file")]
    Missing,
    #[error("the file cannot be used")]
    Failed,
    #[error("out of memory")]
    Memory,
}

/// Why a sink took nothing.
#[derive(Clone, Copy, Debug)]
pub enum PutFault {
    Failed,
    Memory,
}

/// A call on a folder, with its answer.
#[derive(Debug, Drop)]
pub enum Call {
    Read(Bytes, Result<Bytes, FolderFault>),
    Write(Bytes, Bytes, Result<(), FolderFault>),
}

/// How many bytes were taken before a put was refused, and why it was.
#[derive(Clone, Copy, Debug)]
pub struct SinkFault {
    pub taken: usize,
    pub cause: PutFault,
}

/// A folder of files that have names.
pub trait Folder {
    ghost use Rattle.vg_base.specs.Outside.{FolderView, IsRead, IsWrite, read_answer, write_answer, TellsCalls};

    /// What it tells of its files and calls, and its counts.
    ghost seen: { Self → FolderView };

    /// Gives the bytes of a file.
    fn read_file(&mut self, alloc: Global, name: &str) -> Result<Vec<u8>, FolderFault>
        ensures { IsRead (seen self.old) name.now (read_answer result) (seen self.new) };

    /// Makes a file of these bytes, in place of one that has the name.
    fn write_file(&mut self, alloc: Global, name: &str, bytes: &[u8]) -> Result<(), FolderFault>
        ensures { IsWrite (seen self.old) name.now bytes.now (write_answer result) (seen self.new) };

    /// A folder that tells its files tells its calls.
    ghost tells: { (x : Self) → TellsCalls (seen x) };
}

/// What takes bytes.
pub trait Sink {
    ghost use Rattle.vg_base.specs.Outside.{SinkView, IsPut};

    /// What it tells of the bytes that it took, and its count of faults.
    ghost seen: { Self → SinkView };

    /// Takes some of the bytes from the front, and says how many.
    fn put(&mut self, alloc: Global, bytes: &[u8]) -> Result<usize, PutFault>
        ensures { IsPut (seen self.old) bytes.now result (seen self.new) };
}

/// Puts all the bytes in order, or a front of them until a put is refused.
pub fn put_all<S: Sink>(alloc: Global, sink: &mut S, bytes: &[u8]) -> Result<(), SinkFault>
    ensures { PutsAll (S.seen sink.old) bytes.now result (S.seen sink.new) }
{
    let mut taken = 0;
    while taken < bytes.len() {
        match sink.put(alloc, &bytes[taken..]) {
            Ok(n) => taken += n,
            Err(cause) => return Err(SinkFault { taken, cause }),
        }
    }
    Ok(())
}
