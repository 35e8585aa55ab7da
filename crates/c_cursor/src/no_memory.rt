// Want of memory.

use std::alloc::{AllocError, AllocFailed};
use vg_base::Memory;

/// Memory ran out. The one answer that no clause ties to a cause.
#[derive(Clone, Copy, Debug)]
pub struct NoMemory;

impl From<AllocError> for NoMemory {
    fn from(_e: AllocError) -> NoMemory {
        NoMemory
    }
}

impl<T: Drop> From<AllocFailed<T>> for NoMemory {
    fn from(_e: AllocFailed<T>) -> NoMemory {
        NoMemory
    }
}

impl From<Memory> for NoMemory {
    fn from(_e: Memory) -> NoMemory {
        NoMemory
    }
}
