// Why a block is not made.

/// Memory ran out, or the next number is the last one.
#[derive(Clone, Copy, Debug)]
pub enum HeapFault {
    Memory,
    Numbers,
}
