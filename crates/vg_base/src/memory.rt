// What the folders and the sinks in memory share.

ghost use Rattle.std.specs.Prelude.{◌≡◌, ◌+◌, ◌==◌, IfOk};
ghost use Rattle.vg_base.specs.Memory.{is_listed as listed};

use crate::event::Memory;
use std::alloc::Global;

/// A copy of the bytes.
pub(crate) fn copy_of(alloc: Global, bytes: &[u8]) -> Result<Vec<u8>, Memory>
    ensures { IfOk result (λ v. v.items ≡ bytes.now) }
{
    Vec::from_slice(alloc, bytes).map_err(|_| Memory)
}

/// Whether this is the number of the call that comes after `before` others.
fn is_next(call: u32, before: u64) -> bool
    ensures { result ≡ (call == before + 1) }
{
    0 < call && u64::from(call) - 1 == before
}

/// Whether the list has the call that comes after `before` others.
pub(crate) fn is_listed(fails: &[u32], before: u64) -> bool
    ensures { result ≡ listed fails.now before }
{
    fails.iter().any(|call| is_next(*call, before))
}
