//! The copy of a datagram that goes into the journal.

ghost use Rattle.std.specs.Prelude.{◌≡◌, IfOk};

use std::alloc::Global;
use vrx_core::EventBytes;
use vrx_num::NoMemory;

/// The same octets, in memory of their own.
pub(crate) fn copy_of(alloc: Global, bytes: &[u8]) -> Result<EventBytes, NoMemory>
    ensures { IfOk result (λ copy. copy ≡ bytes.now) }
{
    Ok(EventBytes::from_vec(Vec::from_slice(alloc, bytes)?))
}
