//! The one error of this crate, and the count that each error raises.

ghost use Rattle.std.specs.Prelude.{◌≡◌};
ghost use Rattle.vrx_io.specs.Faults.{next_count};

use thiserror::Error;

/// A read or a write failed. The count of faults of what was read or written says so too.
#[derive(Clone, Copy, Debug, PartialEq, Eq, Error)]
#[error("a read or a write failed")]
pub struct Failed;

/// The count after one more, which stops at the greatest number.
pub(crate) fn count_up(count: u64) -> u64
    ensures { result ≡ next_count count }
{
    count.saturating_add(1)
}
