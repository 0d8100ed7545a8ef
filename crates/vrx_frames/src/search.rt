//! Finds the frame that a number lies in, by the shapes of the numbers told.

ghost use Rattle.std.specs.Prelude.{◌≡◌, Some};
ghost use Rattle.vrx_frames.specs.Linked.{ends_at, fact_at, marker_at, starts_at, IsReach};

use crate::arrival::{Arrival, Fact, ends, fact_of, follows};
use vrx_window::Ring;

/// Numbers that are a whole frame, but for the joining of its parts.
#[derive(Clone, Copy, Debug, PartialEq, Eq)]
pub(crate) struct Span {
    /// The first number.
    pub(crate) first: u64,
    /// The last number.
    pub(crate) last: u64,
    /// The timestamp of its packets.
    pub(crate) ts: u32,
}

/// Whether a number was told, and a frame begins after it.
pub(crate) fn ends_at(ring: &Ring<Arrival>, n: u64) -> bool
    ensures { result ≡ ends_at ring.now.entries n }
{
    match ring.get(n) {
        Some(told) => ends(told.shape),
        None => false,
    }
}

/// A number, as the search sees it, if it was told and is media.
pub(crate) fn fact_at(ring: &Ring<Arrival>, passed: Option<u64>, n: u64) -> Option<Fact>
    ensures { result ≡ fact_at passed ring.now.entries n }
{
    match ring.get(n) {
        Some(told) => fact_of(passed, n, *told),
        None => None,
    }
}

/// Whether a number told is a start.
pub(crate) fn starts_at(ring: &Ring<Arrival>, passed: Option<u64>, n: u64) -> bool
    ensures { result ≡ starts_at passed ring.now.entries n }
{
    match fact_at(ring, passed, n) {
        Some(fact) => fact.starts,
        None => false,
    }
}

/// Whether a number told has the marker.
pub(crate) fn has_marker(ring: &Ring<Arrival>, passed: Option<u64>, n: u64) -> bool
    ensures { result ≡ marker_at passed ring.now.entries n }
{
    match fact_at(ring, passed, n) {
        Some(fact) => fact.marker,
        None => false,
    }
}

/// The last number that is linked to a number on the way up.
pub(crate) fn reach(ring: &Ring<Arrival>, passed: Option<u64>, n: u64, here: Fact) -> u64
    requires here { fact_at passed ring.now.entries n ≡ Some here }
    ensures reached { IsReach (fact_at passed ring.now.entries) here.ts n result }
{
    let newest = ring.newest().unwrap_or(n);
    let mut last = n;
    let mut fact = here;
    while last < newest {
        match fact_at(ring, passed, last + 1) {
            None => return last,
            Some(next) => {
                if !follows(fact, next) {
                    return last;
                }
                fact = next;
            }
        }
        last += 1;
    }
    last
}
