//! What is kept of a number told.

ghost use Rattle.std.specs.Prelude.{◌≡◌, ◌||◌};
ghost use Rattle.vrx_frames.specs.Linked.{ends, fact_of, follows};
ghost use Rattle.vrx_frames.specs.Run.{begins, is_passed};

use crate::shape::Shape;
use vrx_codec::Start;

/// What is kept of a number told.
#[derive(Clone, Copy, Debug, PartialEq, Eq)]
pub(crate) struct Arrival {
    /// The shape of its packet.
    pub(crate) shape: Shape,
    /// Whether it ever stood right after the end of a frame.
    pub(crate) began: bool,
}

/// A number told that is media, as the search for runs sees it.
#[derive(Clone, Copy, Debug, PartialEq, Eq)]
pub(crate) struct Fact {
    /// Its timestamp.
    pub(crate) ts: u32,
    /// Its marker.
    pub(crate) marker: bool,
    /// Whether it is a start.
    pub(crate) starts: bool,
}

/// Whether a frame begins after a packet of this shape: it has the marker, or is no media.
pub(crate) fn ends(shape: Shape) -> bool
    ensures { result ≡ ends shape }
{
    match shape {
        Shape::Media { marker, .. } => marker,
        Shape::Other => true,
    }
}

/// Whether a number is passed.
pub(crate) fn is_passed(passed: Option<u64>, n: u64) -> bool
    ensures { result ≡ is_passed passed n }
{
    match passed {
        None => false,
        Some(front) => n <= front,
    }
}

/// Whether a packet is a start: its payload says so, or else what stands before it.
fn begins(start: Start, behind: bool) -> bool
    ensures { result ≡ begins start behind }
{
    match start {
        Start::Yes => true,
        Start::No => false,
        Start::ByNeighbour => behind,
    }
}

/// A number told, as the search sees it, if it is media.
pub(crate) fn fact_of(passed: Option<u64>, n: u64, arrival: Arrival) -> Option<Fact>
    ensures { result ≡ fact_of passed n arrival }
{
    match arrival.shape {
        Shape::Media { ts, marker, start } => Some(Fact {
            ts,
            marker,
            starts: begins(
                start,
                is_passed(passed, n.saturating_sub(1)) || arrival.began,
            ),
        }),
        Shape::Other => None,
    }
}

/// Whether the second goes on the frame of the first.
pub(crate) fn follows(a: Fact, b: Fact) -> bool
    ensures { result ≡ follows a b }
{
    !a.marker && a.ts == b.ts && !b.starts
}
