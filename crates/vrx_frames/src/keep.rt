//! Keeps what is told.

ghost use Rattle.std.specs.Prelude.{◌≡◌, ℕ, ◌+◌, true, ◌&&◌, nat_lt, Some};
ghost use Rattle.vrx_window.specs.Numbered.{IsNumbered};
ghost use Rattle.vrx_window.specs.Window.{at, in_window};
ghost use Rattle.vrx_frames.specs.Completed.{IsUpTo};
ghost use Rattle.vrx_frames.specs.Kept.{held_shape, settled_arrival, IsKept};
ghost use Rattle.vrx_frames.specs.Linked.{after_remembering, starts_at};

use crate::arrival::Arrival;
use crate::search::{ends_at, starts_at};
use crate::shape::Shape;
use vrx_window::{Held, Ring};

/// The shape of a held packet.
pub(crate) fn held_shape(held: &Held) -> Shape
    ensures { result ≡ held_shape held.now }
{
    match held {
        Held::Media {
            ts,
            marker,
            start,
            ..
        } => Shape::Media {
            ts: *ts,
            marker: *marker,
            start: *start,
        },
        Held::Empty { .. } => Shape::Other,
        Held::Fec { .. } => Shape::Other,
    }
}

/// Remembers that a number stands after the end of a frame, if it was told and does.
#[inline(always)]
fn remember(ring: &mut Ring<Arrival>, n: u64)
    requires numbered { IsNumbered ring.old }
    ensures newest { ring.new.newest ≡ ring.old.newest }
    ensures entries { (m : ℕ) → at m ring.new.entries ≡ after_remembering n ring.old.entries m }
    ensures numbered { IsNumbered ring.new }
{
    match ring.get(n).copied() {
        None => {}
        Some(arrival) => {
            if ends_at(ring, n.saturating_sub(1)) {
                ring.place(
                    n,
                    Arrival {
                        shape: arrival.shape,
                        began: true,
                    },
                );
            }
        }
    }
}

/// Tells a number of the window, with its shape.
pub(crate) fn note(ring: &mut Ring<Arrival>, newest: u64, n: u64, shape: Shape)
    requires kept { IsKept ring.old }
    requires inside { in_window newest n ≡ true }
    requires upto { IsUpTo ring.old.newest (Some newest) }
    ensures newest { ring.new.newest ≡ Some newest }
    ensures entries { (m : ℕ) → at m ring.new.entries ≡ settled_arrival newest n shape ring.old.entries m }
    ensures numbered { IsNumbered ring.new }
{
    ring.move_to(newest);
    ring.place(
        n,
        Arrival {
            shape,
            began: false,
        },
    );
    remember(ring, n);
    if n < newest {
        remember(ring, n + 1);
    }
}

/// Whether the number after this one was told and is a start.
pub(crate) fn next_starts(ring: &Ring<Arrival>, passed: Option<u64>, n: u64, newest: u64) -> bool
    ensures { result ≡ (nat_lt n newest && starts_at passed ring.now.entries (n + 1)) }
{
    n < newest && starts_at(ring, passed, n + 1)
}
