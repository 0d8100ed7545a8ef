//! Marks the numbers told with the first number of the frame that they are linked to, so that each is passed once.

ghost use Rattle.std.specs.Prelude.{◌≡◌, ℕ, ◌+◌, ◌-◌, ◌≤◌, ◌↔◌, true, Some};
ghost use Rattle.vrx_window.specs.Numbered.{IsNumbered};
ghost use Rattle.vrx_window.specs.Window.{at, in_window};
ghost use Rattle.vrx_frames.specs.Completed.{IsUpTo};
ghost use Rattle.vrx_frames.specs.Kept.{IsKept};
ghost use Rattle.vrx_frames.specs.Linked.{fact_at, starts_at, IsReach, SpanFound};
ghost use Rattle.vrx_frames.specs.Marked.{counts, mark_with, IsChain, IsMarked, IsMarkedBefore, IsSpread, WasLookedAt};

use crate::arrival::{Arrival, Fact, follows, is_passed};
use crate::search::{Span, fact_at, has_marker, reach, starts_at};
use vrx_num::limits::WINDOW;
use vrx_window::Ring;

/// Marks the numbers from one to another.
fn mark(marks: &mut Ring<u64>, from: u64, last: u64, newest: u64, first: u64)
    requires newest { marks.old.newest ≡ Some newest }
    requires numbered { IsNumbered marks.old }
    requires from { in_window newest from ≡ true }
    requires upto { from ≤ last }
    requires last { last ≤ newest }
    ensures newest { marks.new.newest ≡ Some newest }
    ensures numbered { IsNumbered marks.new }
    ensures entries { (m : ℕ) → at m marks.new.entries ≡ mark_with from last first marks.old.entries m }
{
    let count = last - from + 1;
    for k in 0..count {
        marks.place(from + k, first);
    }
}

/// Spreads a mark from a number to those that are linked to it on the way up, and gives the last of them.
fn spread(
    marks: &mut Ring<u64>,
    ring: &Ring<Arrival>,
    passed: Option<u64>,
    n: u64,
    here: Fact,
    first: u64,
) -> u64
    requires here { fact_at passed ring.now.entries n ≡ Some here }
    requires newest { marks.old.newest ≡ ring.now.newest }
    requires numbered { IsNumbered marks.old }
    ensures reached { IsReach (fact_at passed ring.now.entries) here.ts n result }
    ensures spread { IsSpread (fact_at passed ring.now.entries) n first marks.old.entries marks.new.entries }
    ensures newest { marks.new.newest ≡ marks.old.newest }
    ensures numbered { IsNumbered marks.new }
{
    match ring.newest() {
        Some(newest) => {
            let last = reach(ring, passed, n, here);
            mark(marks, n, last, newest, first);
            last
        }
        None => unreachable!(),
    }
}

/// Whether a mark counts: its number is in the window, and isn't passed.
fn counts(newest: Option<u64>, passed: Option<u64>, first: u64) -> bool
    ensures { result ≡ counts newest passed first }
{
    match newest {
        Some(newest) => first <= newest && newest - first < WINDOW && !is_passed(passed, first),
        None => false,
    }
}

/// The first number of the chain to a number, by the mark of the number before it.
fn start_of(
    marks: &Ring<u64>,
    ring: &Ring<Arrival>,
    passed: Option<u64>,
    n: u64,
    here: Fact,
) -> Option<u64>
    requires here { fact_at passed ring.now.entries n ≡ Some here }
    requires before { IsMarkedBefore (fact_at passed ring.now.entries) (counts ring.now.newest passed) here.starts n marks.now.entries }
    ensures start { (first : ℕ) → counts ring.now.newest passed first ≡ true → (result ≡ Some first) ↔ IsChain (fact_at passed ring.now.entries) first n }
{
    if here.starts {
        return Some(n);
    }
    if n == 0 {
        return None;
    }
    match fact_at(ring, passed, n - 1) {
        None => None,
        Some(before) => {
            if follows(before, here) {
                marks.get(n - 1).copied()
            } else {
                None
            }
        }
    }
}

/// The frame that a number lies in, if the numbers told have the whole of it and it begins beyond the passed ones.
/// The number's mark is spread from it.
#[inline(always)]
pub(crate) fn span_of(
    marks: &mut Ring<u64>,
    ring: &Ring<Arrival>,
    passed: Option<u64>,
    n: u64,
) -> Option<Span>
    requires told { IsNumbered ring.now }
    requires newest { marks.old.newest ≡ ring.now.newest }
    requires numbered { IsNumbered marks.old }
    requires before { IsMarkedBefore (fact_at passed ring.now.entries) (counts ring.now.newest passed) (starts_at passed ring.now.entries n) n marks.old.entries }
    ensures found { SpanFound (fact_at passed ring.now.entries) passed n result }
    ensures looked { WasLookedAt (fact_at passed ring.now.entries) (counts ring.now.newest passed) n marks.old.entries marks.new.entries }
    ensures newest { marks.new.newest ≡ marks.old.newest }
    ensures numbered { IsNumbered marks.new }
{
    match fact_at(ring, passed, n) {
        None => None,
        Some(here) => match start_of(marks, ring, passed, n, here) {
            None => None,
            Some(first) => {
                if !counts(ring.newest(), passed, first) {
                    return None;
                }
                let last = spread(marks, ring, passed, n, here, first);
                if has_marker(ring, passed, last) {
                    Some(Span {
                        first,
                        last,
                        ts: here.ts,
                    })
                } else {
                    None
                }
            }
        },
    }
}

/// Raises the front of the passed numbers: the number after it may newly be a start.
pub(crate) fn raise(
    marks: &mut Ring<u64>,
    ring: &Ring<Arrival>,
    earlier: Option<u64>,
    passed: Option<u64>,
)
    requires kept { IsKept ring.now }
    requires marked { IsMarked earlier ring.now marks.old }
    requires upto { IsUpTo earlier passed }
    ensures marked { IsMarked passed ring.now marks.new }
{
    match (ring.newest(), passed) {
        (Some(newest), Some(front)) => {
            if front >= newest {
                return;
            }
            let n = front + 1;
            match fact_at(ring, passed, n) {
                None => {}
                Some(here) => {
                    if here.starts && !starts_at(ring, earlier, n) {
                        spread(marks, ring, passed, n, here, n);
                    }
                }
            }
        }
        _ => {}
    }
}
