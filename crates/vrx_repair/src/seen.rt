//! The window, as a plan sees it.

ghost use Rattle.std.specs.Prelude.{◌≡◌, ℕ, ◌<◌, ◌≤◌, ◌==◌, false, if◌then◌else◌, Some};
ghost use Rattle.std.specs.Option.{option_map};
ghost use Rattle.vrx_window.specs.Content.{Media, content_of, is_fec_held};
ghost use Rattle.vrx_window.specs.Window.{at, in_window, newest_with};
ghost use Rattle.vrx_repair.specs.Seen.{content_seen, is_fec_at, packets_by, says_dead, window_by};
ghost use Rattle.vrx_repair.specs.Step.{is_wanted};

use crate::repair::Repair;
use vrx_num::limits::WINDOW;
use vrx_window::{Held, Placing, Window};

/// The window in which a packet is to be placed, with that packet and with what was rebuilt.
#[derive(Clone, Copy)]
pub(crate) struct Seen<'a> {
    pub(crate) window: &'a Window,
    pub(crate) number: u64,
    pub(crate) held: &'a Held,
    pub(crate) made: &'a [Repair],
}

/// What stands under a number.
#[derive(Clone, Copy)]
pub(crate) enum Sight<'a> {
    /// Nothing.
    Nothing,
    /// A media packet: its text.
    Media(&'a [u8]),
    /// A FEC packet: its payload.
    Fec(&'a [u8]),
    /// A packet without a payload.
    Empty,
}

/// What a held packet is.
fn sight_of(held: &Held) -> Sight<'_>
    ensures { content_seen result ≡ Some (content_of held.now) }
{
    match held {
        Held::Media { text, .. } => Sight::Media(text.as_slice()),
        Held::Fec { text } => Sight::Fec(text.as_slice()),
        Held::Empty { .. } => Sight::Empty,
    }
}

/// What stands under a number of a window.
fn sight_in(window: &Window, n: u64) -> Sight<'_>
    ensures { content_seen result ≡ option_map content_of (at n window.now.packets) }
{
    match window.held(n) {
        Some(held) => sight_of(held),
        None => Sight::Nothing,
    }
}

/// The newest number once `n` is placed.
fn newest_with(newest: Option<u64>, n: u64) -> u64
    ensures { result ≡ newest_with newest n }
{
    match newest {
        Some(newest) => newest.max(n),
        None => n,
    }
}

/// Whether a number is in the window that ends at the newest one.
fn in_window(newest: u64, n: u64) -> bool
    ensures { result ≡ in_window newest n }
{
    n <= newest && newest - n < WINDOW
}

/// The newest number of the window in which the packet is placed.
pub(crate) fn newest_of(seen: &Seen<'_>) -> u64
    ensures { result ≡ newest_with seen.now.window.now.newest seen.now.number }
{
    newest_with(seen.window.newest(), seen.number)
}

/// What stands under a number of the window in which the packet is placed, without what was rebuilt.
fn sight_placed<'a>(seen: &Seen<'a>, n: u64) -> Sight<'a>
    ensures { content_seen result ≡ at n (window_by seen.now).packets }
{
    if n == seen.number {
        return sight_of(seen.held);
    }
    if !in_window(newest_of(seen), n) {
        return Sight::Nothing;
    }
    sight_in(seen.window, n)
}

/// The text that a repair has under a number, or else what was found.
fn over<'a>(found: Sight<'a>, repair: &'a Repair, n: u64) -> Sight<'a>
    ensures { content_seen result ≡
        (if n == repair.now.number then Some (Media repair.now.text) else (content_seen found.entry)) }
{
    if n == repair.number {
        Sight::Media(repair.text.as_slice())
    } else {
        found
    }
}

/// What stands under a number.
pub(crate) fn look<'a>(seen: &Seen<'a>, n: u64) -> Sight<'a>
    ensures { content_seen result ≡ at n (packets_by seen.now) }
{
    let mut found = sight_placed(seen, n);
    let made = seen.made;
    for repair in made {
        found = over(found, repair, n);
    }
    found
}

/// Whether a number was given up, by what would become of it.
fn is_dead(placing: Placing) -> bool
    ensures { result ≡ says_dead placing }
{
    match placing {
        Placing::Dead => true,
        Placing::TooOld => false,
        Placing::Repeat => false,
        Placing::Fresh => false,
    }
}

/// Whether a number is in the window in which the packet is placed, and wasn't given up.
pub(crate) fn is_wanted(seen: &Seen<'_>, n: u64) -> bool
    ensures { result ≡ is_wanted (window_by seen.now).newest (window_by seen.now).dead n }
{
    in_window(newest_of(seen), n) && !is_dead(seen.window.would(n))
}

/// The least number from one on under which the window holds a FEC packet, or the end if none before it has one.
fn next_held(window: &Window, from: u64, end: u64) -> u64
    requires { from ≤ end }
    ensures from { from ≤ result }
    ensures upto { result ≤ end }
    ensures passed { (k : ℕ) → from ≤ k → k < result → is_fec_held (at k window.now.packets) ≡ false }
{
    // Called for its contract: what always holds of a window.
    let _newest = window.newest();
    match window.next_fec(from) {
        Some(n) => n.min(end),
        None => end,
    }
}

/// The same in the window in which the packet is placed: what was rebuilt is media.
pub(crate) fn next_fec(seen: &Seen<'_>, from: u64, end: u64) -> u64
    requires { from ≤ end }
    ensures from { from ≤ result }
    ensures upto { result ≤ end }
    ensures passed { (k : ℕ) → from ≤ k → k < result → is_fec_at (packets_by seen.now) k ≡ false }
{
    let next = next_held(seen.window, from, end);
    if !seen.held.is_fec() {
        return next;
    }
    if seen.number < from {
        return next;
    }
    next.min(seen.number)
}
