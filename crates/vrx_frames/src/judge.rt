//! Judges whether the packets of a frame join.

ghost use Rattle.std.specs.Prelude.{◌≡◌, ◌+◌, ◌-◌, ◌^◌, ◌≤◌, true, length, is_some, Some, Ok, IsOk};
ghost use Rattle.std.specs.Option.{option_map};
ghost use Rattle.vrx_codec.specs.Joining.{IsPartRead};
ghost use Rattle.vrx_codec.specs.View.{view};
ghost use Rattle.vrx_window.specs.Content.{Media, contents_of};
ghost use Rattle.vrx_window.specs.Sound.{AreSound, place_at};
ghost use Rattle.vrx_window.specs.Window.{at};
ghost use Rattle.vrx_frames.specs.Judging.{AreMedia, span_summary, octets_of, says_key};
ghost use Rattle.vrx_frames.specs.Parts.{is_media, part_at, part_of, parts_from};

use crate::part::part_at;
use crate::search::Span;
use vrx_codec::{BEGINNING, Codec, Place, Run};
use vrx_num::limits::WINDOW;
use vrx_window::{Held, Window};

/// Whether a held media packet makes its frame a keyframe by itself.
fn key_at<C: Codec>(window: &Window, n: u64) -> bool
    requires sound { AreSound C.meaning window.now.packets }
    requires media { is_media (at n window.now.packets) ≡ true }
    ensures key { option_map (λ part. part.key) (part_at C.meaning (contents_of window.now).packets n) ≡ Some result }
{
    match window.held(n) {
        Some(Held::Media { key, .. }) => *key,
        _ => unreachable!(),
    }
}

/// The place of a held packet, if it has one.
fn place_at(window: &Window, n: u64) -> Option<Place>
    ensures { result ≡ place_at window.now.packets n }
{
    match window.held(n) {
        Some(Held::Media { layers, .. }) => *layers,
        _ => None,
    }
}

/// Whether some of so many packets makes their frame a keyframe.
fn says_key<C: Codec>(window: &Window, first: u64, count: u64) -> bool
    requires sound { AreSound C.meaning window.now.packets }
    requires media { AreMedia window.now.packets first count }
    requires fits { first + count ≤ 2 ^ 64 }
    ensures { result ≡ says_key (parts_from C.meaning (contents_of window.now).packets first count) }
{
    for k in 0..count {
        if key_at::<C>(window, first + k) {
            return true;
        }
    }
    false
}

/// To how many octets the parts of so many packets join, if they do.
fn octets_of<C: Codec>(window: &Window, first: u64, count: u64) -> Option<u32>
    requires sound { AreSound C.meaning window.now.packets }
    requires media { AreMedia window.now.packets first count }
    requires fits { first + count ≤ 2 ^ 64 }
    requires few { count ≤ WINDOW }
    ensures { result ≡ octets_of C.meaning (parts_from C.meaning (contents_of window.now).packets first count) }
{
    let mut state = BEGINNING;
    for k in 0..count {
        let part = part_at::<C>(window, first + k);
        match C::step(state, &part) {
            Ok(next) => state = next,
            Err(_) => return None,
        }
    }
    match C::end(state) {
        Ok(octets) => Some(octets),
        Err(_) => None,
    }
}

/// What is told of a span, if its parts join.
#[inline(never)]
pub(crate) fn judge<C: Codec>(window: &Window, span: Span) -> Option<Run>
    requires sound { AreSound C.meaning window.now.packets }
    requires upto { span.first ≤ span.last }
    requires media { AreMedia window.now.packets span.first (span.last - span.first + 1) }
    requires few { span.last - span.first + 1 ≤ WINDOW }
    ensures { result ≡ span_summary C.meaning (place_at window.now.packets) (contents_of window.now).packets span }
{
    let count = span.last - span.first + 1;
    match octets_of::<C>(window, span.first, count) {
        None => None,
        Some(octets) => Some(Run {
            first: span.first,
            last: span.last,
            ts: span.ts,
            key: says_key::<C>(window, span.first, count),
            layers: place_at(window, span.first),
            octets,
        }),
    }
}
