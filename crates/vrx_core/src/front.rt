//! The front: all numbers up to it are passed.

ghost use Rattle.std.specs.Prelude.{◌≡◌, ◌+◌, ◌-◌, ◌^◌, ◌<◌, false, true};
ghost use Rattle.std.specs.Option.{option_map_or};
ghost use Rattle.vrx_window.specs.Content.{content_of, contents};
ghost use Rattle.vrx_window.specs.Window.{at};
ghost use Rattle.vrx_frames.specs.Front.{front_after as front_after_of, is_no_media as is_no_media_of, reach_from as reached_of};

use vrx_num::limits::WINDOW;
use vrx_window::{Held, Window, contents_are};

/// Whether what is held is no media.
fn is_no_media(held: &Held) -> bool
    ensures { result ≡ is_no_media_of (content_of held.now) }
{
    match held {
        Held::Media { .. } => false,
        Held::Empty { .. } => true,
        Held::Fec { .. } => true,
    }
}

/// Whether the number after one is available and no media.
fn goes_on(window: &Window, n: u64) -> bool
    ensures value { result ≡ option_map_or is_no_media_of (at (n + 1) (contents window.now.packets)) false }
    ensures room { result ≡ true → n < 2 ^ 64 - 1 }
{
    // A law: what stands under a number, by its content.
    contents_are();
    match window.newest() {
        None => false,
        Some(newest) => {
            if n >= newest {
                return false;
            }
            match window.held(n + 1) {
                Some(held) => is_no_media(held),
                None => false,
            }
        }
    }
}

/// The greatest number reached from one over available numbers that are no media.
fn reach_from(window: &Window, from: u64) -> u64
    ensures { result ≡ reached_of WINDOW from (contents window.now.packets) }
{
    let mut n = from;
    for _ in 0..WINDOW {
        if !goes_on(window, n) {
            return n;
        }
        n += 1;
    }
    n
}

/// The front after an event, with the front before and the last number of the last frame pulled.
pub(crate) fn front_after(front: Option<u64>, last: Option<u64>, window: &Window) -> Option<u64>
    ensures { result ≡ front_after_of front last (contents window.now.packets) }
{
    match (front, last) {
        (_, None) => None,
        (None, Some(last)) => Some(reach_from(window, last)),
        (Some(front), Some(last)) => Some(reach_from(window, front.max(last))),
    }
}
