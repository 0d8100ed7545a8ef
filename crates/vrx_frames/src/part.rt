//! The part of a frame that a held packet is.

ghost use Rattle.std.specs.Prelude.{◌≡◌, ◌≤◌, true, length, is_some, Some, Ok, IsOk};
ghost use Rattle.vrx_codec.specs.Joining.{IsPartRead};
ghost use Rattle.vrx_codec.specs.View.{view};
ghost use Rattle.vrx_window.specs.Content.{Media, contents};
ghost use Rattle.vrx_window.specs.Sound.{AreSound};
ghost use Rattle.vrx_window.specs.Window.{at};
ghost use Rattle.vrx_frames.specs.Parts.{is_media, part_at as part_at_of, part_of as part_of_content};

use vrx_codec::{Codec, Part};
use vrx_num::limits::MOST_OCTETS;
use vrx_rtp::read;
use vrx_window::{Held, Window};

/// What a payload says. It reads.
fn part_in<'a, C: Codec>(payload: &'a [u8]) -> Part<'a>
    requires { IsOk (C.meaning.read payload.now) }
    ensures part { C.meaning.read payload.now ≡ Ok (view result) }
    ensures read { IsPartRead C.meaning (view result) }
    ensures body { length result.body.now ≤ length payload.now }
{
    match C::read_part(payload) {
        Ok(part) => part,
        Err(_) => unreachable!(),
    }
}

/// What the payload of a media packet's text says. It reads.
fn part_of<'a, C: Codec>(text: &'a [u8]) -> Part<'a>
    requires { is_some (part_of_content C.meaning (Media text.now)) ≡ true }
    ensures part { part_of_content C.meaning (Media text.now) ≡ Some (view result) }
    ensures read { IsPartRead C.meaning (view result) }
    ensures body { length result.body.now ≤ length text.now }
{
    match read(text) {
        Ok(packet) => part_in::<C>(packet.payload),
        Err(_) => unreachable!(),
    }
}

/// What the payload of a held media packet says (RFC 7741 4.2, RFC 6184 5.2), seen where the window holds it. Each held
/// packet is sound, so that its text reads. It takes no memory.
pub fn part_at<C: Codec>(window: &Window, n: u64) -> Part<'_>
    requires sound { AreSound C.meaning window.now.packets }
    requires media { is_media (at n window.now.packets) ≡ true }
    ensures part { part_at_of C.meaning (contents window.now.packets) n ≡ Some (view result) }
    ensures read { IsPartRead C.meaning (view result) }
    ensures body { length result.body.now ≤ MOST_OCTETS }
{
    match window.held(n) {
        Some(Held::Media { text, .. }) => part_of::<C>(text.as_slice()),
        _ => unreachable!(),
    }
}
