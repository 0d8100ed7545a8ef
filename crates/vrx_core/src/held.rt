//! The packet to hold of a datagram.

ghost use Rattle.std.specs.Prelude.{◌≡◌, IfOk, IfSome};
ghost use Rattle.std.specs.Option.{option_map};
ghost use Rattle.vrx_codec.specs.Joining.{FitsLayers};
ghost use Rattle.vrx_repair.specs.Commit.{place_beside};
ghost use Rattle.vrx_rtp.specs.View.{view};
ghost use Rattle.vrx_window.specs.Content.{content_of};
ghost use Rattle.vrx_window.specs.Sound.{IsSound, on_wire};
ghost use Rattle.vrx_core.specs.machine.Text.{packet_text};
ghost use Rattle.vrx_core.specs.inside.Places.{IsPlacedBeside};
ghost use Rattle.vrx_core.specs.inside.Seen.{view_brought, IsSeen};

use crate::original::{PacketSeen, PayloadSeen};
use crate::text::text_of;
use bytes::Bytes;
use std::alloc::Global;
use vrx_codec::{Codec, Layers, Place};
use vrx_num::{NoMemory, Pictures, picture_is_near};
use vrx_rtp::one_reading;
use vrx_window::Held;

/// The place that layers say, its picture extended beside the newest one (RFC 7741 4.2).
fn place_in(layers: Option<Layers>, pictures: &Pictures) -> Option<Place>
    requires fit { IfSome layers FitsLayers }
    ensures beside { IfSome result (λ place. place ≡ place_beside pictures.now (on_wire place)) }
    ensures wire { option_map on_wire result ≡ layers }
{
    // A law: a picture is near the newest one. And what always holds of that.
    picture_is_near();
    let _newest = pictures.newest();
    match layers {
        None => None,
        Some(layers) => Some(Place {
            picture: pictures.extend(layers.picture),
            tl0: layers.tl0,
            tid: layers.tid,
            sync: layers.sync,
        }),
    }
}

/// The packet to hold of a datagram that was seen so, beside the newest picture. It takes the memory of its text, or
/// of its FEC payload.
#[inline(always)]
pub(crate) fn held_of<C: Codec>(
    alloc: Global,
    octets: &[u8],
    seen: &PacketSeen<'_>,
    pictures: &Pictures,
) -> Result<Held, NoMemory>
    requires seen { IsSeen C.meaning octets.now seen.now }
    ensures content { IfOk result (λ held. content_of held ≡ view_brought (packet_text (view seen.now.packet)) seen.now.brought) }
    ensures sound { IfOk result (λ held. IsSound C.meaning held) }
    ensures placed { IfOk result (λ held. IsPlacedBeside pictures.now held) }
{
    one_reading();
    match seen.brought {
        PayloadSeen::Media(part) => Ok(Held::Media {
            text: text_of(alloc, octets, seen)?,
            marker: seen.packet.marker,
            ts: seen.packet.ts,
            start: part.start,
            key: part.key,
            layers: place_in(part.layers, pictures),
        }),
        PayloadSeen::Fec(payload) => Ok(Held::Fec {
            text: Bytes::copy_from_slice(alloc, payload)?,
        }),
        PayloadSeen::Empty => Ok(Held::Empty {
            marker: seen.packet.marker,
        }),
    }
}
