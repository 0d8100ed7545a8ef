//! The text of a packet: what is kept of a datagram.

ghost use Rattle.std.specs.Prelude.{◌≡◌, true, IfOk};
ghost use Rattle.vrx_rtp.specs.Packet.{Fits};
ghost use Rattle.vrx_rtp.specs.View.{view};
ghost use Rattle.vrx_core.specs.machine.Text.{packet_text};

use crate::original::PacketSeen;
use bytes::Bytes;
use std::alloc::Global;
use vrx_num::NoMemory;
use vrx_rtp::{RtpView, write};

/// The packet written without its padding (RFC 3550 5.1: P = 0).
#[inline(never)]
fn bare_text(alloc: Global, packet: &RtpView<'_>) -> Result<Bytes, NoMemory>
    requires fits { Fits (view packet.now) }
    ensures text { IfOk result (λ text. text ≡ packet_text (view packet.now)) }
{
    let bare = RtpView {
        padding: 0,
        ..*packet
    };
    Ok(Bytes::from_vec(write(alloc, &bare)?)?)
}

/// The text of the packet that a datagram brings: the datagram if it is that packet as it stands, and else the packet
/// written without its padding (RFC 3550 5.1).
#[inline(always)]
pub(crate) fn text_of(
    alloc: Global,
    octets: &[u8],
    seen: &PacketSeen<'_>,
) -> Result<Bytes, NoMemory>
    requires fits { Fits (view seen.now.packet) }
    requires bare { seen.now.bare ≡ true → packet_text (view seen.now.packet) ≡ octets.now }
    ensures text { IfOk result (λ text. text ≡ packet_text (view seen.now.packet)) }
{
    if seen.bare {
        Ok(Bytes::copy_from_slice(alloc, octets)?)
    } else {
        bare_text(alloc, &seen.packet)
    }
}
