//! The stream of a drill.

ghost use Rattle.std.specs.Prelude.{◌≡◌};
ghost use Rattle.vrx_sender.specs.Packets.{settings};

use vrx_core::{Red, Rtx, Settings};

/// The sequence number of the first packet: soon they go on from 65,535 to 0.
pub(crate) const FIRST_WIRE: u16 = 65_000;

/// The SSRC of the media stream.
pub(crate) const MEDIA_SSRC: u32 = 1;

/// The payload type of media packets.
pub(crate) const MEDIA_TYPE: u8 = 96;

/// The payload type of RED (RFC 2198).
pub(crate) const RED_TYPE: u8 = 100;

/// The payload type of FEC blocks in RED (RFC 5109).
pub(crate) const FEC_TYPE: u8 = 101;

/// The SSRC of retransmissions (RFC 4588).
pub(crate) const RTX_SSRC: u32 = 2;

/// The payload type of retransmissions of media packets.
const RTX_TYPE: u8 = 97;

/// The payload type of retransmissions of RED packets.
pub(crate) const RED_RTX_TYPE: u8 = 98;

/// The SSRC of the receiver's feedback.
const FROM_SSRC: u32 = 3;

/// The least time between two requests of a packet, in milliseconds.
const INTERVAL: u32 = 100;

/// The settings of a drill's receiver: VP8 in RED, with FEC and retransmissions.
pub fn drill_settings() -> Settings
    ensures settings { result ≡ settings }
{
    Settings {
        media_ssrc: MEDIA_SSRC,
        media_type: MEDIA_TYPE,
        red: Some(Red {
            red_type: RED_TYPE,
            fec_type: Some(FEC_TYPE),
        }),
        rtx: Some(Rtx {
            ssrc: RTX_SSRC,
            media_rtx_type: RTX_TYPE,
            red_rtx_type: Some(RED_RTX_TYPE),
        }),
        from_ssrc: FROM_SSRC,
        interval: INTERVAL,
    }
}
