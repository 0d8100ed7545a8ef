//! The shape of a packet.

use vrx_codec::Start;

/// All of a packet that decides which numbers lie together.
#[derive(Clone, Copy, Debug, PartialEq, Eq)]
pub enum Shape {
    /// A media packet.
    Media {
        /// The RTP timestamp (RFC 3550 5.1), in ticks of the media clock.
        ts: u32,
        /// The marker bit (RFC 3550 5.1): whether it is the last packet of its frame.
        marker: bool,
        /// What its payload says of whether it is the first packet of its frame.
        start: Start,
    },
    /// No media: a packet without a payload, or one of forward error correction.
    Other,
}
