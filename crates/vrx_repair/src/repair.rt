//! A packet that is rebuilt.

use bytes::Bytes;
use vrx_codec::{Layers, Start};

/// A media packet that is rebuilt, before it is placed.
#[derive(Debug, Drop)]
pub struct Repair {
    /// Its extended sequence number (RFC 3550 A.1).
    pub number: u64,
    /// Its text: its RTP packet (RFC 3550 5.1) without padding.
    pub text: Bytes,
    /// The marker bit (RFC 3550 5.1).
    pub marker: bool,
    /// The RTP timestamp (RFC 3550 5.1), in ticks of the media clock.
    pub ts: u32,
    /// Whether it is the first packet of its frame.
    pub start: Start,
    /// Whether it makes its frame a keyframe.
    pub key: bool,
    /// The frame's place among temporal layers, if the packet says it (RFC 7741 4.2), as on the wire.
    pub layers: Option<Layers>,
}
