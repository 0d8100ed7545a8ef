//! What the window holds under a number.

ghost use Rattle.std.specs.Prelude.{◌≡◌, Some};
ghost use Rattle.vrx_window.specs.Content.{is_fec};
ghost use Rattle.vrx_window.specs.Sound.{place_of};

use bytes::Bytes;
use vrx_codec::{Place, Start};

/// A packet that the window holds.
#[derive(Debug, Drop)]
pub enum Held {
    /// A media packet.
    Media {
        /// Its text: its RTP packet (RFC 3550 5.1) without padding, and unwrapped if it came in another payload.
        text: Bytes,
        /// The marker bit (RFC 3550 5.1): whether it is the last packet of its frame.
        marker: bool,
        /// The RTP timestamp (RFC 3550 5.1), in ticks of the media clock.
        ts: u32,
        /// Whether it is the first packet of its frame.
        start: Start,
        /// Whether it makes its frame a keyframe.
        key: bool,
        /// The frame's place among temporal layers, if the packet says it (RFC 7741 4.2).
        layers: Option<Place>,
    },
    /// A packet without a payload.
    Empty {
        /// The marker bit (RFC 3550 5.1).
        marker: bool,
    },
    /// A packet of forward error correction.
    Fec {
        /// Its payload: the FEC header, and the levels after it (RFC 5109 7.3 and 7.4).
        text: Bytes,
    },
}

impl Held {
    /// Its place among temporal layers, if it is a media packet that says it (RFC 7741 4.2).
    pub fn place(&self) -> Option<Place>
        ensures place { result ≡ place_of (Some self.now) }
    {
        match self {
            Held::Media { layers, .. } => *layers,
            Held::Empty { .. } => None,
            Held::Fec { .. } => None,
        }
    }

    /// Whether it is a packet of forward error correction (RFC 5109).
    pub fn is_fec(&self) -> bool
        ensures fec { result ≡ is_fec self.now }
    {
        match self {
            Held::Fec { .. } => true,
            Held::Media { .. } => false,
            Held::Empty { .. } => false,
        }
    }
}
