//! What a receiver is told before its first event.

use thiserror::Error;

/// The one stream that the receiver takes, and the sender of its feedback.
#[derive(Clone, Copy, Debug, PartialEq, Eq)]
pub struct Settings {
    /// The SSRC of the media stream (RFC 3550 5.1).
    pub media_ssrc: u32,
    /// The payload type of the media packets: below 64, or 96 to 127.
    pub media_type: u8,
    /// The payload types of RED, if media may come in it.
    pub red: Option<Red>,
    /// The stream of retransmissions, if there is one.
    pub rtx: Option<Rtx>,
    /// The SSRC under which this receiver sends its feedback.
    pub from_ssrc: u32,
    /// The least time between two requests of one number, in milliseconds: 1 to 60,000.
    pub interval: u32,
}

/// The payload types of RED (RFC 2198), each below 64, or 96 to 127.
#[derive(Clone, Copy, Debug, PartialEq, Eq)]
pub struct Red {
    /// The payload type of the RED packets.
    pub red_type: u8,
    /// The payload type of the ULPFEC blocks in them (RFC 5109), if FEC may come in RED.
    pub fec_type: Option<u8>,
}

/// The stream of retransmissions (RFC 4588), with payload types that are below 64, or 96 to 127.
#[derive(Clone, Copy, Debug, PartialEq, Eq)]
pub struct Rtx {
    /// The SSRC of the stream.
    pub ssrc: u32,
    /// The payload type under which media packets come again.
    pub media_rtx_type: u8,
    /// The payload type under which RED packets come again, where they do. Then the settings have RED, too.
    pub red_rtx_type: Option<u8>,
}

/// Why settings are refused, in the order in which `Engine::new` tests.
#[derive(Clone, Copy, Debug, PartialEq, Eq, Error)]
pub enum NewFault {
    /// A payload type is 64 to 95, which RTCP takes on a shared port (RFC 5761 4), or above 127.
    #[error("a payload type is 64 to 95 or above 127")]
    BadType,
    /// Two of the payload types given are equal.
    #[error("two payload types are equal")]
    SameType,
    /// Two of the SSRCs of media, of the retransmissions and of the feedback are equal.
    #[error("two SSRCs are equal")]
    SameSsrc,
    /// A payload type of RED in retransmissions is given, and RED isn't.
    #[error("RED is retransmitted, and isn't given")]
    RedMissing,
    /// The interval of requests is 0 or above 60,000.
    #[error("the interval is 0 or above 60,000")]
    BadInterval,
    /// No memory was to be had.
    #[error("out of memory")]
    NoMemory,
}
