//! A packet, seen where it lies.

/// A header extension, seen in the datagram that holds it (RFC 3550 5.3.1).
#[derive(Clone, Copy, Debug, PartialEq, Eq)]
pub struct Extension<'a> {
    /// The 16 bits that the profile defines.
    pub profile: u16,
    /// The words, four octets each.
    pub words: &'a [u8],
}

/// An RTP packet, seen in the datagram that holds it (RFC 3550 5.1).
#[derive(Clone, Copy, Debug, PartialEq, Eq)]
pub struct RtpView<'a> {
    /// The marker bit.
    pub marker: bool,
    /// The payload type, of 7 bits.
    pub pt: u8,
    /// The sequence number.
    pub seq: u16,
    /// The timestamp, in ticks of the payload's clock.
    pub ts: u32,
    /// The identifier of the synchronization source.
    pub ssrc: u32,
    /// The contributing sources, four octets each, of which there are at most 15.
    pub csrc: &'a [u8],
    /// The header extension, if there is one.
    pub extension: Option<Extension<'a>>,
    /// The octets between the header and the padding.
    pub payload: &'a [u8],
    /// How many padding octets follow the payload: 0 says that there are none.
    pub padding: u8,
}
