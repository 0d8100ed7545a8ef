//! Why octets are no RTCP packet.

/// What is wrong with a packet, in the order in which the reader tests.
#[derive(Clone, Copy, Debug, PartialEq, Eq, thiserror::Error)]
pub enum RtcpFaultKind {
    /// Fewer than the 4 octets of a header remain (RFC 3550 6.4.1).
    #[error("fewer than four octets remain")]
    Short,
    /// The version isn't 2.
    #[error("the version isn't 2")]
    Version,
    /// The packet's length runs past the end of the octets.
    #[error("the packet runs past the end")]
    PastEnd,
    /// The packet is padded, and its last octet is 0, is no multiple of 4, or reaches into the header.
    #[error("the padding is wrong")]
    Padding,
    /// The body, without the padding, is shorter than its type and count need.
    #[error("the body is too short")]
    Body,
}

/// What is wrong with a packet, and where the packet begins.
#[derive(Clone, Copy, Debug, PartialEq, Eq, thiserror::Error)]
#[error("{kind}, in the packet at octet {at}")]
pub struct RtcpFault {
    /// What is wrong.
    pub kind: RtcpFaultKind,
    /// The offset of the packet's first octet, counted from 0.
    pub at: usize,
}
