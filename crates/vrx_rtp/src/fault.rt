//! Why a datagram is not read.

/// What is wrong with a datagram, in the order in which it is tested (RFC 3550 5.1).
#[derive(Clone, Copy, Debug, PartialEq, Eq, thiserror::Error)]
pub enum RtpFaultKind {
    /// It has fewer than the 12 octets that each header has. The fault is at the datagram's end.
    #[error("the header runs past the end")]
    Short,
    /// Its version isn't 2. The fault is at octet 0.
    #[error("the version isn't 2")]
    Version,
    /// The contributing sources run past the end. The fault is at octet 12, where they begin.
    #[error("the contributing sources run past the end")]
    CsrcPastEnd,
    /// The header extension runs past the end. The fault is where it begins.
    #[error("the header extension runs past the end")]
    ExtensionPastEnd,
    /// The last octet counts no padding octets, or more than follow the header. The fault is at the last octet.
    #[error("the padding doesn't fit behind the header")]
    PaddingPastEnd,
}

/// What is wrong with a datagram, and where.
#[derive(Clone, Copy, Debug, PartialEq, Eq, thiserror::Error)]
#[error("{kind}, at octet {at}")]
pub struct RtpFault {
    /// What is wrong.
    pub kind: RtpFaultKind,
    /// The octet, counted from 0, at which the part begins that is wrong.
    pub at: usize,
}
