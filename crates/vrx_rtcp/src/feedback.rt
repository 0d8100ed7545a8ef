//! The feedback that a receiver sends.

use arrayvec::ArrayVec;

/// The feedback messages that are to be sent, each one packet by itself (RFC 4585 6.2.1 and 6.3.1).
#[derive(Debug, Drop)]
pub struct Feedback {
    /// The octets of a generic NACK: 12, and 4 for each of at most 121 items.
    pub nack: Option<ArrayVec<u8, 496>>,
    /// The octets of a picture loss indication.
    pub pli: Option<[u8; 12]>,
}
