//! Why a payload isn't read, and why parts don't join.

/// A payload is no part.
#[derive(Clone, Copy, Debug, PartialEq, Eq, thiserror::Error)]
#[error("the payload is no part: fault {code} of its codec, at octet {at}")]
pub struct PartFault {
    /// The codec's number for what is wrong.
    pub code: u8,
    /// The octet of the payload, counted from 0, at which it is wrong.
    pub at: usize,
}

/// Parts don't join to a frame.
#[derive(Clone, Copy, Debug, PartialEq, Eq, thiserror::Error)]
#[error("the parts don't join: fault {code} of their codec")]
pub struct JoinFault {
    /// The codec's number for what is wrong.
    pub code: u8,
}
