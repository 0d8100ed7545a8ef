//! One missing number.

/// A missing number, and what was asked for it.
#[derive(Clone, Copy, Debug, PartialEq, Eq)]
pub struct Ask {
    /// The sequence number, extended.
    pub number: u64,
    /// How often it was asked for.
    pub times: u64,
    /// The moment of the last request, in milliseconds.
    pub last: u64,
}
