//! What is known of a run's references.

use arrayvec::ArrayVec;

/// How far a run is from being decoded.
#[derive(Debug, Drop)]
pub enum Judged {
    /// It is key: it refers to nothing.
    Key,
    /// It refers to frames that are known. These are the pictures of those that weren't pulled, the newest first.
    Needs(ArrayVec<u64, 4>),
    /// It isn't known to which frames it refers.
    Unknown,
}
