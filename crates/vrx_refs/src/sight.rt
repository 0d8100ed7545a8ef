//! What is remembered of a picture.

/// What is remembered of a picture that a packet carried.
#[derive(Clone, Copy, Debug, PartialEq, Eq)]
pub(crate) struct Sight {
    /// The picture. Its slot is shared with each picture that lies 4,096 below or above it.
    pub picture: u64,
    /// The TID of the first packet that carried it.
    pub tid: u8,
    /// Whether it was pulled.
    pub pulled: bool,
    /// Whether it was pulled as a keyframe.
    pub key: bool,
}
