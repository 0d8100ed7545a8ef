//! A picture that a packet carried.

/// A picture that a packet carried, with its layer (RFC 7741 4.2).
#[derive(Clone, Copy, Debug, Default, PartialEq, Eq)]
pub struct Sighting {
    /// PictureID, extended beyond its 15 bits.
    pub picture: u64,
    /// TID: the layer.
    pub tid: u8,
}
