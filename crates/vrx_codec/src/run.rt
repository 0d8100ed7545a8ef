//! What is told of a frame before its parts are joined.

/// The place of a frame among temporal layers, by its extended picture (RFC 7741 4.2).
#[derive(Clone, Copy, Debug, PartialEq, Eq)]
pub struct Place {
    /// PictureID, extended beyond its 15 bits.
    pub picture: u64,
    /// TL0PICIDX: the running number of the frame of the lowest layer that this one belongs to.
    pub tl0: u8,
    /// TID: the layer, 0 to 3.
    pub tid: u8,
    /// Y: whether the frame depends on no other frame of its layers than that one of the lowest.
    pub sync: bool,
}

/// A run: the packets of a whole frame, which stand under successive numbers.
#[derive(Clone, Copy, Debug, Default, PartialEq, Eq)]
pub struct Run {
    /// The extended sequence number of its first packet (RFC 3550 A.1).
    pub first: u64,
    /// The extended sequence number of its last packet.
    pub last: u64,
    /// The RTP timestamp of its packets (RFC 3550 5.1).
    pub ts: u32,
    /// Whether it is a keyframe: some part of it says so.
    pub key: bool,
    /// Its place among temporal layers, if its first part has layers.
    pub layers: Option<Place>,
    /// How many octets its parts join to.
    pub octets: u32,
}
