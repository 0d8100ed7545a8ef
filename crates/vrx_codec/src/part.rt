//! What a payload carries of a frame.

/// Whether a part is the first of its frame.
#[derive(Clone, Copy, Debug, PartialEq, Eq)]
pub enum Start {
    /// Its payload says that it is.
    Yes,
    /// Its payload says that it isn't.
    No,
    /// Its payload says nothing of it: the packet before it decides.
    ByNeighbour,
}

/// The place of a frame among temporal layers (RFC 7741 4.2).
#[derive(Clone, Copy, Debug, PartialEq, Eq)]
pub struct Layers {
    /// PictureID, of 15 bits.
    pub picture: u16,
    /// TL0PICIDX: the running number of the frame of the lowest layer that this one belongs to.
    pub tl0: u8,
    /// TID: the layer, 0 to 3.
    pub tid: u8,
    /// Y: whether the frame depends on no other frame of its layers than that one of the lowest.
    pub sync: bool,
}

/// What one payload says, seen in the payload that holds it.
#[derive(Clone, Copy, Debug, PartialEq, Eq)]
pub struct Part<'a> {
    /// Whether it is the first of its frame.
    pub start: Start,
    /// Whether it makes its frame a keyframe by itself.
    pub key: bool,
    /// The frame's place among temporal layers, if the payload says it.
    pub layers: Option<Layers>,
    /// What the payload brings of the frame: the octets after the descriptor for VP8 (RFC 7741 4.2), and the whole
    /// payload for H.264 (RFC 6184 5.2).
    pub body: &'a [u8],
}
