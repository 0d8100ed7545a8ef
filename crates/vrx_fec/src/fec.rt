//! A FEC payload, seen where it lies (RFC 5109 7.3, 7.4).

use arrayvec::ArrayVec;

/// How many octets a FEC header has.
pub(crate) const HEAD: usize = 10;

/// A payload has at most so many levels. The limit is this project's own.
pub(crate) const MOST_LEVELS: usize = 8;

/// A level: which packets it protects, and the octets that protect them (RFC 5109 7.4).
#[derive(Clone, Copy, Debug, Default, PartialEq, Eq)]
pub struct Level<'a> {
    /// The number that the mask's field spells. Offset i from SN base has the value 2^(15 - i), and 2^(47 - i) if the
    /// masks are long.
    pub mask: u64,
    /// The octets, as many as the protection length.
    pub octets: &'a [u8],
}

/// A FEC payload, as [`read_fec`](crate::read_fec) gives it (RFC 5109 7.3, 7.4).
#[derive(Debug, Drop)]
pub struct Fec<'a> {
    /// SN base: the wire number at offset 0.
    pub base: u16,
    /// The FEC header.
    pub head: [u8; 10],
    /// Bit L: the masks have 48 bits, and else 16.
    pub long: bool,
    /// The levels, level 0 first.
    pub levels: ArrayVec<Level<'a>, 8>,
}
