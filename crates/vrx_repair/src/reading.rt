//! How a rebuilt text is read.

use std::marker::PhantomData;
use vrx_codec::Codec;

/// How a rebuilt text is read: whose it is, and when it is media.
#[derive(Drop)]
pub struct Reading<C: Codec> {
    /// The SSRC of the media (RFC 3550 5.1).
    pub media_ssrc: u32,
    /// The payload type of the media, of 7 bits.
    pub media_type: u8,
    /// How payloads read.
    pub codec: PhantomData<C>,
}
