//! Which payload types retransmissions have.

ghost use Rattle.std.specs.Prelude.{◌≡◌};
ghost use Rattle.vrx_wrap.specs.Rtx.{original_type as original_type_of};
ghost use Rattle.vrx_wrap.specs.View.{view_apt};

use arrayvec::ArrayVec;

/// What the retransmissions of one media source are of.
#[derive(Debug, Drop)]
pub struct Apt {
    /// Payload types of retransmissions, each with the one that it stands for: the parameter `apt` (RFC 4588 8.6).
    pub pairs: ArrayVec<(u8, u8), 2>,
    /// The SSRC of the media source.
    pub media_ssrc: u32,
}

/// The payload type that a retransmission's stands for: that of the first pair that has it.
pub(crate) fn original_type(apt: &Apt, rtx_type: u8) -> Option<u8>
    ensures { result ≡ original_type_of (view_apt apt.now) rtx_type }
{
    apt.pairs
        .iter()
        .find(|pair| pair.0 == rtx_type)
        .map(|pair| pair.1)
}
