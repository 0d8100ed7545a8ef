//! VP8 as a codec.

ghost use Rattle.vrx_vp8.specs.Descriptor.{vp8};
ghost use Rattle.vrx_vp8.specs.Joining.{joining as joining_of};
ghost use Rattle.vrx_vp8.specs.Laws.{vp8_within, vp8_joins};
ghost use Rattle.std.proofs.Common.{rules};

use crate::descriptor::part_of;
use vrx_codec::{Codec, Join, JoinFault, Part, PartFault};

/// VP8 (RFC 7741 4). Its parts always join, to their bodies one after the other (RFC 7741 4.4).
///
/// A payload is a descriptor and a body (RFC 7741 4.2). One that isn't read has the fault [`SHORT`] if its descriptor
/// runs past the end, and else [`NO_BODY`], since nothing follows the descriptor: both at the payload's end. A part
/// is a start if S = 1 and PID = 0, and then says a keyframe if its body's first octet is even (RFC 7741 4.3). It has
/// layers if X, I, L and T are 1 and the PictureID has 15 bits.
///
/// [`SHORT`]: crate::faults::SHORT
/// [`NO_BODY`]: crate::faults::NO_BODY
#[derive(Clone, Copy, Debug, PartialEq, Eq)]
pub struct Vp8;

impl Codec for Vp8 {
    ghost meaning = { vp8 };

    ghost joining = { joining_of };

    fn read_part(payload: &[u8]) -> Result<Part<'_>, PartFault> {
        part_of(payload)
    }

    fn step(state: Join, part: &Part<'_>) -> Result<Join, JoinFault> {
        Ok(Join {
            unit: state.unit,
            octets: state.octets + part.body.len() as u32,
        })
    }

    fn end(state: Join) -> Result<u32, JoinFault> {
        Ok(state.octets)
    }

    fn append(_state: Join, part: &Part<'_>, out: &mut Vec<u8>) {
        let Ok(()) = out.extend_from_slice(part.body) else {
            unreachable!()
        };
    }

    ghost within = { vp8_within };

    ghost joins = { vp8_joins };

    ghost counted = { Prim.search rules };

    ghost raises = { Prim.search rules };
}
