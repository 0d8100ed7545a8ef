//! H.264 as a codec.

ghost use Rattle.std.specs.Prelude.{◌≡◌};
ghost use Rattle.vrx_h264.specs.AccessUnit.{h264};
ghost use Rattle.vrx_h264.specs.Joining.{joining as joining_of};
ghost use Rattle.vrx_h264.specs.Laws.{h264_within, h264_joins, h264_counted, h264_raises};

use crate::append::append_payload;
use crate::faults::FU_NO_END;
use crate::joining::{added_len, begun_after};
use crate::payload::part_of;
use vrx_codec::{Codec, Join, JoinFault, Part, PartFault};

/// H.264 (RFC 6184), in packets of one unit, of several (STAP-A) and of a fragment of one (FU-A). Parts join to the
/// units that they carry, each after the start code `00 00 00 01`.
///
/// A payload that isn't read has the first fault of [`faults`] that applies: `EMPTY`; `KIND` of the payload; in a
/// STAP-A, for one unit after another, `STAP_PAST_END`, `STAP_ZERO` and `KIND`; in an FU-A `FU_SHORT`, `FU_BOTH` and
/// `KIND`.
///
/// Parts don't join with `FU_NO_START` if a later fragment comes while no unit is begun, with `FU_NO_END` if anything
/// else comes or they end while one is, and with `FU_MIXED` if a later fragment is of another type than the unit.
///
/// [`faults`]: crate::faults
#[derive(Clone, Copy, Debug, PartialEq, Eq)]
pub struct H264;

impl Codec for H264 {
    ghost meaning = { h264 };

    ghost joining = { joining_of };

    fn read_part(payload: &[u8]) -> Result<Part<'_>, PartFault> {
        part_of(payload)
    }

    fn step(state: Join, part: &Part<'_>) -> Result<Join, JoinFault> {
        let octets = state.octets + added_len(part.body) as u32;
        match begun_after(state.unit, part.body) {
            Ok(unit) => Ok(Join { unit, octets }),
            Err(fault) => Err(fault),
        }
    }

    fn end(state: Join) -> Result<u32, JoinFault> {
        match state.unit {
            None => Ok(state.octets),
            Some(_) => Err(JoinFault { code: FU_NO_END }),
        }
    }

    fn append(_state: Join, part: &Part<'_>, out: &mut Vec<u8>) {
        append_payload(part.body, out);
    }

    ghost within = { h264_within };

    ghost joins = { h264_joins };

    ghost counted = { λ state. h264_counted state.unit state.octets };

    ghost raises = { h264_raises };
}
