//! What a rebuilt text says.

ghost use Rattle.std.specs.Prelude.{◌≡◌, ℕ, ◌≤◌, length, IfOk, IfSome};
ghost use Rattle.std.specs.Option.{option_map};
ghost use Rattle.vrx_num.specs.declared.limits.TheConstants.{MOST_OCTETS};
ghost use Rattle.std.specs.Result.{result_ok};
ghost use Rattle.vrx_codec.specs.Joining.{FitsLayers};
ghost use Rattle.vrx_codec.specs.View.{view};
ghost use Rattle.vrx_repair.specs.Plan.{SaysItsText, entry_of};
ghost use Rattle.vrx_repair.specs.Seen.{facts_in};
ghost use Rattle.vrx_repair.specs.Source.{media_in, source_of};
ghost use Rattle.vrx_repair.specs.Step.{media_under};

use crate::repair::Repair;
use bytes::Bytes;
use vrx_codec::{Codec, Layers, Part, Start};
use vrx_num::NoMemory;
use vrx_rtp::read;

/// What is kept of what a text says.
#[derive(Clone, Copy)]
pub(crate) struct Facts {
    pub(crate) marker: bool,
    pub(crate) ts: u32,
    pub(crate) start: Start,
    pub(crate) key: bool,
    pub(crate) layers: Option<Layers>,
}

/// The part that a payload is, if it reads.
fn part_of<C: Codec>(payload: &[u8]) -> Option<Part<'_>>
    ensures part { option_map view result ≡ result_ok (C.meaning.read payload.now) }
    ensures fits { IfSome result (λ part. IfSome part.layers FitsLayers) }
{
    match C::read_part(payload) {
        Ok(part) => Some(part),
        Err(_) => None,
    }
}

/// What a text says, if it is media of this type.
fn facts_of<C: Codec>(text: &[u8], media_type: u8) -> Option<Facts>
    ensures said { (ssrc : ℕ) →
        result ≡ option_map facts_in (media_in (source_of C.meaning ssrc media_type) text.now) }
    ensures fits { IfSome result (λ facts. IfSome facts.layers FitsLayers) }
{
    match read(text) {
        Err(_) => None,
        Ok(packet) => {
            if packet.padding != 0 || packet.pt != media_type || packet.payload.is_empty() {
                return None;
            }
            match part_of::<C>(packet.payload) {
                None => None,
                Some(part) => Some(Facts {
                    marker: packet.marker,
                    ts: packet.ts,
                    start: part.start,
                    key: part.key,
                    layers: part.layers,
                }),
            }
        }
    }
}

/// The repair of a rebuilt text under a number, if the text is media of this type.
pub(crate) fn repair_of<C: Codec>(
    number: u64,
    text: Vec<u8>,
    media_type: u8,
) -> Result<Option<Repair>, NoMemory>
    requires { length text.items ≤ MOST_OCTETS }
    ensures entry { (ssrc : ℕ) → IfOk result (λ repair. option_map entry_of repair ≡
        media_under (source_of C.meaning ssrc media_type) number text.items) }
    ensures sound { IfOk result (λ repair. IfSome repair (SaysItsText C.meaning)) }
{
    match facts_of::<C>(text.as_slice(), media_type) {
        None => Ok(None),
        Some(facts) => Ok(Some(Repair {
            number,
            text: Bytes::from_vec(text)?,
            marker: facts.marker,
            ts: facts.ts,
            start: facts.start,
            key: facts.key,
            layers: facts.layers,
        })),
    }
}
