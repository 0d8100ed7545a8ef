//! From a payload to the fields of its descriptor.

ghost use Rattle.std.specs.Prelude.{◌≡◌, ◌+◌, ◌*◌, ◌/◌, ◌%◌, ◌<◌, ◌&&◌, if◌then◌else◌, Some, None};
ghost use Rattle.std.specs.Option.{option_map};
ghost use Rattle.vrx_codec.specs.View.{view_result};
ghost use Rattle.vrx_codec.specs.Octet.{bit as bit_of};
ghost use Rattle.vrx_vp8.specs.Descriptor.{octet_if as octet_if_of, fields_after as fields_behind_of, fields as fields_of, part_with as part_with_of, read_part as read_part_of};
ghost use Rattle.vrx_vp8.specs.View.{view_fields};

use crate::bits::{BIT_I, BIT_K, BIT_L, BIT_M, BIT_S, BIT_T, BIT_X, BIT_Y};
use crate::faults::{NO_BODY, SHORT};
use vrx_codec::{Layers, Part, PartFault, Start, bit};

/// The fields of a descriptor, and what follows it.
#[derive(Clone, Copy)]
pub(crate) struct FieldsSeen<'a> {
    start: bool,
    layers: Option<Layers>,
    body: &'a [u8],
}

/// The next octet and what follows it, if a flag says that it comes: else 0, and nothing is taken. None if it would
/// stand past the end.
fn octet_if(flag: bool, rest: &[u8]) -> Option<(u8, &[u8])>
    ensures { option_map (λ x. (x.0, x.1.now)) result ≡ octet_if_of flag rest.now }
{
    if !flag {
        return Some((0, rest));
    }
    match rest {
        [octet, rest @ ..] => Some((*octet, rest)),
        [] => None,
    }
}

/// The place among temporal layers that the octets of flags, of PictureID, of TL0PICIDX and of TID say.
fn layers_of(flags: u8, picture: u8, low: u8, tl0: u8, tid: u8) -> Option<Layers>
    ensures { result ≡ (if bit_of BIT_M picture && bit_of BIT_L flags && bit_of BIT_T flags
        then Some (record { picture = picture % 128 * 256 + low; tl0 = tl0; tid = tid / 64; sync = bit_of BIT_Y tid })
        else None) }
{
    if bit(picture, BIT_M) && bit(flags, BIT_L) && bit(flags, BIT_T) {
        Some(Layers {
            picture: u16::from(picture % 128) * 256 + u16::from(low),
            tl0,
            tid: tid / 64,
            sync: bit(tid, BIT_Y),
        })
    } else {
        None
    }
}

/// The fields after the first octet and the octet of extension flags.
fn fields_after(head: u8, flags: u8, rest: &[u8]) -> Option<FieldsSeen<'_>>
    ensures { option_map view_fields result ≡ fields_behind_of head (flags, rest.now) }
{
    let (picture, rest) = octet_if(bit(flags, BIT_I), rest)?;
    let (low, rest) = octet_if(bit(picture, BIT_M), rest)?;
    let (tl0, rest) = octet_if(bit(flags, BIT_L), rest)?;
    let (tid, body) = octet_if(bit(flags, BIT_T) || bit(flags, BIT_K), rest)?;
    Some(FieldsSeen {
        start: bit(head, BIT_S) && head % 8 == 0,
        layers: layers_of(flags, picture, low, tl0, tid),
        body,
    })
}

/// The fields of the descriptor at the front of a payload.
fn fields(payload: &[u8]) -> Option<FieldsSeen<'_>>
    ensures { option_map view_fields result ≡ fields_of payload.now }
{
    let (head, rest) = octet_if(true, payload)?;
    let (flags, rest) = octet_if(bit(head, BIT_X), rest)?;
    fields_after(head, flags, rest)
}

/// The part that the fields of a payload of `len` octets give.
fn part_with(len: usize, fields: FieldsSeen<'_>) -> Result<Part<'_>, PartFault>
    ensures { view_result result ≡ part_with_of len (view_fields fields.entry) fields.entry.body.now }
{
    let FieldsSeen {
        start,
        layers,
        body,
    } = fields;
    match body {
        [] => Err(PartFault {
            code: NO_BODY,
            at: len,
        }),
        [first, ..] => Ok(Part {
            start: if start { Start::Yes } else { Start::No },
            key: start && *first % 2 == 0,
            layers,
            body,
        }),
    }
}

/// The part that a payload is, or its fault.
pub(crate) fn part_of(payload: &[u8]) -> Result<Part<'_>, PartFault>
    ensures { view_result result ≡ read_part_of payload.now }
{
    match fields(payload) {
        Some(fields) => part_with(payload.len(), fields),
        None => Err(PartFault {
            code: SHORT,
            at: payload.len(),
        }),
    }
}
