//! From a part to a payload.

ghost use Rattle.std.specs.Prelude.{◌≡◌, ◌+◌, ◌*◌, ◌<◌, if◌then◌else◌, length, IfOk, IfSome, Ok};
ghost use Rattle.vrx_codec.specs.Joining.{FitsLayers};
ghost use Rattle.vrx_vp8.specs.Descriptor.{read_part};
ghost use Rattle.vrx_vp8.specs.Writing.{start_bit as start_bit_of, written_payload, written_part};

use crate::bits::{BIT_I, BIT_L, BIT_M, BIT_S, BIT_T, BIT_X, BIT_Y};
use std::alloc::Global;
use vrx_codec::Layers;
use vrx_num::NoMemory;

/// PictureID, TL0PICIDX and TID come.
const HAS_LAYERS: u8 = BIT_I + BIT_L + BIT_T;

/// Bit S of the first octet, if the frame begins here.
fn start_bit(start: bool) -> u8
    ensures { result ≡ start_bit_of start }
{
    if start { BIT_S } else { 0 }
}

/// The octet of TID and Y.
fn layer_octet(tid: u8, sync: bool) -> u8
    requires { tid < 4 }
    ensures { result ≡ tid * 64 + (if sync then BIT_Y else 0) }
{
    tid * 64 + if sync { BIT_Y } else { 0 }
}

/// The payload of a part.
fn octets_of(
    alloc: Global,
    start: bool,
    layers: Option<Layers>,
    body: &[u8],
) -> Result<Vec<u8>, NoMemory>
    requires { IfSome layers FitsLayers }
    ensures { IfOk result (λ payload. payload.items ≡ written_payload start layers body.now) }
{
    let mut payload = Vec::new(alloc);
    match layers {
        None => payload.push(start_bit(start))?,
        Some(layers) => payload.extend_from_slice(&[
            BIT_X + start_bit(start),
            HAS_LAYERS,
            BIT_M + (layers.picture / 256) as u8,
            (layers.picture % 256) as u8,
            layers.tl0,
            layer_octet(layers.tid, layers.sync),
        ])?,
    }
    payload.extend_from_slice(body)?;
    Ok(payload)
}

/// The payload of a part of a frame: its descriptor (RFC 7741 4.2), and `body`, of which there is at least one octet.
/// The picture of the layers has 15 bits, and the TID is 0 to 3. Bits that say nothing are 0, N and KEYIDX too.
/// If it finds no memory, the answer is `NoMemory`.
///
/// The part is the frame's first if `start` is true, and then says a keyframe if the body's first octet is even (RFC
/// 7741 4.3).
pub fn write_part(
    alloc: Global,
    start: bool,
    layers: Option<Layers>,
    body: &[u8],
) -> Result<Vec<u8>, NoMemory>
    requires body { 0 < length body.now }
    requires layers { IfSome layers FitsLayers }
    ensures spelled { IfOk result (λ payload. payload.items ≡ written_payload start layers body.now) }
    // What is written is read again.
    ensures again { IfOk result (λ payload. read_part payload.items ≡ Ok (written_part start layers body.now)) }
{
    octets_of(alloc, start, layers, body)
}
