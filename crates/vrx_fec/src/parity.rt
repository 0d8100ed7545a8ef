//! The XOR of texts (RFC 5109 8.1, 8.2).

ghost use Rattle.std.specs.Prelude.{◌≡◌, ℕ, ◌+◌, ◌<◌, ◌≤◌, ◌^◌, bit_xor, if◌then◌else◌, length, slice_index};
ghost use Rattle.vrx_fec.specs.Mask.{is_named};
ghost use Rattle.vrx_fec.specs.Parity.{fields_of, mask_at};

use crate::mask::is_named;
use crate::span::Span;
use vrx_num::slices::from;

/// How many octets an RTP header has before its sources (RFC 3550 5.1).
pub(crate) const HEADER: usize = 12;

/// A protected packet has at most so many octets: those after the first twelve are counted in 16 bits (RFC 5109 8.1).
pub(crate) const MOST_TEXT: usize = 65_547;

/// Puts the XOR of each octet with the other's octet at the same place into it. An octet that the other hasn't counts
/// as 0: what is longer is left as it is.
pub fn xor_into(target: &mut [u8], other: &[u8])
    ensures { (k : ℕ) → k < length target.old →
        slice_index target.new k ≡ bit_xor (slice_index target.old k) (slice_index other.now k) }
{
    let len = target.len().min(other.len());
    for k in 0..len {
        target[k] ^= other[k];
    }
}

/// The fields of a text that a FEC header protects: P, X and CC; M and PT; the timestamp; how many octets come after
/// the first twelve.
pub(crate) fn fields_of(text: &[u8]) -> [u8; 8]
    requires at_least { HEADER ≤ length text.now }
    requires at_most { length text.now ≤ MOST_TEXT }
    ensures { result ≡ fields_of text.now }
{
    let [length1, length0] = ((text.len() - HEADER) as u16).to_be_bytes();
    [
        text[0] % 64,
        text[1],
        text[4],
        text[5],
        text[6],
        text[7],
        length1,
        length0,
    ]
}

/// The same, if it is to be added.
fn xor_if(adds: bool, target: &mut [u8], other: &[u8])
    ensures { (k : ℕ) → k < length target.old → slice_index target.new k ≡
        bit_xor (slice_index target.old k) (if adds then slice_index other.now k else 0) }
{
    if adds {
        xor_into(target, other);
    }
}

/// Adds the octets of a packet at this offset to those of levels, level after level. Both are those after the first
/// twelve.
pub(crate) fn add_octets(body: &mut [u8], spans: &[Span], long: bool, offset: u8, octets: &[u8])
    ensures { (k : ℕ) → k < length body.old → slice_index body.new k ≡
        bit_xor (slice_index body.old k)
        (if is_named long (mask_at spans.now k) offset then slice_index octets.now k else 0) }
{
    if spans.is_empty() {
        return;
    }
    let span = spans[0];
    let size = span.size.min(body.len());
    let (front, rest) = body.split_at_mut(size);
    xor_if(is_named(long, span.mask, u16::from(offset)), front, octets);
    add_octets(rest, &spans[1..], long, offset, from(octets, size));
}
