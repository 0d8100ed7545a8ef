//! From missing numbers to the feedback that asks for them.

ghost use Rattle.std.specs.Prelude.{◌≡◌, ◌+◌, ◌-◌, ◌%◌, ◌<◌, ◌≤◌, ◌∷◌, ◌++◌, length, map, slice_index};
ghost use Rattle.std.specs.List.Sorted.{IsStrictlyIncreasing};
ghost use Rattle.std.specs.Int.{w16, to_be_bytes};
ghost use Rattle.vrx_rtcp.specs.declared.types.TheConstants.{NACK_SPAN};
ghost use Rattle.vrx_rtcp.specs.declared.writing.TheConstants.{MOST_ITEMS, MOST_OCTETS};
ghost use Rattle.arrayvec.specs.ArrayVec.{array_vec_len};
ghost use Rattle.vrx_rtcp.specs.Feedback.{firsts, feedback_head, nack_octets, pli_octets};
ghost use Rattle.vrx_rtcp.specs.View.{item_of};

use crate::types::{BLP_BITS, FMT_NACK, FMT_PLI, NACK_SPAN, PSFB, RTPFB};
use arrayvec::ArrayVec;

/// How many items a NACK has at most: they begin more than [`BLP_BITS`] apart.
const MOST_ITEMS: usize = 1 + (NACK_SPAN / (BLP_BITS + 1)) as usize;

/// How many octets a NACK has at most: 12, and 4 for each item.
const MOST_OCTETS: usize = 12 + 4 * MOST_ITEMS;

/// An item of a generic NACK, before its first number is written modulo 65,536.
#[derive(Clone, Copy, Debug, Default, Drop, PartialEq, Eq)]
struct Item {
    /// Its first number.
    first: u64,
    /// The bits of the numbers after it.
    blp: u16,
}

impl Item {
    /// Its octets.
    fn octets(&self) -> [u8; 4]
        ensures { result ≡ to_be_bytes w16 (self.now.first % 65536) ++ to_be_bytes w16 self.now.blp }
    {
        let pid = ((self.first % 65_536) as u16).to_be_bytes();
        let blp = self.blp.to_be_bytes();
        [pid[0], pid[1], blp[0], blp[1]]
    }
}

/// The items of the numbers: `first`, and those after it.
fn items_of(first: u64, later: &[u64]) -> ArrayVec<Item, MOST_ITEMS>
    requires rising { IsStrictlyIncreasing (first ∷ later.now) }
    requires near { slice_index (first ∷ later.now) (length later.now) ≤ first + NACK_SPAN }
    ensures items { result.items ≡ map (item_of (first ∷ later.now)) (firsts (first ∷ later.now)) }
    ensures few { array_vec_len result ≤ MOST_ITEMS }
{
    let mut items = ArrayVec::new();
    let mut item = Item { first, blp: 0 };
    for n in later {
        if *n - item.first <= BLP_BITS {
            item.blp += 1 << (*n - item.first - 1);
        } else {
            items.push(item);
            item = Item { first: *n, blp: 0 };
        }
    }
    items.push(item);
    items
}

/// The octets of a feedback message before its items: header and SSRCs (RFC 4585 6.1).
fn head(format: u8, kind: u8, words: u16, from_ssrc: u32, media_ssrc: u32) -> [u8; 12]
    requires { format < 32 }
    ensures { result ≡ feedback_head format kind words from_ssrc media_ssrc }
{
    let words = words.to_be_bytes();
    let from = from_ssrc.to_be_bytes();
    let media = media_ssrc.to_be_bytes();
    [
        0x80 + format,
        kind,
        words[0],
        words[1],
        from[0],
        from[1],
        from[2],
        from[3],
        media[0],
        media[1],
        media[2],
        media[3],
    ]
}

/// Adds octets after those that are there.
fn append(octets: &mut ArrayVec<u8, MOST_OCTETS>, more: &[u8])
    requires room { array_vec_len octets.old + length more.now ≤ MOST_OCTETS }
    ensures { octets.new.items ≡ octets.old.items ++ more.now }
{
    for octet in more {
        octets.push(*octet);
    }
}

/// A generic NACK of these numbers (RFC 4585 6.2.1), from the SSRC of its sender, on the media of another. It takes
/// no memory.
pub fn nack_of(from_ssrc: u32, media_ssrc: u32, numbers: &[u64]) -> ArrayVec<u8, 496>
    requires some { 1 ≤ length numbers.now }
    requires rising { IsStrictlyIncreasing numbers.now }
    requires near { slice_index numbers.now (length numbers.now - 1) ≤ slice_index numbers.now 0 + NACK_SPAN }
    ensures octets { result.items ≡ nack_octets from_ssrc media_ssrc numbers.now }
{
    let items = items_of(numbers[0], numbers.split_at(1).1);
    let words = 2 + items.len() as u16;
    let mut octets = ArrayVec::new();
    append(
        &mut octets,
        &head(FMT_NACK, RTPFB, words, from_ssrc, media_ssrc),
    );
    for item in items.as_slice() {
        append(&mut octets, &item.octets());
    }
    octets
}

/// A picture loss indication (RFC 4585 6.3.1), from the SSRC of its sender, on the media of another.
pub fn pli(from_ssrc: u32, media_ssrc: u32) -> [u8; 12]
    ensures octets { result ≡ pli_octets from_ssrc media_ssrc }
{
    head(FMT_PLI, PSFB, 2, from_ssrc, media_ssrc)
}
