//! Rebuilding a lost packet (RFC 5109 9.1, 9.2).

ghost use Rattle.std.specs.Prelude.{◌≡◌, ◌↔◌, ℕ, ◌<◌, bit_xor, if◌then◌else◌, ◌≤◌, List, [], ◌∷◌, ◌++◌, length, map, replicate, take, drop, slice_index, vec_len, Ok, Err, IfOk, IsOkAnd, IsErrOf, nat_le};
ghost use Rattle.vrx_fec.specs.Mask.{is_named};
ghost use Rattle.vrx_fec.specs.Parity.{Texts, body_of, mask_at, recovery, spans_of as spans_in};
ghost use Rattle.vrx_fec.specs.Rebuilt.{IsOf, IsRebuildable, covered, covered_by, header_of, rebuilt, rebuilt_length};
ghost use Rattle.vrx_fec.specs.View.{view, view_level, view_rebuilt};

use crate::fec::{Fec, Level};
use crate::mask::is_named;
use crate::parity::{HEADER, MOST_TEXT, add_octets, fields_of, xor_into};
use crate::span::{Span, spans_of};
use std::alloc::Global;
use std::marker::Model;
use vrx_num::NoMemory;
use vrx_num::limits::MOST_OCTETS;
use vrx_num::slices::from;

/// A rebuilt packet has at most so many octets after its first twelve, and so no more than a datagram.
pub(crate) const MOST_REBUILT: usize = MOST_OCTETS - HEADER;

/// Why a packet isn't rebuilt, in the order in which it is tested.
#[derive(Clone, Copy, Debug, PartialEq, Eq, thiserror::Error)]
pub enum RecoverFault {
    /// It would have more than 9,204 octets after its first twelve.
    #[error("the rebuilt length is too great")]
    BadLength,
    /// It has more octets than the levels that name it protect.
    #[error("the levels don't cover the packet")]
    NotCovered,
}

/// The XOR of a FEC payload and of texts that were added to it.
///
/// Contracts see the fields and the octets that it has added up. Its memory is taken once.
#[derive(Debug, Drop)]
pub struct Register {
    /// The fields that the FEC header protects.
    fields: [u8; 8],
    /// Room for the first twelve octets of the rebuilt packet, and then the octets of all levels.
    text: Vec<u8>,
}

impl Model for Register {
    ghost use Rattle.std.specs.Prelude.{◌<◌, ◌≤◌, drop, length, slice_index};
    ghost use Rattle.vrx_fec.specs.Rebuilt.{Sums};

    ghost Value = { Sums };

    ghost view = { λ a. record { fields = a.fields; body = drop 12 a.text.items } };

    ghost invariant = { λ a. (12 ≤ length a.text.items) × (slice_index a.fields 0 < 64) };
}

impl Register {
    /// A register of the payload, to which nothing was added. Only this call takes memory.
    pub fn start(alloc: Global, fec: &Fec<'_>) -> Result<Register, NoMemory>
        ensures starts { IfOk result (λ register. IsOf register (view fec.now) []) }
    {
        let text = text_of(alloc, fec.levels.as_slice())?;
        Ok(Register {
            fields: recovery_of(&fec.head),
            text,
        })
    }

    /// Adds the text of the packet at this offset from SN base: the packet from its RTP header on, of 12 to 65,547
    /// octets. The payload is the one with which the register was started.
    pub fn add(&mut self, fec: &Fec<'_>, offset: u8, text: &[u8])
        requires at_least { HEADER ≤ length text.now }
        requires at_most { length text.now ≤ MOST_TEXT }
        ensures adds { (texts : Texts) → IsOf self.old (view fec.now) texts →
            IsOf self.new (view fec.now) ((offset, text.now) ∷ texts) }
    {
        xor_into(&mut self.fields, &fields_of(text));
        add_to_text(&mut self.text, fec, offset, text);
    }

    /// The packet that is missing, at this offset from SN base and of this SSRC, once all others were added. It takes
    /// no memory.
    pub fn finish(self, fec: &Fec<'_>, missing: u8, ssrc: u32) -> Result<Vec<u8>, RecoverFault>
        ensures rebuilds { (texts : Texts) → IsOf self (view fec.now) texts →
            view_rebuilt result ≡ rebuilt (view fec.now) texts missing ssrc }

        // Of a true payload and all other texts it is the text that is missing, if that can be rebuilt.
        ensures gives { (others : Texts) (text : List ℕ) → IsOf self (view fec.now) others →
            IsRebuildable (view fec.now) others missing ssrc text → IsOkAnd result (λ out. out.items ≡ text) }

        // When it isn't rebuilt.
        ensures bad_length { (texts : Texts) → IsOf self (view fec.now) texts →
            (IsErrOf result RecoverFault.BadLength ↔ (MOST_REBUILT < rebuilt_length (view fec.now) texts)) }
        ensures not_covered { (texts : Texts) → IsOf self (view fec.now) texts →
            (IsErrOf result RecoverFault.NotCovered ↔
            (rebuilt_length (view fec.now) texts ≤ MOST_REBUILT)
            × (covered (view fec.now) missing < rebuilt_length (view fec.now) texts)) }
    {
        self.rebuild(fec, missing, ssrc)
    }

    /// What is rebuilt, or why nothing is.
    fn rebuild(self, fec: &Fec<'_>, missing: u8, ssrc: u32) -> Result<Vec<u8>, RecoverFault>
        ensures rebuilds { (texts : Texts) → IsOf self (view fec.now) texts →
            view_rebuilt result ≡ rebuilt (view fec.now) texts missing ssrc }
    {
        let length = usize::from(u16::from_be_bytes([self.fields[6], self.fields[7]]));
        if length > MOST_REBUILT {
            return Err(RecoverFault::BadLength);
        }
        let spans = spans_of(&fec.levels);
        if !is_covered(length, spans.as_slice(), fec.long, missing) {
            return Err(RecoverFault::NotCovered);
        }
        let number = fec.base.wrapping_add(u16::from(missing));
        let header = header_of(self.fields, number, ssrc);
        Ok(with_header(self.text, &header, length))
    }
}

/// Adds a text's octets after its first twelve to those after the first twelve of another one.
fn add_to_text(to: &mut Vec<u8>, fec: &Fec<'_>, offset: u8, text: &[u8])
    requires { 12 ≤ length to.old.items }
    ensures size { length to.new.items ≡ length to.old.items }
    ensures body { (k : ℕ) → k < length (drop 12 to.old.items) → slice_index (drop 12 to.new.items) k ≡
        bit_xor (slice_index (drop 12 to.old.items) k)
        (if is_named fec.now.long (mask_at (spans_in (view fec.now).levels) k) offset
        then slice_index (drop 12 text.now) k else 0) }
{
    let spans = spans_of(&fec.levels);
    let (_room, body) = to.as_mut_slice().split_at_mut(HEADER);
    add_octets(body, spans.as_slice(), fec.long, offset, from(text, HEADER));
}

/// Room for the first twelve octets of a packet, and the octets of all levels.
fn text_of(alloc: Global, levels: &[Level<'_>]) -> Result<Vec<u8>, NoMemory>
    ensures { IfOk result (λ text. text.items ≡ replicate 12 0 ++ body_of (map view_level levels.now)) }
{
    let size = levels.iter().fold(
        12,
        |size: usize, level| size.saturating_add(level.octets.len()),
    );
    let mut text = Vec::with_capacity(alloc, size)?;
    text.extend_from_slice(&[0; 12])?;
    for level in levels {
        text.extend_from_slice(level.octets)?;
    }
    Ok(text)
}

/// The first twelve octets of a packet of these fields and of this number and SSRC. Its version is 2.
fn header_of(fields: [u8; 8], number: u16, ssrc: u32) -> [u8; 12]
    requires { slice_index fields 0 < 64 }
    ensures { result ≡ header_of fields number ssrc }
{
    let [f0, f1, f2, f3, f4, f5, _, _] = fields;
    let [n1, n0] = number.to_be_bytes();
    let [s3, s2, s1, s0] = ssrc.to_be_bytes();
    [128 + f0, f1, n1, n0, f2, f3, f4, f5, s3, s2, s1, s0]
}

/// The text with this header as its first twelve octets, and with so many of the octets after them.
fn with_header(text: Vec<u8>, header: &[u8; 12], length: usize) -> Vec<u8>
    requires room { 12 ≤ vec_len text }
    requires fits { length ≤ 65535 }
    ensures { result.items ≡ header.now ++ take length (drop 12 text.items) }
{
    let mut text = text;
    text.truncate(HEADER + length);
    put_front(text.as_mut_slice(), header);
    text
}

/// Puts a header over the first twelve octets.
fn put_front(text: &mut [u8], header: &[u8; 12])
    requires { 12 ≤ length text.old }
    ensures { text.new ≡ header.now ++ drop 12 text.old }
{
    let (front, _rest) = text.split_at_mut(HEADER);
    front.copy_from_slice(header);
}

/// The recovery fields of a FEC header.
fn recovery_of(head: &[u8; 10]) -> [u8; 8]
    ensures { result ≡ recovery head.now }
{
    [
        head[0] % 64,
        head[1],
        head[4],
        head[5],
        head[6],
        head[7],
        head[8],
        head[9],
    ]
}

/// Whether so many octets of the packet at this offset are covered.
fn is_covered(length: usize, spans: &[Span], long: bool, offset: u8) -> bool
    ensures { result ≡ nat_le length (covered_by long spans.now offset) }
{
    let mut left = length;
    for span in spans {
        if is_named(long, span.mask, u16::from(offset)) {
            left = left.saturating_sub(span.size);
        }
    }
    left == 0
}
