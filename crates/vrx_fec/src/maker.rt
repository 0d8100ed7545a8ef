//! Making a FEC payload (RFC 5109 8.1, 8.2).

ghost use Rattle.std.specs.Prelude.{◌≡◌, ℕ, ◌+◌, ◌*◌, ◌^◌, ◌<◌, ◌≤◌, bit_xor, if◌then◌else◌, false, [], ◌∷◌, ◌++◌, All, length, map, drop, flat_map, slice_index, vec_capacity, Ok, IfOk, IsOkAnd, IsPermutation};
ghost use Rattle.vrx_fec.specs.Made.{ArePlanned, levels_of, total};
ghost use Rattle.vrx_fec.specs.Making.{IsPlan, blank, form_of, head_of, span_in};
ghost use Rattle.vrx_fec.specs.Mask.{is_named, width};
ghost use Rattle.vrx_fec.specs.Parity.{IsParity, IsTrue, Texts, mask_at, offsets_of};
ghost use Rattle.vrx_fec.specs.Payload.{IsPayload, is_ahead, level_octets, mask_octets, octets_of, protected};
ghost use Rattle.vrx_fec.specs.Reading.{reading};

use crate::fec::HEAD;
use crate::parity::{HEADER, MOST_TEXT, add_octets, fields_of, xor_into};
use crate::span::Span;
use arrayvec::ArrayVec;
use std::alloc::Global;
use std::marker::Model;
use vrx_num::NoMemory;
use vrx_num::slices::from;

/// What a level is to protect.
#[derive(Clone, Copy, Debug, PartialEq, Eq)]
pub struct LevelPlan {
    /// The mask, as in [`Level`](crate::Level).
    pub mask: u64,
    /// How many octets of each packet it protects: the protection length.
    pub length: u16,
}

/// A FEC payload in the making.
///
/// Contracts see the payload, to which some texts were added. Its memory is taken once.
#[derive(Debug, Drop)]
pub struct FecMaker {
    base: u16,
    long: bool,
    spans: ArrayVec<Span, 8>,
    /// The recovery fields.
    fields: [u8; 8],
    /// The octets of all levels.
    body: Vec<u8>,
    /// Room for the payload.
    out: Vec<u8>,
}

impl Model for FecMaker {
    ghost use Rattle.std.specs.Prelude.{◌≡◌, [], length, vec_capacity};
    ghost use Rattle.vrx_fec.specs.Made.{made, IsMaker};
    ghost use Rattle.vrx_fec.specs.Payload.{Payload};

    ghost Value = { Payload };

    ghost view = { λ a. made a.long a.base a.spans.items a.fields a.body.items };

    ghost invariant = { λ a.
        IsMaker a.long a.base a.spans.items a.fields a.body.items a.out.items (vec_capacity a.out) };
}

impl FecMaker {
    /// The payload of a plan, to which nothing was added: of one to eight levels, each mask within the one before it,
    /// and the first with offset 0 in it. `base` is the SN base, and masks have 48 bits if they are `long`, and else
    /// 16. Only this call takes memory.
    pub fn start(
        alloc: Global,
        base: u16,
        long: bool,
        levels: &[LevelPlan],
    ) -> Result<FecMaker, NoMemory>
        requires plan { IsPlan long levels.now }
        ensures starts { IfOk result (λ maker. maker ≡ blank long base levels.now) }
        ensures parity { IfOk result (λ maker. IsParity maker []) }
    {
        let spans = spans_of_plan(levels);
        let total = total_of(spans.as_slice());
        Ok(FecMaker {
            base,
            long,
            spans,
            fields: [0; 8],
            body: vec![in alloc; 0; total]?,
            out: Vec::with_capacity(alloc, HEAD + 8 * levels.len() + total)?,
        })
    }

    /// Adds the text of the packet at this offset from SN base: the packet from its RTP header on, of 12 to 65,547
    /// octets.
    pub fn add(&mut self, offset: u8, text: &[u8])
        requires at_least { HEADER ≤ length text.now }
        requires at_most { length text.now ≤ MOST_TEXT }
        ensures adds { (texts : Texts) → IsParity self.old texts → IsParity self.new ((offset, text.now) ∷ texts) }
        // Its form stays, and with it what it protects, and after which numbers it comes.
        ensures kept { form_of self.new ≡ form_of self.old }
        ensures protects { protected self.new ≡ protected self.old }
        ensures ahead { (own : ℕ) → is_ahead own self.new ≡ is_ahead own self.old }
    {
        xor_into(&mut self.fields, &fields_of(text));
        add_to_body(
            &mut self.body,
            self.spans.as_slice(),
            self.long,
            offset,
            text,
        );
    }

    /// The payload. It takes no memory.
    pub fn finish(self) -> Vec<u8>
        ensures spelled { result.items ≡ octets_of self }
        // It is the payload of each FEC packet that comes after all that it protects, and is read as that.
        ensures payload { (own : ℕ) → is_ahead own self ≡ false → IsPayload result.items own self }
        ensures reads { (own : ℕ) → is_ahead own self ≡ false → reading result.items own ≡ Ok self }
        // What is read of it is true, if just the texts were added that level 0 names, each once.
        ensures is_true { (own : ℕ) (texts : Texts) → is_ahead own self ≡ false → IsParity self texts →
            IsPermutation (protected self) (offsets_of texts) →
            IsOkAnd (reading result.items own) (λ p. IsTrue p texts) }
    {
        let FecMaker {
            base,
            long,
            spans,
            fields,
            body,
            mut out,
        } = self;
        put(&mut out, &head_of(long, base, fields));
        put_levels(&mut out, long, spans.as_slice(), body.as_slice());
        out
    }
}

/// What the levels of a plan protect.
fn spans_of_plan(levels: &[LevelPlan]) -> ArrayVec<Span, 8>
    requires { length levels.now ≤ 8 }
    ensures spans { result.items ≡ map span_in levels.now }
    ensures sizes { All (λ span. span.size < 2 ^ 16) result.items }
{
    let mut spans = ArrayVec::new();
    for level in levels {
        spans.push(Span {
            mask: level.mask,
            size: usize::from(level.length),
        });
    }
    spans
}

/// How many octets of a packet the levels protect, in all.
fn total_of(spans: &[Span]) -> usize
    requires few { length spans.now ≤ 8 }
    requires sizes { All (λ span. span.size < 2 ^ 16) spans.now }
    ensures total { result ≡ total spans.now }
    ensures bound { result ≤ 65536 * length spans.now }
{
    let mut total = 0;
    for span in spans {
        total += span.size;
    }
    total
}

/// Adds a text's octets after its first twelve.
fn add_to_body(body: &mut Vec<u8>, spans: &[Span], long: bool, offset: u8, text: &[u8])
    ensures size { length body.new.items ≡ length body.old.items }
    ensures body { (k : ℕ) → k < length body.old.items → slice_index body.new.items k ≡
        bit_xor (slice_index body.old.items k)
        (if is_named long (mask_at spans.now k) offset then slice_index (drop 12 text.now) k else 0) }
{
    add_octets(body.as_mut_slice(), spans, long, offset, from(text, HEADER));
}

/// The FEC header with these recovery fields.
fn head_of(long: bool, base: u16, fields: [u8; 8]) -> [u8; 10]
    requires { slice_index fields 0 < 64 }
    ensures { result ≡ head_of long base fields }
{
    let [f0, f1, f2, f3, f4, f5, f6, f7] = fields;
    let [b1, b0] = base.to_be_bytes();
    let flag = if long { 64 } else { 0 };
    [flag + f0, f1, b1, b0, f2, f3, f4, f5, f6, f7]
}

/// Puts octets last, for which there is room.
fn put(out: &mut Vec<u8>, octets: &[u8])
    requires { length out.old.items + length octets.now ≤ vec_capacity out.old }
    ensures items { out.new.items ≡ out.old.items ++ octets.now }
    ensures capacity { vec_capacity out.old ≤ vec_capacity out.new }
{
    match out.extend_from_slice(octets) {
        Ok(()) => {}
        Err(_) => unreachable!(),
    }
}

/// Puts a mask last, for which there is room.
fn put_mask(out: &mut Vec<u8>, long: bool, mask: u64)
    requires fits { mask < 2 ^ width long }
    requires room { length out.old.items + length (mask_octets long mask) ≤ vec_capacity out.old }
    ensures items { out.new.items ≡ out.old.items ++ mask_octets long mask }
    ensures capacity { vec_capacity out.old ≤ vec_capacity out.new }
{
    if long {
        let [_, _, m5, m4, m3, m2, m1, m0] = mask.to_be_bytes();
        put(out, &[m5, m4, m3, m2, m1, m0]);
    } else {
        put(out, &(mask as u16).to_be_bytes());
    }
}

/// Puts a level last, for which there is room.
fn put_level(out: &mut Vec<u8>, long: bool, mask: u64, octets: &[u8])
    requires fits { mask < 2 ^ width long }
    requires size { length octets.now < 2 ^ 16 }
    requires room { length out.old.items + length (level_octets long (record { mask = mask; octets = octets.now }))
        ≤ vec_capacity out.old }
    ensures items { out.new.items ≡ out.old.items ++ level_octets long (record { mask = mask; octets = octets.now }) }
    ensures capacity { vec_capacity out.old ≤ vec_capacity out.new }
{
    put(out, &(octets.len() as u16).to_be_bytes());
    put_mask(out, long, mask);
    put(out, octets);
}

/// Puts levels last, for which there is room. Their octets are cut from one list.
fn put_levels(out: &mut Vec<u8>, long: bool, spans: &[Span], body: &[u8])
    requires planned { ArePlanned long spans.now }
    requires size { length body.now ≡ total spans.now }
    requires room { length out.old.items + 8 * length spans.now + total spans.now ≤ vec_capacity out.old }
    ensures { out.new.items ≡ out.old.items ++ flat_map (level_octets long) (levels_of spans.now body.now) }
{
    let mut rest = body;
    for span in spans {
        let (octets, after) = rest.split_at(span.size);
        put_level(out, long, span.mask, octets);
        rest = after;
    }
}
