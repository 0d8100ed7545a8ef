//! From octets to a FEC payload (RFC 5109 7.3, 7.4).

ghost use Rattle.std.specs.Prelude.{◌≡◌, ℕ, ◌+◌, length, Some, None, Ok, IfOk, IsOkAnd, map};
ghost use Rattle.std.specs.Option.{option_map};
ghost use Rattle.vrx_fec.specs.Payload.{Payload, IsPayload, distance, first_mask, is_ahead, masks};
ghost use Rattle.vrx_fec.specs.Reading.{level_header_at, level_at, level_size, is_nested, next_level_at, levels_at, head_at, protecting, reading};
ghost use Rattle.vrx_fec.specs.View.{view, view_level, view_result, result_by};

use crate::fault::{FecFault, FecFaultKind};
use crate::fec::{Fec, HEAD, Level};
use crate::mask::{is_within, names_from};
use arrayvec::ArrayVec;
use vrx_num::limits::HALF_SPACE;

/// The protection length, the mask, and what is after them.
fn level_header_of(long: bool, octets: &[u8]) -> Option<(u16, u64, &[u8])>
    ensures { option_map (λ x. (x.0, x.1, x.2.now)) result ≡ level_header_at long octets.now }
{
    if long {
        let [l1, l0, m5, m4, m3, m2, m1, m0, rest @ ..] = octets else {
            return None;
        };
        let mask = u64::from_be_bytes([0, 0, *m5, *m4, *m3, *m2, *m1, *m0]);
        Some((u16::from_be_bytes([*l1, *l0]), mask, rest))
    } else {
        let [l1, l0, m1, m0, rest @ ..] = octets else {
            return None;
        };
        let mask = u64::from(u16::from_be_bytes([*m1, *m0]));
        Some((u16::from_be_bytes([*l1, *l0]), mask, rest))
    }
}

/// The level at this offset, and what is after it.
fn level_of(long: bool, at: usize, octets: &[u8]) -> Result<(Level<'_>, &[u8]), FecFault>
    ensures { result_by (λ x. (view_level x.0, x.1.now)) result ≡ level_at long at octets.now }
{
    let past_end = FecFault {
        kind: FecFaultKind::LevelPastEnd,
        at,
    };
    let Some((size, mask, rest)) = level_header_of(long, octets) else {
        return Err(past_end);
    };
    if rest.len() < usize::from(size) {
        return Err(past_end);
    }
    let (octets, rest) = rest.split_at(usize::from(size));
    Ok((Level { mask, octets }, rest))
}

/// Whether a mask is within the one before it, if there is one.
fn is_nested(before: Option<u64>, mask: u64) -> bool
    ensures { result ≡ is_nested before mask }
{
    match before {
        Some(before) => is_within(mask, before),
        None => true,
    }
}

/// The same, if the level's mask is within the one before it.
fn next_level_of(
    long: bool,
    before: Option<u64>,
    at: usize,
    octets: &[u8],
) -> Result<(Level<'_>, &[u8]), FecFault>
    ensures reads { result_by (λ x. (view_level x.0, x.1.now)) result ≡ next_level_at long before at octets.now }
    ensures leaves { IfOk result (λ x. length octets.now ≡ level_size long (view_level x.0) + length x.1.now) }
{
    let (level, rest) = level_of(long, at, octets)?;
    if !is_nested(before, level.mask) {
        return Err(FecFault {
            kind: FecFaultKind::NotNested,
            at,
        });
    }
    Ok((level, rest))
}

/// The levels to the end of the payload. The octets stand at octet `HEAD` of it.
fn levels_of(long: bool, octets: &[u8]) -> Result<ArrayVec<Level<'_>, 8>, FecFault>
    ensures { result_by (λ x. map view_level x.items) result ≡ levels_at 8 long None HEAD octets.now }
{
    let mut levels = ArrayVec::new();
    let mut before = None;
    let mut at = HEAD;
    let mut rest = octets;
    while rest.len() > 0 {
        if levels.is_full() {
            return Err(FecFault {
                kind: FecFaultKind::ManyLevels,
                at,
            });
        }
        match next_level_of(long, before, at, rest) {
            Ok((level, after)) => {
                at += rest.len() - after.len();
                before = Some(level.mask);
                rest = after;
                levels.push(level);
            }
            Err(fault) => return Err(fault),
        }
    }
    Ok(levels)
}

/// The FEC header, and what is after it.
fn head_of(payload: &[u8]) -> Result<([u8; 10], &[u8]), FecFault>
    ensures { result_by (λ x. (x.0, x.1.now)) result ≡ head_at payload.now }
{
    let [h0, h1, h2, h3, h4, h5, h6, h7, h8, h9, rest @ ..] = payload else {
        return Err(FecFault {
            kind: FecFaultKind::Short,
            at: payload.len(),
        });
    };
    let head = [*h0, *h1, *h2, *h3, *h4, *h5, *h6, *h7, *h8, *h9];
    Ok((head, rest))
}

/// The mask of level 0, and 0 if there is none.
fn first_mask(fec: &Fec<'_>) -> u64
    ensures { result ≡ first_mask (masks (view fec.now).levels) }
{
    match fec.levels.as_slice() {
        [first, ..] => first.mask,
        [] => 0,
    }
}

/// How far a number lies beyond SN base.
fn distance(own: u16, base: u16) -> u16
    ensures { result ≡ distance own base }
{
    own.wrapping_sub(base)
}

/// Whether a number that the payload protects isn't before the packet's own.
fn is_ahead(fec: &Fec<'_>, own: u16) -> bool
    ensures { result ≡ is_ahead own (view fec.now) }
{
    let distance = distance(own, fec.base);
    u64::from(distance) >= HALF_SPACE || names_from(fec.long, first_mask(fec), distance)
}

/// The payload, if it protects something, and only numbers before its own.
fn protecting(fec: Fec<'_>, own: u16) -> Result<Fec<'_>, FecFault>
    ensures { view_result result ≡ protecting own (view fec.entry) }
{
    if first_mask(&fec) == 0 {
        return Err(FecFault {
            kind: FecFaultKind::NoneProtected,
            at: HEAD,
        });
    }
    if is_ahead(&fec, own) {
        return Err(FecFault {
            kind: FecFaultKind::AheadOfSelf,
            at: 2,
        });
    }
    Ok(fec)
}

/// The payload that the octets are, taken from the front.
fn payload_of(payload: &[u8], own: u16) -> Result<Fec<'_>, FecFault>
    ensures { view_result result ≡ reading payload.now own }
{
    let (head, rest) = head_of(payload)?;
    let long = head[0] / 64 % 2 == 1;
    let base = u16::from_be_bytes([head[2], head[3]]);
    match levels_of(long, rest) {
        Ok(levels) => protecting(
            Fec {
                base,
                head,
                long,
                levels,
            },
            own,
        ),
        Err(fault) => Err(fault),
    }
}

/// The FEC payload that the octets of the packet of this number are (RFC 5109 7.3, 7.4). It takes no memory.
///
/// Octets that are none have the first fault that applies, in the order of [`FecFaultKind`]. Bit E is ignored, and a
/// protection length may be 0.
pub fn read_fec(payload: &[u8], own: u16) -> Result<Fec<'_>, FecFault>
    // What is read, wherever it lies in memory.
    ensures reads { view_result result ≡ reading payload.now own }
    // What is read has the form of a payload, and what has that form is read.
    ensures payload { IfOk result (λ fec. IsPayload payload.now own (view fec)) }
    ensures only { (p : Payload) → IsPayload payload.now own p → IsOkAnd result (λ fec. view fec ≡ p) }
{
    payload_of(payload, own)
}
