//! The numbers that a FEC packet protects.

ghost use Rattle.std.specs.Prelude.{◌≡◌, ◌+◌, ◌%◌, ◌≤◌, true, ◌&&◌, not, [], ◌∷◌, MatchOption, IfSome};
ghost use Rattle.vrx_fec.specs.Mask.{is_named, width};
ghost use Rattle.vrx_fec.specs.Payload.{protected};
ghost use Rattle.vrx_fec.specs.View.{view};
ghost use Rattle.vrx_window.specs.Window.{is_available};
ghost use Rattle.vrx_repair.specs.Seen.{AreNumbers, missing_from, packets_by, protects};
ghost use Rattle.vrx_repair.specs.Step.{base_of, missing_of, only_one};

use crate::seen::{Seen, Sight, look};
use vrx_fec::Fec;

/// How many numbers 16 bits tell apart.
const SPACE: u64 = 65_536;

/// The wire number of an extended one.
pub(crate) fn wire_of(n: u64) -> u16
    ensures { result ≡ n % 65536 }
{
    (n % SPACE) as u16
}

/// SN base of the FEC packet of a number, as an extended number (RFC 3550 A.1).
pub(crate) fn base_of(m: u64, fec: &Fec<'_>) -> u64
    ensures { result ≡ base_of m (view fec.now) }
{
    m.saturating_sub(u64::from(wire_of(m).wrapping_sub(fec.base)))
}

/// How many offsets a mask has room for.
pub(crate) fn width(long: bool) -> u8
    ensures { result ≡ width long }
{
    if long { 48 } else { 16 }
}

/// Whether a mask names an offset (RFC 5109 7.4).
fn is_named(long: bool, mask: u64, offset: u8) -> bool
    ensures { result ≡ is_named long mask offset }
{
    let width = width(long);
    offset < width && (mask >> (width - 1 - offset)) % 2 == 1
}

/// Whether level 0 names an offset.
pub(crate) fn protects(fec: &Fec<'_>, offset: u8) -> bool
    ensures { result ≡ protects (view fec.now) offset }
{
    match fec.levels.as_slice() {
        [first, ..] => is_named(fec.long, first.mask, offset),
        [] => false,
    }
}

/// Whether nothing stands under a number.
fn is_missing(seen: &Seen<'_>, n: u64) -> bool
    ensures { result ≡ not (is_available n (packets_by seen.now)) }
{
    match look(seen, n) {
        Sight::Nothing => true,
        Sight::Media(_) => false,
        Sight::Fec(_) => false,
        Sight::Empty => false,
    }
}

/// Whether level 0 names an offset, and nothing stands under its number.
fn misses(seen: &Seen<'_>, base: u64, fec: &Fec<'_>, offset: u8) -> bool
    requires { AreNumbers base (view fec.now) }
    ensures { result ≡ (protects (view fec.now) offset && not (is_available (base + offset) (packets_by seen.now))) }
{
    protects(fec, offset) && is_missing(seen, base + u64::from(offset))
}

/// The first of the offsets from one on that level 0 names and under whose numbers nothing stands.
fn first_missing(seen: &Seen<'_>, base: u64, fec: &Fec<'_>, from: u8) -> Option<u8>
    requires numbers { AreNumbers base (view fec.now) }
    requires within { from ≤ width (view fec.now).long }
    ensures first { let missing = missing_from (packets_by seen.now) base (view fec.now) in
        MatchOption result (missing from ≡ []) (λ i. missing from ≡ i ∷ missing (i + 1)) }
    ensures named { IfSome result (λ i. protects (view fec.now) i ≡ true) }
{
    for offset in from..width(fec.long) {
        if misses(seen, base, fec, offset) {
            return Some(offset);
        }
    }
    None
}

/// The one offset that level 0 names under whose number nothing stands, if there is just one.
pub(crate) fn missing_of(seen: &Seen<'_>, base: u64, fec: &Fec<'_>) -> Option<u8>
    requires { AreNumbers base (view fec.now) }
    ensures one { result ≡ only_one (missing_of (packets_by seen.now) base (protected (view fec.now))) }
    ensures named { IfSome result (λ i. protects (view fec.now) i ≡ true) }
{
    match first_missing(seen, base, fec, 0) {
        None => None,
        Some(offset) => match first_missing(seen, base, fec, offset + 1) {
            None => Some(offset),
            Some(_) => None,
        },
    }
}
