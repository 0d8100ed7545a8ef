//! From units to payloads.

ghost use Rattle.std.specs.Prelude.{◌≡◌, ◌≢◌, ◌↔◌, ℕ, ◌+◌, ◌*◌, ◌/◌, ◌%◌, ◌<◌, ◌≤◌, ◌==◌, nat_lt, false, if◌then◌else◌, List, [], ◌∷◌, ◌++◌, length, map, take, drop, slice_index, Ok, Err, OnOk, OnErr, IfOk};
ghost use Rattle.std.specs.List.{flat_map, list_any, Any, AllByRecursion};
ghost use Rattle.vrx_h264.specs.Nal.{kind as kind_of};
ghost use Rattle.vrx_h264.specs.Payload.{Whole, Cut, part_with, read_part};
ghost use Rattle.vrx_h264.specs.IsPayload.{IsUnit, with_size, IsPayload};
ghost use Rattle.vrx_h264.specs.Writing.{has_f as has_f_of, nri as nri_of, have_f as have_f_of, greatest_nri as greatest_nri_of, written_units, cut_at, written_cut};

use crate::bits::{BIT_E, BIT_F, BIT_S};
use crate::nal::kind;
use crate::types::{FU_A, STAP_A};
use crate::units::{Unit, Units};
use std::alloc::Global;
use vrx_codec::bit;
use vrx_num::NoMemory;

/// Why units aren't written.
#[derive(Clone, Copy, Debug, PartialEq, Eq, thiserror::Error)]
pub enum WriteFault {
    /// A unit has more than 65,535 octets, so that its size doesn't fit.
    #[error("a unit is too long")]
    SizeTooLong,
    /// Memory ran out.
    #[error("out of memory")]
    NoMemory,
}

/// The first octet of a unit, which has one.
fn head(unit: &[u8]) -> u8
    ensures { result ≡ slice_index unit.now 0 }
{
    match unit {
        [head, ..] => *head,
        [] => 0,
    }
}

/// Whether a unit has more octets than a size can say.
fn has_long(units: &[Unit]) -> bool
    ensures { result ≡ list_any (λ unit. nat_lt 65535 (length unit)) units.now }
{
    for unit in units {
        if unit.as_slice().len() > 65_535 {
            return true;
        }
    }
    false
}

/// Whether some unit has F.
fn have_f(units: &[Unit]) -> bool
    ensures { result ≡ have_f_of units.now }
{
    for unit in units {
        if bit(head(unit.as_slice()), BIT_F) {
            return true;
        }
    }
    false
}

/// The greatest NRI of the units.
fn greatest_nri(units: &[Unit]) -> u8
    ensures greatest { result ≡ greatest_nri_of units.now }
    ensures two_bits { result < 4 }
{
    let mut greatest = 0;
    for unit in units {
        let nri = head(unit.as_slice()) / 32 % 4;
        if nri > greatest {
            greatest = nri;
        }
    }
    greatest
}

/// Adds a unit after its size.
fn push_sized(out: &mut Vec<u8>, unit: &[u8]) -> Result<(), NoMemory>
    requires { length unit.now < 65536 }
    ensures { OnOk result (out.new.items ≡ out.old.items ++ with_size unit.now) }
{
    out.push((unit.len() / 256) as u8)?;
    out.push((unit.len() % 256) as u8)?;
    out.extend_from_slice(unit)?;
    Ok(())
}

/// The payload of units that fit.
fn stap_of(alloc: Global, units: &[Unit]) -> Result<Vec<u8>, NoMemory>
    requires { list_any (λ unit. nat_lt 65535 (length unit)) units.now ≡ false }
    ensures { IfOk result (λ payload. payload.items ≡ written_units units.now) }
{
    let mut payload = Vec::new(alloc);
    let f = if have_f(units) { BIT_F } else { 0 };
    payload.push(f + greatest_nri(units) * 32 + STAP_A)?;
    for unit in units {
        push_sized(&mut payload, unit.as_slice())?;
    }
    Ok(payload)
}

/// One payload of several units, a STAP-A (RFC 6184 5.7.1). There is at least one unit, and each is one as such: its
/// first octet says a type of 1 to 23. F of the payload's first octet is 1 if some unit has it, and NRI is the
/// greatest.
///
/// `SizeTooLong` comes if a unit has more than 65,535 octets.
pub fn write_stap(alloc: Global, units: &Units) -> Result<Vec<u8>, WriteFault>
    requires some { units.now ≢ [] }
    requires units { AllByRecursion IsUnit units.now }
    ensures spelled { IfOk result (λ payload. payload.items ≡ written_units units.now) }
    // What is written carries the units, and is read again.
    ensures carries { IfOk result (λ payload. IsPayload payload.items (map Whole units.now)) }
    ensures again { IfOk result (λ payload.
        read_part payload.items ≡ Ok (part_with payload.items (map Whole units.now))) }
    ensures too_long { (result ≡ Err WriteFault.SizeTooLong) ↔ Any (λ unit. 65535 < length unit) units.now }
{
    let units = units.as_slice();
    if has_long(units) {
        return Err(WriteFault::SizeTooLong);
    }
    match stap_of(alloc, units) {
        Ok(payload) => Ok(payload),
        Err(NoMemory) => Err(WriteFault::NoMemory),
    }
}

/// The header of the fragment of a unit with this first octet.
fn cut_header(head: u8, begins: bool, ends: bool) -> u8
    ensures { result ≡ (if begins then BIT_S else 0) + (if ends then BIT_E else 0) + kind_of head }
{
    let s = if begins { BIT_S } else { 0 };
    let e = if ends { BIT_E } else { 0 };
    s + e + kind(head)
}

/// One payload of a fragment of a unit, an FU-A (RFC 6184 5.8): of the `len` octets from octet `at` on. They lie
/// after the unit's first octet, and aren't all that do; that first octet says a type of 1 to 23.
///
/// F and NRI are the unit's. S is 1 if `at` is 1, E if the fragment ends the unit, and R is 0. The fragments of
/// a unit, one after another, join to it: [`crate::fragments_join`].
pub fn write_fu(alloc: Global, unit: &[u8], at: usize, len: usize) -> Result<Vec<u8>, NoMemory>
    requires unit { IsUnit unit.now }
    requires behind_first { 1 ≤ at }
    requires within { at + len ≤ length unit.now }
    requires not_all { len + 1 < length unit.now }
    ensures spelled { IfOk result (λ payload. payload.items ≡ written_cut (cut_at unit.now at len)) }
    // What is written carries the fragment, and is read again.
    ensures carries { IfOk result (λ payload. IsPayload payload.items (Cut (cut_at unit.now at len) ∷ [])) }
    ensures again { IfOk result (λ payload.
        read_part payload.items ≡ Ok (part_with payload.items (Cut (cut_at unit.now at len) ∷ []))) }
{
    let first = head(unit);
    let octets = unit.split_at(at).1.split_at(len).0;
    let mut payload = Vec::new(alloc);
    payload.push(first / 32 * 32 + FU_A)?;
    payload.push(cut_header(first, at == 1, at + len == unit.len()))?;
    payload.extend_from_slice(octets)?;
    Ok(payload)
}
