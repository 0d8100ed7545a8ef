//! How the units of parts go on, one part after another (RFC 6184 5.7, 5.8).

ghost use Rattle.std.specs.Prelude.{◌≡◌, ℕ, ◌+◌, ◌*◌, ◌/◌, ◌%◌, ◌^◌, ◌≤◌, ◌++◌, List, length, map, vec_len, vec_capacity};
ghost use Rattle.std.specs.List.{flat_map};
ghost use Rattle.vrx_h264.specs.Aggregate.{units_of};
ghost use Rattle.vrx_h264.specs.Payload.{Whole, Cut, pieces, cut_of};
ghost use Rattle.vrx_h264.specs.AccessUnit.{after_code};
ghost use Rattle.vrx_h264.specs.Joining.{begun_after as begun_behind_of, begun_after_all, piece_octets, added_octets as added_of};

use crate::aggregate::first_unit;
use crate::bits::{BIT_E, BIT_S};
use crate::faults::{FU_MIXED, FU_NO_END, FU_NO_START};
use crate::nal::{Structure, kind, structure_of};
use vrx_codec::{JoinFault, bit};

/// What stands before each unit.
pub(crate) const START_CODE: [u8; 4] = [0, 0, 0, 1];

/// The first octet of a fragment's unit: F and NRI of its indicator, and the type of its header.
pub(crate) fn first_octet(indicator: u8, header: u8) -> u8
    ensures { result ≡ indicator / 32 * 32 + header % 32 }
{
    indicator / 32 * 32 + kind(header)
}

/// The unit that is begun after a whole one: none.
fn begun_after_whole(begun: Option<u8>) -> Result<Option<u8>, JoinFault>
    ensures { (unit : List ℕ) → result ≡ begun_behind_of begun (Whole unit) }
{
    match begun {
        None => Ok(None),
        Some(_) => Err(JoinFault { code: FU_NO_END }),
    }
}

/// The unit that is begun after those of an aggregate.
fn begun_after_units(begun: Option<u8>, octets: &[u8]) -> Result<Option<u8>, JoinFault>
    ensures { result ≡ begun_after_all begun (map Whole (units_of octets.now).units) }
{
    match first_unit(octets) {
        Some(_) => begun_after_whole(begun),
        None => Ok(begun),
    }
}

/// The unit that is begun after a fragment, by its indicator and header.
fn begun_after_header(begun: Option<u8>, indicator: u8, header: u8) -> Result<Option<u8>, JoinFault>
    ensures { (octets : List ℕ) → result ≡ begun_behind_of begun
        (Cut (record { indicator = indicator; header = header; octets = octets })) }
{
    match begun {
        None => {
            if bit(header, BIT_S) {
                Ok(Some(first_octet(indicator, header)))
            } else {
                Err(JoinFault { code: FU_NO_START })
            }
        }
        Some(first) => {
            if bit(header, BIT_S) {
                Err(JoinFault { code: FU_NO_END })
            } else if kind(first) == kind(header) {
                Ok(if bit(header, BIT_E) {
                    None
                } else {
                    Some(first)
                })
            } else {
                Err(JoinFault { code: FU_MIXED })
            }
        }
    }
}

/// The unit that is begun after a fragment.
fn begun_after_cut(begun: Option<u8>, indicator: u8, octets: &[u8]) -> Result<Option<u8>, JoinFault>
    ensures { result ≡ begun_after_all begun (cut_of indicator octets.now) }
{
    match octets {
        [header, ..] => begun_after_header(begun, indicator, *header),
        [] => Ok(begun),
    }
}

/// The first octet of the unit that is begun after a payload, if one is, from that before it.
pub(crate) fn begun_after(begun: Option<u8>, payload: &[u8]) -> Result<Option<u8>, JoinFault>
    ensures { result ≡ begun_after_all begun (pieces payload.now) }
{
    let [head, octets @ ..] = payload else {
        return Ok(begun);
    };
    match structure_of(kind(*head)) {
        Structure::Single => begun_after_whole(begun),
        Structure::Aggregate => begun_after_units(begun, octets),
        Structure::Fragmented => begun_after_cut(begun, *head, octets),
        Structure::Other => Ok(begun),
    }
}

/// How many octets the units of an aggregate add.
fn added_units(octets: &[u8]) -> usize
    requires { length octets.now ≤ 2 ^ 28 }
    ensures added { result ≡ length (flat_map piece_octets (map Whole (units_of octets.now).units)) }
{
    let mut total = 0;
    let mut rest = octets;
    while let Some((unit, behind)) = first_unit(rest) {
        total += START_CODE.len() + unit.len();
        rest = behind;
    }
    total
}

/// How many octets a fragment adds.
fn added_cut(octets: &[u8]) -> usize
    requires { length octets.now ≤ 2 ^ 28 }
    ensures added { (indicator : ℕ) → result ≡ length (flat_map piece_octets (cut_of indicator octets.now)) }
{
    match octets {
        [header, octets @ ..] => {
            if bit(*header, BIT_S) {
                START_CODE.len() + 1 + octets.len()
            } else {
                octets.len()
            }
        }
        [] => 0,
    }
}

/// How many octets a payload adds to those joined.
pub(crate) fn added_len(payload: &[u8]) -> usize
    requires { length payload.now ≤ 2 ^ 28 }
    ensures { result ≡ length (added_of payload.now) }
{
    let [head, octets @ ..] = payload else {
        return 0;
    };
    match structure_of(kind(*head)) {
        Structure::Single => START_CODE.len() + payload.len(),
        Structure::Aggregate => added_units(octets),
        Structure::Fragmented => added_cut(octets),
        Structure::Other => 0,
    }
}
