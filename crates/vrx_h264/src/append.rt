//! From the units of parts to the octets of a frame.

ghost use Rattle.std.specs.Prelude.{◌≡◌, ℕ, ◌+◌, ◌*◌, ◌/◌, ◌%◌, ◌≤◌, ◌∷◌, ◌++◌, List, length, map, vec_len, vec_capacity};
ghost use Rattle.std.specs.List.{flat_map};
ghost use Rattle.vrx_h264.specs.Aggregate.{units_of};
ghost use Rattle.vrx_h264.specs.Payload.{Whole, pieces, cut_of};
ghost use Rattle.vrx_h264.specs.AccessUnit.{after_code};
ghost use Rattle.vrx_h264.specs.Joining.{piece_octets, added_octets as added_of};

use crate::aggregate::first_unit;
use crate::bits::BIT_S;
use crate::joining::{START_CODE, first_octet};
use crate::nal::{Structure, kind, structure_of};
use vrx_codec::bit;

/// Adds octets, for which there is room.
fn append_octets(octets: &[u8], out: &mut Vec<u8>)
    requires { vec_len out.old + length octets.now ≤ vec_capacity out.old }
    ensures items { out.new.items ≡ out.old.items ++ octets.now }
    ensures len { vec_len out.new ≡ vec_len out.old + length octets.now }
    ensures capacity { vec_capacity out.old ≤ vec_capacity out.new }
{
    let Ok(()) = out.extend_from_slice(octets) else {
        unreachable!()
    };
}

/// Adds a unit after its start code.
fn append_unit(unit: &[u8], out: &mut Vec<u8>)
    requires { vec_len out.old + 4 + length unit.now ≤ vec_capacity out.old }
    ensures items { out.new.items ≡ out.old.items ++ after_code unit.now }
    ensures len { vec_len out.new ≡ vec_len out.old + 4 + length unit.now }
    ensures capacity { vec_capacity out.old ≤ vec_capacity out.new }
{
    append_octets(&START_CODE, out);
    append_octets(unit, out);
}

/// Adds the units of an aggregate.
fn append_units(octets: &[u8], out: &mut Vec<u8>)
    requires { vec_len out.old + length (flat_map piece_octets (map Whole (units_of octets.now).units))
        ≤ vec_capacity out.old }
    ensures items { out.new.items ≡ out.old.items
        ++ flat_map piece_octets (map Whole (units_of octets.now).units) }
    ensures capacity { vec_capacity out.old ≤ vec_capacity out.new }
{
    let mut rest = octets;
    while let Some((unit, behind)) = first_unit(rest) {
        append_unit(unit, out);
        rest = behind;
    }
}

/// Adds the octets of a fragment, after its indicator and header.
fn append_cut(indicator: u8, octets: &[u8], out: &mut Vec<u8>)
    requires { vec_len out.old + length (flat_map piece_octets (cut_of indicator octets.now))
        ≤ vec_capacity out.old }
    ensures items { out.new.items ≡ out.old.items
        ++ flat_map piece_octets (cut_of indicator octets.now) }
    ensures capacity { vec_capacity out.old ≤ vec_capacity out.new }
{
    let [header, octets @ ..] = octets else {
        return;
    };
    if bit(*header, BIT_S) {
        append_octets(&START_CODE, out);
        append_octets(&[first_octet(indicator, *header)], out);
    }
    append_octets(octets, out);
}

/// Adds the octets that a payload adds to those joined, for which there is room.
pub(crate) fn append_payload(payload: &[u8], out: &mut Vec<u8>)
    requires { vec_len out.old + length (added_of payload.now) ≤ vec_capacity out.old }
    ensures items { out.new.items ≡ out.old.items ++ added_of payload.now }
    ensures capacity { vec_capacity out.old ≤ vec_capacity out.new }
{
    let [head, octets @ ..] = payload else {
        return;
    };
    match structure_of(kind(*head)) {
        Structure::Single => append_unit(payload, out),
        Structure::Aggregate => append_units(octets, out),
        Structure::Fragmented => append_cut(*head, octets, out),
        Structure::Other => {}
    }
}
