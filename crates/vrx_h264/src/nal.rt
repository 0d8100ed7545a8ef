//! The header of a NAL unit (RFC 6184 1.3), and what its type says of a payload (RFC 6184 5.2).

ghost use Rattle.std.specs.Prelude.{◌≡◌};
ghost use Rattle.vrx_h264.specs.Nal.{kind as kind_of, unit_kind as unit_kind_of, is_unit_kind as is_unit_kind_of, structure_of};

use crate::types::{FU_A, LAST_UNIT, STAP_A};

/// How a payload carries units.
#[derive(Clone, Copy)]
pub(crate) enum Structure {
    /// It is one unit.
    Single,
    /// It holds several, each after its size (STAP-A).
    Aggregate,
    /// It holds a fragment of one (FU-A).
    Fragmented,
    /// In a way that isn't read.
    Other,
}

/// The type that an octet says.
pub(crate) fn kind(octet: u8) -> u8
    ensures { result ≡ kind_of octet }
{
    octet % 32
}

/// The type of a unit.
pub(crate) fn unit_kind(unit: &[u8]) -> u8
    ensures { result ≡ unit_kind_of unit.now }
{
    match unit {
        [head, ..] => kind(*head),
        [] => 0,
    }
}

/// Whether a unit as such has this type.
pub(crate) fn is_unit_kind(kind: u8) -> bool
    ensures { result ≡ is_unit_kind_of kind }
{
    0 < kind && kind <= LAST_UNIT
}

/// How a payload with this type carries units.
pub(crate) fn structure_of(kind: u8) -> Structure
    ensures { result ≡ structure_of kind }
{
    if is_unit_kind(kind) {
        return Structure::Single;
    }
    match kind {
        STAP_A => Structure::Aggregate,
        FU_A => Structure::Fragmented,
        _ => Structure::Other,
    }
}
