//! From a payload to the part of a frame that it is.

ghost use Rattle.std.specs.Prelude.{◌≡◌};
ghost use Rattle.vrx_codec.specs.View.{view_result};
ghost use Rattle.vrx_h264.specs.Payload.{pieces, cut_fault as cut_fault_of, fault as fault_of, begin_sequence, hold_idr, read_part};

use crate::aggregate::{self, aggregate_fault, holds_idr};
use crate::bits::{BIT_E, BIT_S};
use crate::faults::{EMPTY, FU_BOTH, FU_SHORT, KIND};
use crate::nal::{Structure, is_unit_kind, kind, structure_of, unit_kind};
use crate::types::{IDR, SEQUENCE};
use vrx_codec::{Part, PartFault, Start, bit};

/// What is wrong with the octets after the indicator of a fragment.
fn cut_fault(rest: &[u8]) -> Option<PartFault>
    ensures { result ≡ cut_fault_of rest.now }
{
    let [header, ..] = rest else {
        return Some(PartFault {
            code: FU_SHORT,
            at: 1,
        });
    };
    if bit(*header, BIT_S) && bit(*header, BIT_E) {
        Some(PartFault {
            code: FU_BOTH,
            at: 1,
        })
    } else if is_unit_kind(kind(*header)) {
        None
    } else {
        Some(PartFault { code: KIND, at: 1 })
    }
}

/// What is wrong with a payload.
fn fault(payload: &[u8]) -> Option<PartFault>
    ensures { result ≡ fault_of payload.now }
{
    let [head, rest @ ..] = payload else {
        return Some(PartFault { code: EMPTY, at: 0 });
    };
    match structure_of(kind(*head)) {
        Structure::Single => None,
        Structure::Aggregate => aggregate_fault(rest),
        Structure::Fragmented => cut_fault(rest),
        Structure::Other => Some(PartFault { code: KIND, at: 0 }),
    }
}

/// Whether a payload begins with a sequence parameter set.
fn begins_sequence(payload: &[u8]) -> bool
    ensures { result ≡ begin_sequence (pieces payload.now) }
{
    let [head, rest @ ..] = payload else {
        return false;
    };
    match structure_of(kind(*head)) {
        Structure::Single => kind(*head) == SEQUENCE,
        Structure::Aggregate => aggregate::begins_sequence(rest),
        Structure::Fragmented => match rest {
            [header, ..] => bit(*header, BIT_S) && kind(*header) == SEQUENCE,
            [] => false,
        },
        Structure::Other => false,
    }
}

/// Whether a payload has an IDR slice, or a fragment of one.
fn has_idr(payload: &[u8]) -> bool
    ensures { result ≡ hold_idr (pieces payload.now) }
{
    let [head, rest @ ..] = payload else {
        return false;
    };
    match structure_of(kind(*head)) {
        Structure::Single => kind(*head) == IDR,
        Structure::Aggregate => holds_idr(rest),
        Structure::Fragmented => unit_kind(rest) == IDR,
        Structure::Other => false,
    }
}

/// The part that a payload is, or its fault.
pub(crate) fn part_of(payload: &[u8]) -> Result<Part<'_>, PartFault>
    ensures { view_result result ≡ read_part payload.now }
{
    match fault(payload) {
        Some(fault) => Err(fault),
        None => Ok(Part {
            start: if begins_sequence(payload) {
                Start::Yes
            } else {
                Start::ByNeighbour
            },
            key: has_idr(payload),
            layers: None,
            body: payload,
        }),
    }
}
