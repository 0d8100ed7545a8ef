//! The units of an aggregate, STAP-A (RFC 6184 5.7.1).

ghost use Rattle.std.specs.Prelude.{◌≡◌, ◌+◌, ◌*◌, ◌^◌, ◌<◌, ◌≤◌, length, map, IfSome};
ghost use Rattle.std.specs.Option.{option_map};
ghost use Rattle.vrx_h264.specs.Aggregate.{sized_fault as sized_fault_of, unit_fault as front_fault_of, first_unit as front_of, units_of, aggregate_fault as aggregate_fault_of};
ghost use Rattle.vrx_h264.specs.Payload.{Whole, hold_idr, begin_sequence};

use crate::faults::{KIND, STAP_PAST_END, STAP_ZERO};
use crate::nal::{is_unit_kind, unit_kind};
use crate::types::{IDR, SEQUENCE};
use vrx_codec::PartFault;

/// What is wrong with a unit of `size` octets at the front, whose size stands at `at`.
fn sized_fault(at: usize, size: usize, rest: &[u8]) -> Option<PartFault>
    requires { at + 2 < 2 ^ 64 }
    ensures { result ≡ sized_fault_of at size rest.now }
{
    if rest.len() < size {
        Some(PartFault {
            code: STAP_PAST_END,
            at,
        })
    } else if size == 0 {
        Some(PartFault {
            code: STAP_ZERO,
            at,
        })
    } else if is_unit_kind(unit_kind(rest)) {
        None
    } else {
        Some(PartFault {
            code: KIND,
            at: at + 2,
        })
    }
}

/// What is wrong with the size at the front, which stands at `at`, and the unit after it.
fn unit_fault(at: usize, rest: &[u8]) -> Option<PartFault>
    requires { at + 2 < 2 ^ 64 }
    ensures { result ≡ front_fault_of at rest.now }
{
    match rest {
        [high, low, rest @ ..] => {
            sized_fault(at, usize::from(*high) * 256 + usize::from(*low), rest)
        }
        _ => Some(PartFault {
            code: STAP_PAST_END,
            at,
        }),
    }
}

/// The unit at the front, after its size, and the octets after it.
pub(crate) fn first_unit(rest: &[u8]) -> Option<(&[u8], &[u8])>
    ensures front { option_map (λ x. (x.0.now, x.1.now)) result ≡ front_of rest.now }
    ensures shorter { IfSome result (λ x. length x.0.now + length x.1.now + 2 ≡ length rest.now) }
{
    let [high, low, rest @ ..] = rest else {
        return None;
    };
    let size = usize::from(*high) * 256 + usize::from(*low);
    match sized_fault(0, size, rest) {
        Some(_) => None,
        None => Some(rest.split_at(size)),
    }
}

/// The octets after the units.
fn left(octets: &[u8]) -> &[u8]
    ensures left { result.now ≡ (units_of octets.now).left }
    ensures fits { length result.now ≤ length octets.now }
{
    let mut rest = octets;
    while let Some((_, behind)) = first_unit(rest) {
        rest = behind;
    }
    rest
}

/// What is wrong with the octets after an aggregate's first.
pub(crate) fn aggregate_fault(octets: &[u8]) -> Option<PartFault>
    ensures { result ≡ aggregate_fault_of octets.now }
{
    let left = left(octets);
    if left.is_empty() && !octets.is_empty() {
        return None;
    }
    unit_fault(1 + octets.len() - left.len(), left)
}

/// Whether the first of the units is a sequence parameter set.
pub(crate) fn begins_sequence(octets: &[u8]) -> bool
    ensures { result ≡ begin_sequence (map Whole (units_of octets.now).units) }
{
    match first_unit(octets) {
        Some((unit, _)) => unit_kind(unit) == SEQUENCE,
        None => false,
    }
}

/// Whether one of the units is an IDR slice.
pub(crate) fn holds_idr(octets: &[u8]) -> bool
    ensures { result ≡ hold_idr (map Whole (units_of octets.now).units) }
{
    let mut rest = octets;
    while let Some((unit, behind)) = first_unit(rest) {
        if unit_kind(unit) == IDR {
            return true;
        }
        rest = behind;
    }
    false
}
