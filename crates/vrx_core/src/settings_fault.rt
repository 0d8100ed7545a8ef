//! Which settings are refused.

ghost use Rattle.std.specs.Prelude.{◌≡◌, ◌==◌, Some, None};
ghost use Rattle.std.specs.List.{list_any};
ghost use Rattle.vrx_core.specs.machine.SettingsFault.{values_in, types_of, ssrcs_of, is_bad_type as is_bad_type_of, holds as holds_of, has_equal as has_equal_of, lacks_red as lacks_red_of, is_bad_interval as is_bad_interval_of, fault_of as first_fault_of};

use crate::settings::{NewFault, Settings};
use vrx_num::limits::LONGEST_INTERVAL;

/// The payload types that may be given.
fn types_in(settings: &Settings) -> [Option<u32>; 5]
    ensures { values_in result ≡ types_of settings.now }
{
    let (red, fec) = match settings.red {
        None => (None, None),
        Some(red) => (Some(u32::from(red.red_type)), red.fec_type.map(u32::from)),
    };
    let (media_rtx, red_rtx) = match settings.rtx {
        None => (None, None),
        Some(rtx) => (
            Some(u32::from(rtx.media_rtx_type)),
            rtx.red_rtx_type.map(u32::from),
        ),
    };
    [
        Some(u32::from(settings.media_type)),
        red,
        fec,
        media_rtx,
        red_rtx,
    ]
}

/// The SSRCs that may be given.
fn ssrcs_in(settings: &Settings) -> [Option<u32>; 3]
    ensures { values_in result ≡ ssrcs_of settings.now }
{
    [
        Some(settings.media_ssrc),
        settings.rtx.map(|rtx| rtx.ssrc),
        Some(settings.from_ssrc),
    ]
}

/// Whether no packet may have a payload type.
fn is_bad_type(payload_type: u32) -> bool
    ensures { result ≡ is_bad_type_of payload_type }
{
    (64 <= payload_type && payload_type <= 95) || payload_type > 127
}

/// Whether some payload type given is such a one.
fn has_bad_type(types: &[Option<u32>]) -> bool
    ensures { result ≡ list_any is_bad_type_of (values_in types.now) }
{
    match types {
        [] => false,
        [None, rest @ ..] => has_bad_type(rest),
        [Some(first), rest @ ..] => is_bad_type(*first) || has_bad_type(rest),
    }
}

/// Whether a value is among those given.
fn holds(values: &[Option<u32>], value: u32) -> bool
    ensures { result ≡ holds_of (values_in values.now) value }
{
    match values {
        [] => false,
        [None, rest @ ..] => holds(rest, value),
        [Some(first), rest @ ..] => *first == value || holds(rest, value),
    }
}

/// Whether two of the values given are equal.
fn has_equal(values: &[Option<u32>]) -> bool
    ensures { result ≡ has_equal_of (values_in values.now) }
{
    match values {
        [] => false,
        [None, rest @ ..] => has_equal(rest),
        [Some(first), rest @ ..] => holds(rest, *first) || has_equal(rest),
    }
}

/// Whether RED comes again in retransmissions, and isn't given.
fn lacks_red(settings: &Settings) -> bool
    ensures { result ≡ lacks_red_of settings.now }
{
    match settings.rtx {
        None => false,
        Some(rtx) => rtx.red_rtx_type.is_some() && settings.red.is_none(),
    }
}

/// Whether requests can't have an interval.
fn is_bad_interval(interval: u32) -> bool
    ensures { result ≡ is_bad_interval_of interval }
{
    interval == 0 || interval > LONGEST_INTERVAL
}

/// The fault of settings, if they have one.
pub(crate) fn fault_of(settings: &Settings) -> Option<NewFault>
    ensures { result ≡ first_fault_of settings.now }
{
    let types = types_in(settings);
    if has_bad_type(&types) {
        return Some(NewFault::BadType);
    }
    if has_equal(&types) {
        return Some(NewFault::SameType);
    }
    if has_equal(&ssrcs_in(settings)) {
        return Some(NewFault::SameSsrc);
    }
    if lacks_red(settings) {
        return Some(NewFault::RedMissing);
    }
    if is_bad_interval(settings.interval) {
        return Some(NewFault::BadInterval);
    }
    None
}
