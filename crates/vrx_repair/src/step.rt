//! The steps of FEC packets.

ghost use Rattle.std.specs.Prelude.{◌≡◌, ◌+◌, ◌^◌, ◌<◌, Some, IfOk, IfSome};
ghost use Rattle.std.specs.Option.{option_map};
ghost use Rattle.vrx_fec.specs.View.{view};
ghost use Rattle.vrx_repair.specs.Plan.{SaysItsText, entry_of};
ghost use Rattle.vrx_repair.specs.Seen.{AreNumbers, ArePackets, packets_by, window_by};
ghost use Rattle.vrx_window.specs.IsWindow.{IsWithin};
ghost use Rattle.vrx_repair.specs.Source.{source_of};
ghost use Rattle.vrx_repair.specs.Step.{first_step, rebuilt_under, step, step_of};

use crate::media::repair_of;
use crate::offsets::{base_of, missing_of, wire_of};
use crate::reading::Reading;
use crate::rebuild::rebuild;
use crate::repair::Repair;
use crate::seen::{Seen, Sight, is_wanted, look, newest_of, next_fec};
use std::alloc::Global;
use vrx_codec::Codec;
use vrx_fec::{Fec, read_fec};
use vrx_num::NoMemory;
use vrx_num::limits::WINDOW;

/// The repair under one of a FEC payload's offsets, if it is rebuilt and is media.
fn rebuilt_under<C: Codec>(
    alloc: Global,
    seen: &Seen<'_>,
    base: u64,
    fec: &Fec<'_>,
    missing: u8,
    reading: &Reading<C>,
) -> Result<Option<Repair>, NoMemory>
    requires numbers { AreNumbers base (view fec.now) }
    requires fits { base + missing < 2 ^ 64 }
    requires packets { ArePackets (packets_by seen.now) }
    ensures entry { let source = source_of C.meaning reading.now.media_ssrc reading.now.media_type in
        IfOk result (λ repair. option_map entry_of repair ≡
        rebuilt_under source (window_by seen.now).newest (window_by seen.now).dead (packets_by seen.now) base
        (view fec.now) missing) }
    ensures sound { IfOk result (λ repair. IfSome repair (SaysItsText C.meaning)) }
{
    let number = base + u64::from(missing);
    if !is_wanted(seen, number) {
        return Ok(None);
    }
    match rebuild(alloc, seen, base, fec, missing, reading.media_ssrc)? {
        None => Ok(None),
        Some(text) => repair_of::<C>(number, text, reading.media_type),
    }
}

/// The step of a FEC payload, if it has one.
fn step_of<C: Codec>(
    alloc: Global,
    seen: &Seen<'_>,
    base: u64,
    fec: &Fec<'_>,
    reading: &Reading<C>,
) -> Result<Option<Repair>, NoMemory>
    requires numbers { AreNumbers base (view fec.now) }
    requires packets { ArePackets (packets_by seen.now) }
    ensures entry { let source = source_of C.meaning reading.now.media_ssrc reading.now.media_type in
        IfOk result (λ repair. option_map entry_of repair ≡
        step_of source (window_by seen.now).newest (window_by seen.now).dead (packets_by seen.now) base
        (view fec.now)) }
    ensures sound { IfOk result (λ repair. IfSome repair (SaysItsText C.meaning)) }
{
    match missing_of(seen, base, fec) {
        None => Ok(None),
        Some(missing) => rebuilt_under::<C>(alloc, seen, base, fec, missing, reading),
    }
}

/// The step of the FEC packet of a number, if it has one.
fn step<C: Codec>(
    alloc: Global,
    seen: &Seen<'_>,
    m: u64,
    reading: &Reading<C>,
) -> Result<Option<Repair>, NoMemory>
    requires packets { ArePackets (packets_by seen.now) }
    ensures entry { let source = source_of C.meaning reading.now.media_ssrc reading.now.media_type in
        IfOk result (λ repair. option_map entry_of repair ≡
        step source (window_by seen.now).newest (window_by seen.now).dead (packets_by seen.now) m) }
    ensures sound { IfOk result (λ repair. IfSome repair (SaysItsText C.meaning)) }
{
    match look(seen, m) {
        Sight::Fec(payload) => match read_fec(payload, wire_of(m)) {
            Ok(fec) => {
                let base = base_of(m, &fec);
                step_of::<C>(alloc, seen, base, &fec, reading)
            }
            Err(_) => Ok(None),
        },
        _ => Ok(None),
    }
}

/// The step of the least number that has one.
pub(crate) fn first_step<C: Codec>(
    alloc: Global,
    seen: &Seen<'_>,
    reading: &Reading<C>,
) -> Result<Option<Repair>, NoMemory>
    requires packets { ArePackets (packets_by seen.now) }
    requires inside { IsWithin (window_by seen.now).newest (packets_by seen.now) }
    ensures entry { let source = source_of C.meaning reading.now.media_ssrc reading.now.media_type in
        IfOk result (λ repair. option_map entry_of repair ≡
        first_step source (window_by seen.now).newest (window_by seen.now).dead (packets_by seen.now)) }
    ensures sound { IfOk result (λ repair. IfSome repair (SaysItsText C.meaning)) }
{
    let newest = newest_of(seen);
    let mut from = newest.saturating_sub(WINDOW - 1);
    while from <= newest {
        let next = next_fec(seen, from, newest);
        match step::<C>(alloc, seen, next, reading)? {
            Some(repair) => return Ok(Some(repair)),
            None => {}
        }
        if next == newest {
            return Ok(None);
        }
        from = next + 1;
    }
    Ok(None)
}
