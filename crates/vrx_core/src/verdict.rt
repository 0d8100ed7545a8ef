//! What a datagram is taken as, by the table of reasons.

ghost use Rattle.std.specs.Prelude.{◌≡◌, ◌+◌, ◌<◌, ◌≤◌, IfOk, MatchOption};
ghost use Rattle.std.specs.Result.{result_map_both};
ghost use Rattle.vrx_window.specs.Content.{contents_of};
ghost use Rattle.vrx_window.specs.Window.{would_of};
ghost use Rattle.vrx_window.specs.declared.placing.Placing.TheVariants as placings;
ghost use Rattle.vrx_core.specs.machine.Verdict.{verdict as verdict_of};
ghost use Rattle.vrx_core.specs.inside.Seen.{HasTypes, view_taken, IsSeen};

use crate::original::{NotTaken, PacketSeen, original};
use crate::reply::Reason;
use crate::settings::Settings;
use vrx_codec::Codec;
use vrx_num::Extender;
use vrx_num::limits::HALF_SPACE;
use vrx_window::{Placing, Window, contents_are};

/// What a datagram is taken as.
#[derive(Clone, Copy)]
pub(crate) struct TakenPacket<'a> {
    /// Its extended sequence number.
    pub(crate) number: u64,
    /// Its packet, and what that brings.
    pub(crate) seen: PacketSeen<'a>,
}

/// What a datagram is taken as, or what becomes of it. It takes no memory.
#[inline(always)]
pub(crate) fn verdict<'a, C: Codec>(
    settings: &Settings,
    extender: &Extender,
    window: &Window,
    octets: &'a [u8],
) -> Result<TakenPacket<'a>, NotTaken>
    requires types { HasTypes settings.now }
    requires same { extender.now ≡ window.now.newest }
    ensures value { verdict_of settings.now C.meaning (contents_of window.now) octets.now ≡ result_map_both view_taken (λ left. left) result }
    ensures seen { IfOk result (λ taken. IsSeen C.meaning octets.now taken.seen) }
    ensures fresh { IfOk result (λ taken. would_of window.now taken.number ≡ placings.Fresh) }
    ensures reach { IfOk result (λ taken.
        MatchOption extender.now ((65536 ≤ taken.number) × (taken.number < 131072)) (λ newest.
        (newest < taken.number + HALF_SPACE) × (taken.number < newest + HALF_SPACE))) }
{
    contents_are();
    let seen = original::<C>(settings, octets)?;
    let Some(number) = extender.extend(seen.packet.seq) else {
        return Err(NotTaken::Refused(Reason::TooFar));
    };
    match window.would(number) {
        Placing::TooOld => Err(NotTaken::Refused(Reason::TooOld)),
        Placing::Dead => Err(NotTaken::Refused(Reason::Dead)),
        Placing::Repeat => Err(NotTaken::Refused(Reason::Repeat)),
        Placing::Fresh => Ok(TakenPacket { number, seen }),
    }
}
