//! The three offers, with a seat of the table.

ghost use Rattle.std.specs.Prelude.{◌≡◌, ◌+◌, ◌<◌, ◌≤◌, length, IfOk, IfErr};
ghost use Rattle.vrx_core.specs.declared.event.Event.{Event};
ghost use Rattle.vrx_core.specs.machine.Machine.{ToDatagram, ToPull, ToTick};
ghost use Rattle.vrx_lock.specs.declared.known.Known.{Known};
ghost use Rattle.vrx_lock.specs.declared.limits.TheConstants.{MOST_ENTRIES};
ghost use Rattle.vrx_lock.specs.Seats.{DoneAt, RefusedAt, TickRefusedAt};
ghost use Rattle.vrx_lock.specs.inside.Steps.{Began, IsIdle, IsTable, Stays};

use crate::done::{Done, OfferFault, TickFault};
use crate::kept::Kept;
use crate::law::{Desk, Place};
use crate::steps::{begin, finish, give_back, refuse_full};
use vrx_codec::Codec;
use vrx_core::{EventBytes, Handled, Pulled};
use vrx_num::NoMemory;
use vrx_rtcp::Feedback;

/// The fault of an offer that finds the turn taken or the journal full.
fn offer_fault(fault: TickFault) -> OfferFault
    ensures { (old new : Known) → TickRefusedAt old new fault → RefusedAt old new result }
{
    match fault {
        TickFault::Busy { holder } => OfferFault::Busy { holder },
        TickFault::JournalFull => OfferFault::JournalFull,
    }
}

/// Tries the turn once, and takes the value out if there is room for an entry. Else it gives the turn back.
fn open<C: Codec>(desk: &Desk<C>, place: &mut Place<C>, actor: u32) -> Result<Kept<C>, TickFault>
    requires table { (place.old.table_id ≡ desk.now.table_id) × IsTable desk.now.table_id }
    requires idle { IsIdle place.old.me × (actor ≡ place.old.me.0.known.actor) }
    ensures table { place.new.table_id ≡ place.old.table_id }
    ensures ok { IfOk result (λ kept. Began place.old.me kept place.new.me × (length kept.journal < kept.setup.room) × (kept.setup.room ≤ MOST_ENTRIES)) }
    ensures err { IfErr result (λ fault. Stays place.old.me place.new.me × TickRefusedAt place.old.me.0.known place.new.me.0.known fault) }
{
    let kept = match begin(desk, place, actor) {
        Ok(kept) => kept,
        Err(holder) => return Err(TickFault::Busy { holder }),
    };
    if kept.is_full() {
        refuse_full(desk, place, kept);
        return Err(TickFault::JournalFull);
    }
    Ok(kept)
}

/// Offers a datagram, whose octets were copied.
pub(crate) fn datagram<C: Codec>(
    desk: &Desk<C>,
    place: &mut Place<C>,
    actor: u32,
    turn: u64,
    moment: u64,
    bytes: EventBytes,
) -> Result<Done<Handled>, OfferFault>
    requires table { (place.old.table_id ≡ desk.now.table_id) × IsTable desk.now.table_id }
    requires idle { IsIdle place.old.me × (actor ≡ place.old.me.0.known.actor) }
    requires turn { turn ≡ length place.old.me.0.known.places + 1 }
    ensures table { place.new.table_id ≡ place.old.table_id }
    ensures stays { Stays place.old.me place.new.me }
    ensures ok { IfOk result (λ done. DoneAt C.meaning place.old.me.0.known place.new.me.0.known (Event.Datagram moment bytes) done.place (ToDatagram done.reply)) }
    ensures err { IfErr result (λ fault. RefusedAt place.old.me.0.known place.new.me.0.known fault) }
{
    let mut kept = match open(desk, place, actor) {
        Ok(kept) => kept,
        Err(fault) => return Err(offer_fault(fault)),
    };
    match kept.datagram(actor, turn, moment, bytes) {
        Ok(reply) => {
            let number = finish(desk, place, kept);
            Ok(Done {
                place: number,
                reply,
            })
        }
        Err(NoMemory) => {
            give_back(desk, place, kept);
            Err(OfferFault::NoMemory)
        }
    }
}

/// Offers a tick.
pub(crate) fn tick<C: Codec>(
    desk: &Desk<C>,
    place: &mut Place<C>,
    actor: u32,
    turn: u64,
    moment: u64,
) -> Result<Done<Feedback>, TickFault>
    requires table { (place.old.table_id ≡ desk.now.table_id) × IsTable desk.now.table_id }
    requires idle { IsIdle place.old.me × (actor ≡ place.old.me.0.known.actor) }
    requires turn { turn ≡ length place.old.me.0.known.places + 1 }
    ensures table { place.new.table_id ≡ place.old.table_id }
    ensures stays { Stays place.old.me place.new.me }
    ensures ok { IfOk result (λ done. DoneAt C.meaning place.old.me.0.known place.new.me.0.known (Event.Tick moment) done.place (ToTick done.reply)) }
    ensures err { IfErr result (λ fault. TickRefusedAt place.old.me.0.known place.new.me.0.known fault) }
{
    match open(desk, place, actor) {
        Ok(mut kept) => {
            let reply = kept.tick(actor, turn, moment);
            let number = finish(desk, place, kept);
            Ok(Done {
                place: number,
                reply,
            })
        }
        Err(fault) => Err(fault),
    }
}

/// Offers a pull.
pub(crate) fn pull<C: Codec>(
    desk: &Desk<C>,
    place: &mut Place<C>,
    actor: u32,
    turn: u64,
    moment: u64,
) -> Result<Done<Pulled>, OfferFault>
    requires table { (place.old.table_id ≡ desk.now.table_id) × IsTable desk.now.table_id }
    requires idle { IsIdle place.old.me × (actor ≡ place.old.me.0.known.actor) }
    requires turn { turn ≡ length place.old.me.0.known.places + 1 }
    ensures table { place.new.table_id ≡ place.old.table_id }
    ensures stays { Stays place.old.me place.new.me }
    ensures ok { IfOk result (λ done. DoneAt C.meaning place.old.me.0.known place.new.me.0.known (Event.Pull moment) done.place (ToPull done.reply)) }
    ensures err { IfErr result (λ fault. RefusedAt place.old.me.0.known place.new.me.0.known fault) }
{
    let mut kept = match open(desk, place, actor) {
        Ok(kept) => kept,
        Err(fault) => return Err(offer_fault(fault)),
    };
    match kept.pull(actor, turn, moment) {
        Ok(reply) => {
            let number = finish(desk, place, kept);
            Ok(Done {
                place: number,
                reply,
            })
        }
        Err(NoMemory) => {
            give_back(desk, place, kept);
            Err(OfferFault::NoMemory)
        }
    }
}
