//! The shared receiver.

ghost use Rattle.std.specs.Prelude.{◌≡◌, ◌+◌, ◌<◌, ◌≤◌, ◌⊎◌, ◌↔◌, true, false, [], ◌∷◌, length, None, Some, Err, IfOk, IfErr, IsErrOf};
ghost use Rattle.vrx_core.specs.declared.event.Event.{Event};
ghost use Rattle.vrx_core.specs.declared.settings.NewFault.{NewFault};
ghost use Rattle.vrx_core.specs.machine.Machine.{ToDatagram, ToPull, ToTick};
ghost use Rattle.vrx_core.specs.machine.SettingsFault.{fault_of};
ghost use Rattle.vrx_core.specs.relation.StandsFor.{EngineParts, StandsFor};
ghost use Rattle.vrx_lock.specs.declared.done.ReceiverFault.{ReceiverFault};
ghost use Rattle.vrx_lock.specs.declared.limits.TheConstants.{MOST_ENTRIES};
ghost use Rattle.vrx_lock.specs.Lists.{BeginsWith, counted_from};
ghost use Rattle.vrx_lock.specs.Journal.{IsLegal, history};
ghost use Rattle.vrx_lock.specs.Shares.{IsWhole};
ghost use Rattle.vrx_lock.specs.Seats.{DoneAt, Glanced, IsSameSeat, Joined, RefusedAt, TickRefusedAt, after_split, first_known, newcomer};

use crate::copy::copy_of;
use crate::done::{Done, OfferFault, ReceiverFault, TickFault};
use crate::journal::Journal;
use crate::kept::Kept;
use crate::known::Setup;
use crate::law::Law;
use crate::limits::MOST_ENTRIES;
use crate::offers::{datagram, pull, tick};
use crate::seat::Seat;
use crate::steps::{cut, glance, glue};
use crate::view::View;
use atomic_table::{Badge, Table};
use std::alloc::Global;
use std::marker::{Brand, Model};
use std::mem;
use vrx_codec::Codec;
use vrx_core::{Engine, Handled, NewFault, Pulled, Settings};
use vrx_num::NoMemory;
use vrx_rtcp::Feedback;

/// The table: the turn, the count of entries, and the engine with its journal.
type Board<C> = Table<Option<Kept<C>>, View, Setup, Law, Global>;

/// One engine with its journal, which any number of threads share by reference.
#[derive(Drop)]
pub struct Receiver<C: Codec> {
    alloc: Global,
    board: Board<C>,
}

impl<C: Codec> Model for Receiver<C> {
    ghost use Rattle.vrx_lock.specs.Seats.{ReceiverParts};
    ghost use Rattle.vrx_lock.specs.inside.Steps.{IsTable};

    ghost Value = { ReceiverParts };

    ghost view = { λ r. record { table = r.board.shared.table_id; setup = r.board.shared.key } };

    ghost invariant = { λ r. IsTable r.board.shared.table_id };
}

/// Whether a journal can have room for so many entries.
fn is_room(max_events: u32) -> bool
    ensures room { result ≡ true → (0 < max_events) × (max_events ≤ MOST_ENTRIES) }
    ensures none { result ≡ false → (max_events ≡ 0) ⊎ (MOST_ENTRIES < max_events) }
{
    0 < max_events && max_events <= MOST_ENTRIES
}

impl<C: Codec> Receiver<C> {
    /// A receiver whose journal has room for `max_events` entries, 1 to 65,536, and the seat that has all of it, with
    /// actor 0. All memory that it takes is taken here, but for what the engine and the copies of datagrams take.
    ///
    /// `Settings` comes exactly of a fault of the settings, and is never `NewFault::NoMemory`; `BadRoom` exactly if
    /// they have none and the room is 0 or above 65,536.
    pub fn new(
        alloc: Global,
        settings: Settings,
        max_events: u32,
    ) -> Result<(Receiver<C>, Seat), ReceiverFault>
        ensures settings { (fault : NewFault) → IsErrOf result (ReceiverFault.Settings fault) ↔ (fault_of settings ≡ Some fault) }
        ensures bad_room { IsErrOf result ReceiverFault.BadRoom ↔ ((fault_of settings ≡ None) × ((max_events ≡ 0) ⊎ (MOST_ENTRIES < max_events))) }
        ensures no_memory { IsErrOf result ReceiverFault.NoMemory → (fault_of settings ≡ None) × (0 < max_events) × (max_events ≤ MOST_ENTRIES) }
        ensures taken { IfOk result (λ made. (fault_of settings ≡ None) × (0 < max_events) × (max_events ≤ MOST_ENTRIES)) }
        ensures setup { IfOk result (λ made. (made.0.setup.settings ≡ settings) × (made.0.setup.room ≡ max_events)) }
        ensures seat { IfOk result (λ made. (made.1.table ≡ made.0.table) × (made.1.known ≡ first_known made.0.setup)) }
    {
        let engine = match Engine::<C>::new(alloc, settings) {
            Ok(engine) => Some(engine),
            Err(NewFault::NoMemory) => None,
            Err(fault) => return Err(ReceiverFault::Settings(fault)),
        };
        if !is_room(max_events) {
            return Err(ReceiverFault::BadRoom);
        }
        let Some(engine) = engine else {
            return Err(ReceiverFault::NoMemory);
        };
        let setup = Setup {
            settings,
            room: u64::from(max_events),
        };
        match Receiver::of(alloc, setup, engine) {
            Ok(made) => Ok(made),
            Err(NoMemory) => Err(ReceiverFault::NoMemory),
        }
    }

    /// A receiver of an engine before its first event.
    fn of(alloc: Global, setup: Setup, engine: Engine<C>) -> Result<(Receiver<C>, Seat), NoMemory>
        requires stands { StandsFor C.meaning engine [] }
        requires settings { engine.settings ≡ setup.settings }
        requires room { (0 < setup.room) × (setup.room ≤ MOST_ENTRIES) }
        ensures setup { IfOk result (λ made. made.0.setup ≡ setup) }
        ensures seat { IfOk result (λ made. (made.1.table ≡ made.0.table) × (made.1.known ≡ first_known made.0.setup)) }
    {
        let entries = Vec::with_capacity(alloc, setup.room as usize)?;
        let kept = Kept::new(engine, entries, setup.room);
        let slots = slot_of(alloc, kept)?;
        let Ok((board, place)) = Board::<C>::new(alloc, &[0, 0], slots, &setup) else {
            return Err(NoMemory);
        };
        let seat = Seat {
            badge: place.into_badge(),
            actor: 0,
            calls: 0,
        };
        Ok((Receiver { alloc, board }, seat))
    }

    /// Gives half of a seat's share to a new seat with this actor, which has seen what the old one has, and made no
    /// calls. It takes no memory.
    pub fn split(&self, seat: &mut Seat, actor: u32) -> Seat
        requires own { seat.old.table ≡ self.now.table }
        ensures old { (seat.new.table ≡ seat.old.table) × (seat.new.known ≡ after_split seat.old.known) }
        ensures given { (result.table ≡ seat.old.table) × (result.known ≡ newcomer actor seat.old.known) }
    {
        let mut place = mem::replace(&mut seat.badge, Badge::blank()).into_seat();
        let other = cut::<C, Brand>(&self.board.shared, &mut place, actor);
        seat.badge = place.into_badge();
        Seat {
            badge: other.into_badge(),
            actor,
            calls: 0,
        }
    }

    /// Makes two seats one. It has then seen what both had, and its calls are those of both. It takes no memory.
    pub fn join(&self, seat: &mut Seat, other: Seat)
        requires own { (seat.old.table ≡ self.now.table) × (other.table ≡ self.now.table) }
        ensures table { seat.new.table ≡ seat.old.table }
        ensures joined { Joined seat.old.known other.known seat.new.known }
    {
        let Seat {
            badge,
            actor: _,
            calls,
        } = other;
        let mut place = mem::replace(&mut seat.badge, Badge::blank()).into_seat();
        glue(&self.board.shared, &mut place, badge.into_seat());
        seat.badge = place.into_badge();
        seat.calls += calls;
    }

    /// Looks at the length of the journal, which is then seen. It takes no memory.
    pub fn glance(&self, seat: &mut Seat) -> u64
        requires own { seat.old.table ≡ self.now.table }
        ensures table { seat.new.table ≡ seat.old.table }
        ensures glanced { Glanced seat.old.known result seat.new.known }
    {
        let mut place = mem::replace(&mut seat.badge, Badge::blank()).into_seat();
        let count = glance(&self.board.shared, &mut place);
        seat.badge = place.into_badge();
        count
    }

    /// Offers a datagram that came at this moment, in milliseconds.
    ///
    /// Its octets are copied first, so that `NoMemory` may come before the turn is tried. Then the turn is tried once:
    /// `Busy` comes only if another call had it. `JournalFull` comes exactly if the turn was got and the journal has
    /// `max_events` entries. Under each fault the event isn't in the journal, and the engine hasn't handled it.
    pub fn offer_datagram(
        &self,
        seat: &mut Seat,
        moment: u64,
        bytes: &[u8],
    ) -> Result<Done<Handled>, OfferFault>
        requires own { seat.old.table ≡ self.now.table }
        ensures table { seat.new.table ≡ seat.old.table }
        ensures same { IsSameSeat seat.old.known seat.new.known }
        ensures done { IfOk result (λ done. DoneAt C.meaning seat.old.known seat.new.known (Event.Datagram moment bytes.now) done.place (ToDatagram done.reply)) }
        ensures refused { IfErr result (λ fault. RefusedAt seat.old.known seat.new.known fault) }
    {
        let Ok(copy) = copy_of(self.alloc, bytes) else {
            return Err(OfferFault::NoMemory);
        };
        let mut place = mem::replace(&mut seat.badge, Badge::blank()).into_seat();
        let answer = datagram(
            &self.board.shared,
            &mut place,
            seat.actor,
            seat.calls + 1,
            moment,
            copy,
        );
        match answer {
            Ok(done) => {
                seat.calls += 1;
                seat.badge = place.into_badge();
                Ok(done)
            }
            Err(fault) => {
                seat.badge = place.into_badge();
                Err(fault)
            }
        }
    }

    /// Offers a tick, at this moment in milliseconds. It takes no memory.
    pub fn offer_tick(&self, seat: &mut Seat, moment: u64) -> Result<Done<Feedback>, TickFault>
        requires own { seat.old.table ≡ self.now.table }
        ensures table { seat.new.table ≡ seat.old.table }
        ensures same { IsSameSeat seat.old.known seat.new.known }
        ensures done { IfOk result (λ done. DoneAt C.meaning seat.old.known seat.new.known (Event.Tick moment) done.place (ToTick done.reply)) }
        ensures refused { IfErr result (λ fault. TickRefusedAt seat.old.known seat.new.known fault) }
    {
        let mut place = mem::replace(&mut seat.badge, Badge::blank()).into_seat();
        let answer = tick(
            &self.board.shared,
            &mut place,
            seat.actor,
            seat.calls + 1,
            moment,
        );
        match answer {
            Ok(done) => {
                seat.calls += 1;
                seat.badge = place.into_badge();
                Ok(done)
            }
            Err(fault) => {
                seat.badge = place.into_badge();
                Err(fault)
            }
        }
    }

    /// Offers a pull of the decoder, at this moment in milliseconds.
    pub fn offer_pull(&self, seat: &mut Seat, moment: u64) -> Result<Done<Pulled>, OfferFault>
        requires own { seat.old.table ≡ self.now.table }
        ensures table { seat.new.table ≡ seat.old.table }
        ensures same { IsSameSeat seat.old.known seat.new.known }
        ensures done { IfOk result (λ done. DoneAt C.meaning seat.old.known seat.new.known (Event.Pull moment) done.place (ToPull done.reply)) }
        ensures refused { IfErr result (λ fault. RefusedAt seat.old.known seat.new.known fault) }
    {
        let mut place = mem::replace(&mut seat.badge, Badge::blank()).into_seat();
        let answer = pull(
            &self.board.shared,
            &mut place,
            seat.actor,
            seat.calls + 1,
            moment,
        );
        match answer {
            Ok(done) => {
                seat.calls += 1;
                seat.badge = place.into_badge();
                Ok(done)
            }
            Err(fault) => {
                seat.badge = place.into_badge();
                Err(fault)
            }
        }
    }

    /// Ends the receiver, and gives its journal. The seat is whole, so that no other seat can have the turn.
    pub fn close(self, seat: Seat) -> Journal
        requires own { seat.table ≡ self.table }
        requires whole { IsWhole seat.known.share }
        ensures begins { BeginsWith result seat.known.seen }
        ensures places { seat.known.places ≡ counted_from 0 (length result) }
        ensures room { length result ≤ self.setup.room }
        ensures legal { IsLegal result }
        ensures stands { (engine : EngineParts) × StandsFor C.meaning engine (history result) × (engine.settings ≡ self.setup.settings) }
    {
        let mut closed = self.board.close_with(seat.badge.into_seat());
        let slot = closed.take(0);
        closed.free();
        match slot {
            Some(kept) => kept.into_journal(),
            None => unreachable!(),
        }
    }
}

/// The one slot of the table, with its value.
fn slot_of<C: Codec>(alloc: Global, kept: Kept<C>) -> Result<Vec<Option<Kept<C>>>, NoMemory>
    ensures { IfOk result (λ slots. slots.items ≡ Some kept ∷ []) }
{
    let mut slots = Vec::new(alloc);
    slots.push(Some(kept))?;
    Ok(slots)
}
