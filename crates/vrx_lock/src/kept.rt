//! The value in the slot: the engine and its journal.

ghost use Rattle.std.specs.Prelude.{◌≡◌, ◌<◌, ◌≤◌, [], ◌∷◌, ◌++◌, length, nat_le, IfOk, OnErr, vec_capacity};
ghost use Rattle.vrx_core.specs.declared.event.Event.{Event};
ghost use Rattle.vrx_core.specs.machine.Machine.{ToDatagram, ToPull, ToTick, reply};
ghost use Rattle.vrx_core.specs.relation.StandsFor.{EngineParts, StandsFor};
ghost use Rattle.vrx_lock.specs.declared.limits.TheConstants.{MOST_ENTRIES};
ghost use Rattle.vrx_lock.specs.Journal.{entry, history};

use crate::entry::Entry;
use crate::journal::Journal;
use std::marker::Model;
use vrx_codec::Codec;
use vrx_core::{Engine, Event, EventBytes, Handled, Pulled};
use vrx_num::NoMemory;
use vrx_rtcp::Feedback;

/// An engine, and the entries of its events. It stands for the events of the entries, for which there is room.
#[derive(Drop)]
pub struct Kept<C: Codec> {
    engine: Engine<C>,
    entries: Vec<Entry>,
    room: u64,
}

impl<C: Codec> Model for Kept<C> {
    ghost use Rattle.std.specs.Prelude.{◌≤◌, length, vec_capacity};
    ghost use Rattle.vrx_core.specs.relation.StandsFor.{StandsFor};
    ghost use Rattle.vrx_lock.specs.declared.limits.TheConstants.{MOST_ENTRIES};
    ghost use Rattle.vrx_lock.specs.Journal.{history};
    ghost use Rattle.vrx_lock.specs.inside.Stored.{Stored};

    ghost Value = { Stored };

    ghost view = { λ k. record { setup = record { settings = k.engine.settings; room = k.room }; journal = k.entries.items } };

    ghost invariant = { λ k. StandsFor C.meaning k.engine (history k.entries.items) × (k.room ≤ vec_capacity k.entries) × (length k.entries.items ≤ k.room) × (k.room ≤ MOST_ENTRIES) };
}

/// Puts an entry last, for which there is room.
fn note(entries: &mut Vec<Entry>, entry: Entry)
    requires room { length entries.old.items < vec_capacity entries.old }
    ensures items { entries.new.items ≡ entries.old.items ++ entry ∷ [] }
    ensures capacity { vec_capacity entries.old ≤ vec_capacity entries.new }
{
    let Ok(()) = entries.push(entry) else {
        unreachable!()
    };
}

impl<C: Codec> Kept<C> {
    /// A new engine, with no entry yet.
    pub(crate) fn new(engine: Engine<C>, entries: Vec<Entry>, room: u64) -> Kept<C>
        requires stands { StandsFor C.meaning engine [] }
        requires empty { entries.items ≡ [] }
        requires room { room ≤ vec_capacity entries }
        requires few { room ≤ MOST_ENTRIES }
        ensures { (result.setup ≡ record { settings = engine.settings; room = room }) × (result.journal ≡ []) }
    {
        Kept {
            engine,
            entries,
            room,
        }
    }

    /// Whether there is no room for another entry.
    pub(crate) fn is_full(&self) -> bool
        ensures value { result ≡ nat_le self.now.setup.room (length self.now.journal) }
        ensures few { (length self.now.journal ≤ self.now.setup.room) × (self.now.setup.room ≤ MOST_ENTRIES) }
    {
        self.room <= self.entries.len() as u64
    }

    /// The entries alone. The engine stood for their events.
    pub(crate) fn into_journal(self) -> Journal
        ensures journal { result ≡ self.journal }
        ensures stands { (engine : EngineParts) × StandsFor C.meaning engine (history self.journal) × (engine.settings ≡ self.setup.settings) }
    {
        Journal::of(self.entries)
    }

    /// Handles a datagram, and notes it with this actor and turn.
    pub(crate) fn datagram(
        &mut self,
        actor: u32,
        turn: u64,
        moment: u64,
        bytes: EventBytes,
    ) -> Result<Handled, NoMemory>
        requires room { length self.old.journal < self.old.setup.room }
        ensures noted { IfOk result (λ handled. (self.new.setup ≡ self.old.setup) ×
            (self.new.journal ≡ self.old.journal ++ entry actor turn (Event.Datagram moment bytes) ∷ [])) }
        ensures reply { IfOk result (λ handled. ToDatagram handled ≡
            reply self.old.setup.settings C.meaning (history self.old.journal) (Event.Datagram moment bytes)) }
        ensures err { OnErr result (self.new ≡ self.old) }
    {
        let handled = self.engine.datagram(moment, bytes.as_slice())?;
        let event = Event::Datagram { moment, bytes };
        note(&mut self.entries, Entry { actor, turn, event });
        Ok(handled)
    }

    /// Handles a tick, and notes it with this actor and turn.
    pub(crate) fn tick(&mut self, actor: u32, turn: u64, moment: u64) -> Feedback
        requires room { length self.old.journal < self.old.setup.room }
        ensures noted { (self.new.setup ≡ self.old.setup) ×
            (self.new.journal ≡ self.old.journal ++ entry actor turn (Event.Tick moment) ∷ []) }
        ensures reply { ToTick result ≡
            reply self.old.setup.settings C.meaning (history self.old.journal) (Event.Tick moment) }
    {
        let feedback = self.engine.tick(moment);
        let event = Event::Tick { moment };
        note(&mut self.entries, Entry { actor, turn, event });
        feedback
    }

    /// Handles a pull, and notes it with this actor and turn.
    pub(crate) fn pull(&mut self, actor: u32, turn: u64, moment: u64) -> Result<Pulled, NoMemory>
        requires room { length self.old.journal < self.old.setup.room }
        ensures noted { IfOk result (λ pulled. (self.new.setup ≡ self.old.setup) ×
            (self.new.journal ≡ self.old.journal ++ entry actor turn (Event.Pull moment) ∷ [])) }
        ensures reply { IfOk result (λ pulled. ToPull pulled ≡
            reply self.old.setup.settings C.meaning (history self.old.journal) (Event.Pull moment)) }
        ensures err { OnErr result (self.new ≡ self.old) }
    {
        let pulled = self.engine.pull(moment)?;
        let event = Event::Pull { moment };
        note(&mut self.entries, Entry { actor, turn, event });
        Ok(pulled)
    }
}
