//! The engine: three events and what each answers.

ghost use Rattle.std.specs.Prelude.{◌≡◌, ◌⊎◌, ◌+◌, ◌^◌, ◌<◌, ◌≤◌, ◌↔◌, max, true, List, [], ◌∷◌, Some, None, OnOk, OnErr, IfOk, IfSome, IfErr, IsOk, IsErr, IsErrOf, IsSome};
ghost use Rattle.vrx_window.specs.Content.{contents_of};
ghost use Rattle.vrx_frames.specs.Run.{Run as RunOf};
ghost use Rattle.vrx_core.specs.machine.Machine.{ToDatagram, ToTick, ToPull, IfFrame, frame_of as frame_of_run, latest, nack_for, pli_for, reply, snapshots, what_of};
ghost use Rattle.vrx_core.specs.machine.Answers.{IsLeastDeliverable, NoneDeliverable};
ghost use Rattle.vrx_core.specs.machine.Verdict.{verdict as verdict_of};
ghost use Rattle.vrx_core.specs.machine.SettingsFault.{IsFault, fault_of};
ghost use Rattle.vrx_core.specs.machine.Reasons.{MeansAnswer};
ghost use Rattle.vrx_core.specs.relation.StandsFor.{StandsFor};
ghost use Rattle.vrx_buffer.specs.Frames.{key_numbers};
ghost use Rattle.vrx_buffer.specs.Order.{greatest_of};
ghost use Rattle.vrx_core.specs.inside.Wants.{AreBelow, AreNear, asked_with, key_with, repaired_with, wanted_with};
ghost use Rattle.vrx_asks.specs.IsAsks.{IsAsks};
ghost use Rattle.vrx_core.specs.declared.event.Event.{Event};
ghost use Rattle.vrx_core.specs.declared.reply.What.{What as WhatOf};

use crate::assembler::{Arrival, Assembler};
use crate::meanings::{answers_are, reasons_mean};
use crate::reply::{Handled, Pulled, What};
use crate::requests::Requests;
use crate::settings::{NewFault, Settings};
use crate::settings_fault::fault_of as first_fault;
use arrayvec::ArrayVec;
use std::alloc::Global;
use std::marker::Model;
use vrx_asks::Due;
use vrx_codec::Codec;
use vrx_frames::{runs_apart, runs_are, runs_rise};
use vrx_num::limits::MOST_EVENTS;
use vrx_num::{NoMemory, Numbers};
use vrx_rtcp::{Feedback, nack_of, pli};

/// The receiver of one stream.
///
/// Its codec reads the payloads and joins the parts of a frame. It keeps no history. Contracts see its parts, and say
/// for every history for which it stands that it stands for the history with the event, and that the reply is the
/// machine's. What the last event asked for and gave up stays in `due`, whose room the next one uses again; it is boxed,
/// so that an engine that moves doesn't move it.
#[derive(Drop)]
pub struct Engine<C: Codec> {
    alloc: Global,
    assembler: Assembler<C>,
    requests: Requests,
    due: Box<Due>,
}

impl<C: Codec> Model for Engine<C> {
    ghost use Rattle.vrx_core.specs.relation.StandsFor.{EngineParts, parts_of};
    ghost use Rattle.vrx_core.specs.inside.Fields.{IsSound};

    ghost Value = { EngineParts };

    ghost view = { λ a. parts_of a.assembler a.requests };

    ghost invariant = { λ a. IsSound C.meaning a.assembler a.requests };
}

/// The room for what is due, with nothing in it.
fn nothing_due(alloc: Global) -> Result<Box<Due>, NoMemory> {
    let due = Box::new(
        alloc,
        Due {
            ask: ArrayVec::new(),
            give_up: ArrayVec::new(),
        },
    )?;
    Ok(due)
}

/// The NACK of these numbers, unless there is none.
fn nack_unless_none(settings: &Settings, numbers: &[u64]) -> Option<ArrayVec<u8, 496>>
    requires near { AreNear numbers.now }
    ensures { result ≡ nack_for settings.now numbers.now }
{
    if numbers.len() == 0 {
        None
    } else {
        Some(nack_of(settings.from_ssrc, settings.media_ssrc, numbers))
    }
}

/// The PLI, if a keyframe is asked for.
fn pli_if(settings: &Settings, key: bool) -> Option<[u8; 12]>
    ensures { result ≡ pli_for settings.now key }
{
    if key {
        Some(pli(settings.from_ssrc, settings.media_ssrc))
    } else {
        None
    }
}

/// The feedback that asks for these numbers, and for a keyframe or not.
fn feedback_of(settings: &Settings, numbers: &[u64], key: bool) -> Feedback
    requires near { AreNear numbers.now }
    ensures nack { result.nack ≡ nack_for settings.now numbers.now }
    ensures pli { result.pli ≡ pli_for settings.now key }
{
    Feedback {
        nack: nack_unless_none(settings, numbers),
        pli: pli_if(settings, key),
    }
}

/// Whether feedback asks for nothing.
fn asks_for_nothing(feedback: &Feedback) -> bool
    ensures { result ≡ true → (feedback.now.nack ≡ None) × (feedback.now.pli ≡ None) }
{
    feedback.nack.is_none() && feedback.pli.is_none()
}

/// Makes feedback ask for these numbers, and for a keyframe or not. It has room for 496 octets, so that it is changed
/// where it stands, and only if it asked for something or is to.
fn ask_for(feedback: &mut Feedback, settings: &Settings, numbers: &[u64], key: bool)
    requires near { AreNear numbers.now }
    ensures nack { feedback.new.nack ≡ nack_for settings.now numbers.now }
    ensures pli { feedback.new.pli ≡ pli_for settings.now key }
{
    if numbers.len() == 0 && !key && asks_for_nothing(feedback) {
        return;
    }
    fill(feedback, settings, numbers, key);
}

/// The same whatever it asked for: a function of its own, since what it builds is large.
#[inline(never)]
fn fill(feedback: &mut Feedback, settings: &Settings, numbers: &[u64], key: bool)
    requires near { AreNear numbers.now }
    ensures nack { feedback.new.nack ≡ nack_for settings.now numbers.now }
    ensures pli { feedback.new.pli ≡ pli_for settings.now key }
{
    *feedback = feedback_of(settings, numbers, key);
}

/// What is missing, and whether a keyframe is to be asked for, once a datagram was handled. The numbers to ask for
/// become the whole list. A datagram that isn't taken asks for nothing.
fn ask<C: Codec>(
    assembler: &Assembler<C>,
    requests: &mut Requests,
    numbers: &mut ArrayVec<u64, 2048>,
    arrival: &Option<Arrival>,
) -> bool
    requires below { IfSome arrival.now (λ a. AreBelow a.newest requests.old.asks) }
    requires short { IfSome arrival.now (λ a. IfSome a.newest (λ m. m < 2 ^ 62)) }
    ensures wanted { requests.new ≡ wanted_with assembler.now.clock assembler.now.front (greatest_of (key_numbers assembler.now.frames)) arrival.now requests.old }
    ensures numbers { numbers.new.items ≡ asked_with arrival.now }
    ensures near { AreNear (asked_with arrival.now) }
    ensures key { result ≡ key_with assembler.now.clock (greatest_of (key_numbers assembler.now.frames)) arrival.now requests.old }
    ensures sound { IsSome arrival.now → IsAsks requests.old.asks }
{
    match arrival {
        None => {
            numbers.clear();
            false
        }
        Some(arrival) => {
            let now = assembler.now();
            let front = assembler.front();
            let key = assembler.greatest_key();
            requests.taken(now, arrival, front, key, numbers)
        }
    }
}

/// The numbers repaired by a datagram: none, if it isn't taken.
fn repaired_by(alloc: Global, arrival: Option<Arrival>) -> Numbers
    ensures { result ≡ repaired_with arrival }
{
    match arrival {
        None => Numbers::new(alloc),
        Some(arrival) => arrival.repaired,
    }
}

impl<C: Codec> Engine<C> {
    /// An engine before its first event.
    ///
    /// The faults are tested in their order, and memory is taken after them: all that the engine ever takes, but the
    /// texts of packets and the bytes of frames.
    pub fn new(alloc: Global, settings: Settings) -> Result<Engine<C>, NewFault>
        ensures bad_type { IsErrOf result NewFault.BadType ↔ IsFault settings NewFault.BadType }
        ensures same_type { IsErrOf result NewFault.SameType ↔ IsFault settings NewFault.SameType }
        ensures same_ssrc { IsErrOf result NewFault.SameSsrc ↔ IsFault settings NewFault.SameSsrc }
        ensures red_missing { IsErrOf result NewFault.RedMissing ↔ IsFault settings NewFault.RedMissing }
        ensures bad_interval { IsErrOf result NewFault.BadInterval ↔ IsFault settings NewFault.BadInterval }
        ensures taken { IfOk result (λ _. fault_of settings ≡ None) }
        ensures no_memory { IsErrOf result NewFault.NoMemory → fault_of settings ≡ None }
        ensures refused { IfErr result (λ fault. (fault ≡ NewFault.NoMemory) ⊎ (fault_of settings ≡ Some fault)) }
        ensures stands { IfOk result (λ engine. StandsFor C.meaning engine []) }
        ensures settings { IfOk result (λ engine. engine.settings ≡ settings) }
    {
        match first_fault(&settings) {
            Some(fault) => Err(fault),
            None => Engine::<C>::with_settings(alloc, settings),
        }
    }

    /// An engine of settings that have no fault. Nothing but memory hinders it.
    fn with_settings(alloc: Global, settings: Settings) -> Result<Engine<C>, NewFault>
        requires good { fault_of settings ≡ None }
        ensures stands { IfOk result (λ engine. StandsFor C.meaning engine []) }
        ensures settings { IfOk result (λ engine. engine.settings ≡ settings) }
        ensures no_memory { IfErr result (λ fault. fault ≡ NewFault.NoMemory) }
    {
        let assembler = Assembler::new(alloc, settings)?;
        let Ok(requests) = Requests::new(alloc) else {
            return Err(NewFault::NoMemory);
        };
        let Ok(due) = nothing_due(alloc) else {
            return Err(NewFault::NoMemory);
        };
        Ok(Engine {
            alloc,
            assembler,
            requests,
            due,
        })
    }

    /// How many events the engine took.
    pub fn events(&self) -> u32
        ensures value { result ≡ self.now.events }
        ensures few { result ≤ MOST_EVENTS }
    {
        self.assembler.events()
    }

    /// The greatest moment of the events, in milliseconds: 0 before the first.
    pub fn now(&self) -> u64
        ensures value { result ≡ self.now.clock }
    {
        self.assembler.now()
    }

    /// Takes a datagram that came at this moment, in milliseconds.
    ///
    /// What is taken is a packet of the stream: the datagram itself, or the original of a retransmission (RFC 4588
    /// 4), out of RED if it is in RED (RFC 2198 3). `Media`, `Fec` and `Empty` have its extended number (RFC 3550 A.1),
    /// and it is kept without padding (RFC 3550 5.1); `Rtcp` comes of RTCP packets to their end. `Dropped` has the first
    /// reason that applies, in the order of [`reasons_mean`]: a payload that isn't empty and that the codec refuses
    /// is `BadPart` with the codec's number.
    ///
    /// Lost packets that can be rebuilt now from FEC packets are available, too (RFC 5109 9), until no more can be:
    /// `repaired` has their numbers in order. A repaired number isn't asked for.
    ///
    /// The feedback of a datagram that is taken asks for each number that it makes missing, by one NACK, and for a
    /// keyframe, by one PLI, if it gives up a number that no keyframe answers and no request is outstanding.
    ///
    /// `NoMemory` changes nothing, the clock and the count included. A datagram that is refused or RTCP is never
    /// answered so, and moves only the clock and the count.
    pub fn datagram(&mut self, moment: u64, bytes: &[u8]) -> Result<Handled, NoMemory>
        requires room { self.old.events < MOST_EVENTS }
        ensures stands { (h : List Event) → StandsFor C.meaning self.old h →
            OnOk result (StandsFor C.meaning self.new (Event.Datagram moment bytes.now ∷ h)) }
        ensures reply { (h : List Event) → StandsFor C.meaning self.old h →
            IfOk result (λ handled. ToDatagram handled ≡ reply self.old.settings C.meaning h (Event.Datagram moment bytes.now)) }
        ensures what { IfOk result (λ handled.
            handled.what ≡ what_of (verdict_of self.old.settings C.meaning (contents_of self.old.window) bytes.now)) }
        ensures exactly { (what : What) → IfOk result (λ handled.
            (handled.what ≡ what) ↔ MeansAnswer self.old.settings C.meaning (contents_of self.old.window) bytes.now what) }
        ensures counts { OnOk result ((self.new.events ≡ self.old.events + 1) ×
            (self.new.clock ≡ max self.old.clock moment)) }
        ensures settings { self.new.settings ≡ self.old.settings }
        ensures no_memory { OnErr result (self.new ≡ self.old) }
        ensures refused { IsErr (verdict_of self.old.settings C.meaning (contents_of self.old.window) bytes.now) →
            IsOk result × (self.new ≡ record self.old { events = self.old.events + 1; clock = max self.old.clock moment }) }
    {
        let mut handled = Handled::new(self.alloc);
        self.datagram_into(moment, bytes, &mut handled)?;
        Ok(handled)
    }

    /// The same, with the reply in the place of one that the caller keeps: a reply has room for a NACK, and isn't moved
    /// so. `NoMemory` leaves that reply as it is, too.
    pub fn datagram_into(
        &mut self,
        moment: u64,
        bytes: &[u8],
        handled: &mut Handled,
    ) -> Result<(), NoMemory>
        requires room { self.old.events < MOST_EVENTS }
        ensures stands { (h : List Event) → StandsFor C.meaning self.old h →
            OnOk result (StandsFor C.meaning self.new (Event.Datagram moment bytes.now ∷ h)) }
        ensures reply { (h : List Event) → StandsFor C.meaning self.old h →
            OnOk result (ToDatagram handled.new ≡ reply self.old.settings C.meaning h (Event.Datagram moment bytes.now)) }
        ensures what { OnOk result
            (handled.new.what ≡ what_of (verdict_of self.old.settings C.meaning (contents_of self.old.window) bytes.now)) }
        ensures exactly { (what : What) → OnOk result
            ((handled.new.what ≡ what) ↔ MeansAnswer self.old.settings C.meaning (contents_of self.old.window) bytes.now what) }
        ensures counts { OnOk result ((self.new.events ≡ self.old.events + 1) ×
            (self.new.clock ≡ max self.old.clock moment)) }
        ensures settings { self.new.settings ≡ self.old.settings }
        ensures no_memory { OnErr result ((self.new ≡ self.old) × (handled.new ≡ handled.old)) }
        ensures refused { IsErr (verdict_of self.old.settings C.meaning (contents_of self.old.window) bytes.now) →
            IsOk result × (self.new ≡ record self.old { events = self.old.events + 1; clock = max self.old.clock moment }) }
    {
        // Laws: what each answer means; and what the runs are, which rise by their first numbers.
        reasons_mean();
        runs_are();
        runs_rise();
        let outcome = self.assembler.handle(moment, bytes)?;
        let key = ask(
            &self.assembler,
            &mut self.requests,
            &mut self.due.ask,
            &outcome.arrival,
        );
        handled.what = outcome.what;
        handled.repaired = repaired_by(self.alloc, outcome.arrival);
        let numbers = self.due.ask.as_slice();
        let settings = self.assembler.settings();
        ask_for(&mut handled.feedback, settings, numbers, key);
        Ok(())
    }

    /// Takes the time, in milliseconds. What is missing is asked for again at the interval of the settings, ten times in
    /// all, and then given up; a keyframe is asked for if there is need of one. A tick takes no memory.
    pub fn tick(&mut self, moment: u64) -> Feedback
        requires room { self.old.events < MOST_EVENTS }
        ensures stands { (h : List Event) → StandsFor C.meaning self.old h →
            StandsFor C.meaning self.new (Event.Tick moment ∷ h) }
        ensures reply { (h : List Event) → StandsFor C.meaning self.old h →
            ToTick result ≡ reply self.old.settings C.meaning h (Event.Tick moment) }
        ensures counts { (self.new.events ≡ self.old.events + 1) × (self.new.clock ≡ max self.old.clock moment) }
        ensures settings { self.new.settings ≡ self.old.settings }
    {
        // A law: what the runs are.
        runs_are();
        self.assembler.count(moment);
        let now = self.assembler.now();
        let started = self.assembler.newest().is_some();
        let interval = self.assembler.settings().interval;
        let key = self.assembler.greatest_key();
        let asks_key = self
            .requests
            .ticked(now, interval, started, key, &mut self.due);
        self.assembler.give_up_all(self.due.give_up.as_slice());
        let settings = self.assembler.settings();
        feedback_of(settings, self.due.ask.as_slice(), asks_key)
    }

    /// Gives the decoder the next frame, at this moment in milliseconds.
    ///
    /// `NotReady` comes exactly if no run that stands is deliverable. Otherwise the deliverable run with the least
    /// first number is given. `NoMemory` changes nothing, the clock and the count included, and never comes if no
    /// frame is ready.
    pub fn pull(&mut self, moment: u64) -> Result<Pulled, NoMemory>
        requires room { self.old.events < MOST_EVENTS }
        ensures stands { (h : List Event) → StandsFor C.meaning self.old h →
            OnOk result (StandsFor C.meaning self.new (Event.Pull moment ∷ h)) }
        ensures reply { (h : List Event) → StandsFor C.meaning self.old h →
            IfOk result (λ pulled. ToPull pulled ≡ reply self.old.settings C.meaning h (Event.Pull moment)) }
        ensures not_ready_exactly { (h : List Event) → StandsFor C.meaning self.old h →
            let s = latest (snapshots self.old.settings C.meaning h) in
            IfOk result (λ pulled. (pulled ≡ Pulled.NotReady) ↔ NoneDeliverable s.told s.pulled s.front s.standing) }
        ensures frame { (h : List Event) → StandsFor C.meaning self.old h →
            let s = latest (snapshots self.old.settings C.meaning h) in
            IfOk result (λ pulled. IfFrame pulled (λ frame.
            (run : RunOf) × IsLeastDeliverable s.told s.pulled s.front s.standing run × (frame ≡ frame_of_run run))) }
        ensures counts { OnOk result ((self.new.events ≡ self.old.events + 1) ×
            (self.new.clock ≡ max self.old.clock moment)) }
        ensures settings { self.new.settings ≡ self.old.settings }
        ensures no_memory { OnErr result (self.new ≡ self.old) }
        ensures not_ready { (h : List Event) → StandsFor C.meaning self.old h →
            reply self.old.settings C.meaning h (Event.Pull moment) ≡ ToPull Pulled.NotReady → IsOk result }
    {
        // Laws: what each answer means; and what the runs are, which rise by their first numbers and lie apart.
        answers_are();
        runs_are();
        runs_rise();
        runs_apart();
        match self.assembler.hand_out(moment)? {
            Some(frame) => {
                let front = self.assembler.front();
                self.requests.pulled(front, frame.key, frame.first);
                Ok(Pulled::Frame(frame))
            }
            None => Ok(Pulled::NotReady),
        }
    }
}
