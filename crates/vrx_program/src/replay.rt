//! The word replay: a capture in, its transcript out.

ghost use Rattle.std.specs.Prelude.{◌≡◌, ◌+◌, ◌++◌, ◌<◌, ◌≤◌, List, [], ◌∷◌, Ok, Err, Some, None, length, is_ok, IfOk, IfErr, OnOk};
ghost use Rattle.vrx_core.specs.machine.Machine.{reply};
ghost use Rattle.vrx_core.specs.machine.SettingsFault.{fault_of};
ghost use Rattle.vrx_core.specs.relation.StandsFor.{StandsFor};
ghost use Rattle.vrx_core.specs.declared.event.Event.{Event};
ghost use Rattle.vrx_text.specs.Transcript.{text_of};
ghost use Rattle.vrx_capture.specs.declared.settings_line.CodecName.{CodecName};
ghost use Rattle.vrx_program.specs.Job.{IfRefused, most_events};
ghost use Rattle.vrx_program.specs.Replay.{replay_outcome, hindrance_of, unless_fault};
ghost use Rattle.vrx_program.specs.Replays.{replaying_by, HasReplayed, replayed_count};

use crate::job::{Job, Unanswered};
use std::alloc::Global;
use vrx_codec::Codec;
use vrx_core::{Engine, Event, Handled, NewFault, Settings};
use vrx_h264::H264;
use vrx_num::NoMemory;
use vrx_text::{CodecName, ErrorReason, read_settings, write_handled, write_pulled, write_tick};
use vrx_vp8::Vp8;

/// A replay: the engine of the codec that the first line says, and its last reply to a datagram, which the next one
/// takes the place of.
#[derive(Drop)]
pub(crate) enum Replay {
    /// It receives VP8.
    Vp8(Engine<Vp8>, Handled),
    /// It receives H.264.
    H264(Engine<H264>, Handled),
}

/// Puts the text of an engine's reply to a datagram after a text.
///
/// An event of each kind is a function of its own, so that none clears what only another uses.
#[inline(never)]
fn take_datagram<C: Codec>(
    engine: &mut Engine<C>,
    handled: &mut Handled,
    k: u32,
    moment: u64,
    bytes: &[u8],
    text: &mut Vec<u8>,
) -> Result<(), NoMemory>
    requires room { engine.old.events < most_events }
    ensures text { (h : List Event) → StandsFor C.meaning engine.old h →
        OnOk result (text.new.items ≡ text.old.items ++ text_of k (reply engine.old.settings C.meaning h (Event.Datagram moment bytes.now))) }
    ensures stands { (h : List Event) → StandsFor C.meaning engine.old h →
        OnOk result (StandsFor C.meaning engine.new (Event.Datagram moment bytes.now ∷ h)) }
    ensures settings { engine.new.settings ≡ engine.old.settings }
    ensures counted { OnOk result (engine.new.events ≡ engine.old.events + 1) }
{
    engine.datagram_into(moment, bytes, handled)?;
    write_handled(text, k, handled)
}

/// The same of a tick.
#[inline(never)]
fn take_tick<C: Codec>(
    engine: &mut Engine<C>,
    k: u32,
    moment: u64,
    text: &mut Vec<u8>,
) -> Result<(), NoMemory>
    requires room { engine.old.events < most_events }
    ensures text { (h : List Event) → StandsFor C.meaning engine.old h →
        OnOk result (text.new.items ≡ text.old.items ++ text_of k (reply engine.old.settings C.meaning h (Event.Tick moment))) }
    ensures stands { (h : List Event) → StandsFor C.meaning engine.old h →
        OnOk result (StandsFor C.meaning engine.new (Event.Tick moment ∷ h)) }
    ensures settings { engine.new.settings ≡ engine.old.settings }
    ensures counted { OnOk result (engine.new.events ≡ engine.old.events + 1) }
{
    let feedback = engine.tick(moment);
    write_tick(text, k, &feedback)
}

/// The same of a pull.
#[inline(never)]
fn take_pull<C: Codec>(
    engine: &mut Engine<C>,
    k: u32,
    moment: u64,
    text: &mut Vec<u8>,
) -> Result<(), NoMemory>
    requires room { engine.old.events < most_events }
    ensures text { (h : List Event) → StandsFor C.meaning engine.old h →
        OnOk result (text.new.items ≡ text.old.items ++ text_of k (reply engine.old.settings C.meaning h (Event.Pull moment))) }
    ensures stands { (h : List Event) → StandsFor C.meaning engine.old h →
        OnOk result (StandsFor C.meaning engine.new (Event.Pull moment ∷ h)) }
    ensures settings { engine.new.settings ≡ engine.old.settings }
    ensures counted { OnOk result (engine.new.events ≡ engine.old.events + 1) }
{
    let pulled = engine.pull(moment)?;
    write_pulled(text, k, &pulled)
}

/// The same of an event of whatever kind.
fn reply_of<C: Codec>(
    engine: &mut Engine<C>,
    handled: &mut Handled,
    k: u32,
    event: &Event,
    text: &mut Vec<u8>,
) -> Result<(), NoMemory>
    requires room { engine.old.events < most_events }
    ensures text { (h : List Event) → StandsFor C.meaning engine.old h →
        OnOk result (text.new.items ≡ text.old.items ++ text_of k (reply engine.old.settings C.meaning h event.now)) }
    ensures stands { (h : List Event) → StandsFor C.meaning engine.old h →
        OnOk result (StandsFor C.meaning engine.new (event.now ∷ h)) }
    ensures settings { engine.new.settings ≡ engine.old.settings }
    ensures counted { OnOk result (engine.new.events ≡ engine.old.events + 1) }
{
    match event {
        Event::Datagram { moment, bytes } => {
            take_datagram(engine, handled, k, *moment, bytes.as_slice(), text)
        }
        Event::Tick { moment } => take_tick(engine, k, *moment, text),
        Event::Pull { moment } => take_pull(engine, k, *moment, text),
    }
}

/// Why no engine stands for settings with a fault.
fn hindrance_of(fault: NewFault) -> Unanswered
    ensures reason { result ≡ hindrance_of fault }
{
    match fault {
        NewFault::NoMemory => Unanswered::NoMemory,
        NewFault::BadType => Unanswered::Refused(ErrorReason::Settings),
        NewFault::SameType => Unanswered::Refused(ErrorReason::Settings),
        NewFault::SameSsrc => Unanswered::Refused(ErrorReason::Settings),
        NewFault::RedMissing => Unanswered::Refused(ErrorReason::Settings),
        NewFault::BadInterval => Unanswered::Refused(ErrorReason::Settings),
    }
}

/// The engine of settings, if they have no fault.
fn engine_for<C: Codec>(alloc: Global, settings: Settings) -> Result<Engine<C>, Unanswered>
    ensures settings { IfOk result (λ engine. (fault_of settings ≡ None) × (engine.settings ≡ settings)) }
    ensures stands { IfOk result (λ engine. StandsFor C.meaning engine []) }
    ensures count { IfOk result (λ engine. engine.events ≡ 0) }
    ensures refused { IfErr result (λ why. IfRefused why (λ reason.
        (name : CodecName) → unless_fault name settings (fault_of settings) ≡ Err reason)) }
{
    match Engine::<C>::new(alloc, settings) {
        Ok(engine) => Ok(engine),
        Err(fault) => Err(hindrance_of(fault)),
    }
}

impl Job for Replay {
    ghost outcome = { replay_outcome };

    ghost answering = { replaying_by };

    ghost answered = { HasReplayed };

    ghost count = { replayed_count };

    fn refuses_heads() {}

    fn begin(alloc: Global, line: &[u8]) -> Result<Replay, Unanswered> {
        let Some((codec, settings)) = read_settings(line) else {
            return Err(Unanswered::Refused(ErrorReason::Settings));
        };
        match codec {
            CodecName::Vp8 => match engine_for::<Vp8>(alloc, settings) {
                Ok(engine) => Ok(Replay::Vp8(engine, Handled::new(alloc))),
                Err(why) => Err(why),
            },
            CodecName::H264 => match engine_for::<H264>(alloc, settings) {
                Ok(engine) => Ok(Replay::H264(engine, Handled::new(alloc))),
                Err(why) => Err(why),
            },
        }
    }

    fn answer(&mut self, k: u32, event: &Event, text: &mut Vec<u8>) -> Result<(), NoMemory> {
        match self {
            Replay::Vp8(engine, handled) => reply_of(engine, handled, k, event, text),
            Replay::H264(engine, handled) => reply_of(engine, handled, k, event, text),
        }
    }
}
