//! The word drill: a number in, the summary of a call out.

ghost use Rattle.std.specs.Prelude.{◌≡◌, ◌+◌, ◌^◌, ◌<◌, ◌≤◌, ◌↔◌, ℕ, List, [], ◌∷◌, map, IfOk, IfSome, OnOk, IsTrue, MatchOption};
ghost use Rattle.std.specs.Fmt.{decimal};
ghost use Rattle.std.specs.String.{string_bytes};
ghost use Rattle.vrx_core.specs.machine.Machine.{reply, replies};
ghost use Rattle.vrx_core.specs.relation.StandsFor.{StandsFor};
ghost use Rattle.vrx_core.specs.declared.event.Event.{Event};
ghost use Rattle.vrx_num.specs.declared.limits.TheConstants.{MOST_EVENTS};
ghost use Rattle.vrx_vp8.specs.Descriptor.{vp8};
ghost use Rattle.vrx_sender.specs.Drill.{drill_events};
ghost use Rattle.vrx_sender.specs.Packets.{settings};
ghost use Rattle.vrx_sender.specs.declared.drill.TheConstants.{MOST_FRAMES};
ghost use Rattle.vrx_program.specs.Counts.{IsCounted};
ghost use Rattle.vrx_program.specs.Counting.{IsFew};
ghost use Rattle.vrx_program.specs.DrillText.{DrillEnds, IsDrill, drill_text, plus, summary_of, tally};

use crate::status::Status;
use crate::summary::{
    NOTHING, Summary, tally_of_handled, tally_of_pulled, tally_of_tick, text_of_summary,
};
use itoa::Buffer;
use std::alloc::Global;
use vrx_core::{Engine, Event};
use vrx_io::{Sink, put};
use vrx_num::NoMemory;
use vrx_sender::{Drill, MOST_FRAMES, drill_settings};
use vrx_vp8::Vp8;

/// The number that a word is, in decimal without leading zeros.
fn number_of(word: &str) -> Option<u64>
    ensures number { MatchOption result
        ((n : ℕ) → n < 2 ^ 64 → ¬ (word.now ≡ decimal n))
        (λ n. word.now ≡ decimal n) }
    ensures fits { IfSome result (λ n. n < 2 ^ 64) }
{
    let Ok(n) = word.parse::<u64>() else {
        return None;
    };
    let mut buffer = Buffer::new();
    if buffer.format(n) == word {
        Some(n)
    } else {
        None
    }
}

/// Whether a drill may have so many frames.
fn is_count(n: u64) -> bool
    ensures { IsTrue result ↔ ((1 ≤ n) × (n ≤ MOST_FRAMES)) }
{
    1 <= n && n <= u64::from(MOST_FRAMES)
}

/// The count of frames that a word is.
fn frames_of(word: &str) -> Option<u32>
    ensures { MatchOption result
        ((n : ℕ) → 1 ≤ n → n ≤ MOST_FRAMES → ¬ (word.now ≡ decimal n))
        (λ n. (word.now ≡ decimal n) × ((1 ≤ n) × (n ≤ MOST_FRAMES))) }
{
    match number_of(word) {
        Some(n) => { if is_count(n) { Some(n as u32) } else { None } }
        None => None,
    }
}

/// The seed and the count of frames, if the words are those of a drill.
fn drill_of(words: &[String]) -> Option<(u64, u32)>
    ensures { MatchOption result
        ((seed frames : ℕ) → ¬ IsDrill seed frames (map string_bytes words.now))
        (λ drill. IsDrill drill.0 drill.1 (map string_bytes words.now)) }
{
    let [word, seed, frames] = words else {
        return None;
    };
    if word.as_str() != "drill" {
        return None;
    }
    let seed = number_of(seed.as_str())?;
    let frames = frames_of(frames.as_str())?;
    Some((seed, frames))
}

/// The receiver of a drill.
fn receiver(alloc: Global) -> Result<Engine<Vp8>, NoMemory>
    ensures stands { IfOk result (λ engine. StandsFor vp8 engine []) }
    ensures settings { IfOk result (λ engine. engine.settings ≡ settings) }
    ensures count { IfOk result (λ engine. engine.events ≡ 0) }
{
    match Engine::<Vp8>::new(alloc, drill_settings()) {
        Ok(engine) => Ok(engine),
        Err(_) => Err(NoMemory),
    }
}

/// The counts of the reply to a datagram.
fn answer_datagram(engine: &mut Engine<Vp8>, moment: u64, bytes: &[u8]) -> Result<Summary, NoMemory>
    requires room { engine.old.events < MOST_EVENTS }
    ensures stands { (h : List Event) → StandsFor vp8 engine.old h → OnOk result (StandsFor vp8 engine.new (Event.Datagram moment bytes.now ∷ h)) }
    ensures tally { (h : List Event) → StandsFor vp8 engine.old h →
        IfOk result (λ one. one ≡ tally (reply engine.old.settings vp8 h (Event.Datagram moment bytes.now))) }
    ensures few { IfOk result (λ one. IsFew 1 one) }
    ensures count { OnOk result (engine.new.events ≡ engine.old.events + 1) }
    ensures settings { engine.new.settings ≡ engine.old.settings }
{
    let handled = engine.datagram(moment, bytes)?;
    Ok(tally_of_handled(&handled))
}

/// The counts of the reply to a tick.
fn answer_tick(engine: &mut Engine<Vp8>, moment: u64) -> Result<Summary, NoMemory>
    requires room { engine.old.events < MOST_EVENTS }
    ensures stands { (h : List Event) → StandsFor vp8 engine.old h → OnOk result (StandsFor vp8 engine.new (Event.Tick moment ∷ h)) }
    ensures tally { (h : List Event) → StandsFor vp8 engine.old h →
        IfOk result (λ one. one ≡ tally (reply engine.old.settings vp8 h (Event.Tick moment))) }
    ensures few { IfOk result (λ one. IsFew 1 one) }
    ensures count { OnOk result (engine.new.events ≡ engine.old.events + 1) }
    ensures settings { engine.new.settings ≡ engine.old.settings }
{
    let feedback = engine.tick(moment);
    Ok(tally_of_tick(&feedback))
}

/// The counts of the reply to a pull.
fn answer_pull(engine: &mut Engine<Vp8>, moment: u64) -> Result<Summary, NoMemory>
    requires room { engine.old.events < MOST_EVENTS }
    ensures stands { (h : List Event) → StandsFor vp8 engine.old h → OnOk result (StandsFor vp8 engine.new (Event.Pull moment ∷ h)) }
    ensures tally { (h : List Event) → StandsFor vp8 engine.old h →
        IfOk result (λ one. one ≡ tally (reply engine.old.settings vp8 h (Event.Pull moment))) }
    ensures few { IfOk result (λ one. IsFew 1 one) }
    ensures count { OnOk result (engine.new.events ≡ engine.old.events + 1) }
    ensures settings { engine.new.settings ≡ engine.old.settings }
{
    let pulled = engine.pull(moment)?;
    Ok(tally_of_pulled(&pulled))
}

/// The counts of the reply to an event.
fn answer(engine: &mut Engine<Vp8>, event: &Event) -> Result<Summary, NoMemory>
    requires room { engine.old.events < MOST_EVENTS }
    ensures stands { (h : List Event) → StandsFor vp8 engine.old h → OnOk result (StandsFor vp8 engine.new (event.now ∷ h)) }
    ensures tally { (h : List Event) → StandsFor vp8 engine.old h →
        IfOk result (λ one. one ≡ tally (reply engine.old.settings vp8 h event.now)) }
    ensures few { IfOk result (λ one. IsFew 1 one) }
    ensures count { OnOk result (engine.new.events ≡ engine.old.events + 1) }
    ensures settings { engine.new.settings ≡ engine.old.settings }
{
    match event {
        Event::Datagram { moment, bytes } => answer_datagram(engine, *moment, bytes.as_slice()),
        Event::Tick { moment } => answer_tick(engine, *moment),
        Event::Pull { moment } => answer_pull(engine, *moment),
    }
}

/// Has an event answered, and counts the reply.
fn take_event(
    engine: &mut Engine<Vp8>,
    event: &Event,
    summary: &mut Summary,
) -> Result<(), NoMemory>
    requires room { engine.old.events < MOST_EVENTS }
    requires few { IsFew engine.old.events summary.old }
    ensures stands { (h : List Event) → StandsFor vp8 engine.old h → OnOk result (StandsFor vp8 engine.new (event.now ∷ h)) }
    ensures counts { (h : List Event) → StandsFor vp8 engine.old h →
        OnOk result (summary.new ≡ plus summary.old (tally (reply engine.old.settings vp8 h event.now))) }
    ensures few { OnOk result (IsFew engine.new.events summary.new) }
    ensures count { OnOk result (engine.new.events ≡ engine.old.events + 1) }
    ensures settings { engine.new.settings ≡ engine.old.settings }
{
    let one = answer(engine, event)?;
    *summary = summary.plus(one);
    Ok(())
}

/// Replays a drill, and counts the replies. It holds one frame's events at a time.
fn summary_of_drill(alloc: Global, seed: u64, frames: u32) -> Result<Summary, NoMemory>
    requires frames { (1 ≤ frames) × (frames ≤ MOST_FRAMES) }
    ensures { IfOk result (λ summary. summary ≡ summary_of (replies settings vp8 [] (drill_events seed frames))) }
{
    let mut drill = Drill::new(alloc, seed, frames);
    let mut engine = receiver(alloc)?;
    let mut summary = NOTHING;
    while let Some(event) = drill.next_event()? {
        take_event(&mut engine, &event, &mut summary)?;
    }
    Ok(summary)
}

/// The text of a drill.
fn text_of_drill(alloc: Global, seed: u64, frames: u32) -> Result<Vec<u8>, NoMemory>
    requires frames { (1 ≤ frames) × (frames ≤ MOST_FRAMES) }
    ensures { IfOk result (λ text. text.items ≡ drill_text seed frames) }
{
    let summary = summary_of_drill(alloc, seed, frames)?;
    text_of_summary(alloc, seed, frames, &summary)
}

/// Replays a drill and writes its summary as one piece.
fn drill<K: Sink>(alloc: Global, seed: u64, frames: u32, sink: &mut K) -> Status
    requires frames { (1 ≤ frames) × (frames ≤ MOST_FRAMES) }
    ensures ends { DrillEnds result (drill_text seed frames) (K.taken sink.old) (K.taken sink.new) }
    ensures counted { (reads : ℕ) → IsCounted result reads reads (K.faults sink.old) (K.faults sink.new) }
    ensures later { K.faults sink.old ≤ K.faults sink.new }
{
    let Ok(text) = text_of_drill(alloc, seed, frames) else {
        return Status::NoMemory;
    };
    match put(sink, text.as_slice()) {
        Ok(()) => Status::Done,
        Err(_) => Status::WriteFault,
    }
}

/// Runs a drill, if the words are those of one.
pub(crate) fn run_drill<K: Sink>(alloc: Global, words: &[String], sink: &mut K) -> Status
    ensures usage { (result ≡ Status.BadUsage) ↔ ((seed frames : ℕ) → ¬ IsDrill seed frames (map string_bytes words.now)) }
    ensures untouched { result ≡ Status.BadUsage → sink.new ≡ sink.old }
    ensures ends { (seed frames : ℕ) → IsDrill seed frames (map string_bytes words.now) →
        DrillEnds result (drill_text seed frames) (K.taken sink.old) (K.taken sink.new) }
    ensures counted { (reads : ℕ) → IsCounted result reads reads (K.faults sink.old) (K.faults sink.new) }
    ensures later { K.faults sink.old ≤ K.faults sink.new }
{
    match drill_of(words) {
        Some(call) => drill(alloc, call.0, call.1, sink),
        None => Status::BadUsage,
    }
}
