//! Replays captured calls, and says what their datagrams are.
//!
//! `run` is the program over any source and sink, and carries its theorem; `main` runs it over the standard streams.
#![tactic(auto)]

ghost use Rattle.std.specs.Prelude.{◌≡◌, ◌≤◌, ◌↔◌, ◌⊎◌, ℕ, List, map, IfSome, is_some};
ghost use Rattle.std.specs.String.{string_bytes};
ghost use Rattle.vrx_io.specs.Faults.{Rose};
ghost use Rattle.vrx_core.specs.honest.Sender.{Sender};
ghost use Rattle.vrx_core.specs.honest.HonestNetwork.{Origin};
ghost use Rattle.vrx_program.specs.Words.{IsWord, gives};
ghost use Rattle.vrx_program.specs.Counts.{IsCounted};
ghost use Rattle.vrx_program.specs.DrillText.{DrillEnds, IsDrill, drill_text};
ghost use Rattle.vrx_program.specs.HonestDrill.{HonestDrill};
ghost use Rattle.vrx_program.specs.Ends.{Ends};
ghost use Rattle.vrx_program.specs.Runs.{ReadsInStep};
ghost use Rattle.vrx_program.specs.HonestLines.{IsHonestCapture, HonestLines};

mod drill;
mod driver;
mod inspect;
mod job;
mod laws;
mod live;
mod replay;
mod status;
mod summary;
#[cfg(test)]
mod tests;
mod word;

use crate::drill::run_drill;
use crate::driver::drive;
use crate::inspect::Inspect;
pub use crate::laws::vp8_begins_evidently;
pub use crate::live::{LiveEnd, run_live};
use crate::replay::Replay;
pub use crate::status::Status;
pub use crate::word::Word;
use crate::word::word_of;
use std::alloc::Global;
use std::io::ErrorKind;
use std::process::ExitCode;
use std::sync::Wait;
use std::thread::Threads;
use std::{env, io};
use vrx_core::honest_call;
use vrx_io::{Sink, Source, StdSink, StdSource};
use vrx_live::NoGate;
use vrx_sender::{MOST_HONEST_FRAMES, honest_network, honest_sender};
use vrx_text::lines_join;

/// Runs the program: `replay` reads a capture from the source and writes its transcript to the sink, and `inspect`
/// writes what each of its datagrams is. `drill SEED FRAMES` makes a call from a number, replays it and writes a summary;
/// it reads nothing.
///
/// What the clauses say of content, they say if the source tells its bytes. What the sink took is what it took in
/// this call.
pub fn run<S: Source, K: Sink>(
    alloc: Global,
    words: &[String],
    source: &mut S,
    sink: &mut K,
) -> Status
    // The words: any others than one word that the program knows, and those of a drill, are bad usage, and then nothing
    // is read or written.
    ensures usage { (result ≡ Status.BadUsage) ↔ (((word : Word) → ¬ IsWord word (map string_bytes words.now))
        × ((seed frames : ℕ) → ¬ IsDrill seed frames (map string_bytes words.now))) }
    ensures untouched { result ≡ Status.BadUsage →
        (source.new ≡ source.old) × (sink.new ≡ sink.old) }

    // The status and the text are those that the word gives of the capture: all of the text on Done and BadCapture,
    // that of the whole lines read on ReadFault, and a part from its front else.
    ensures outcome { (word : Word) → IsWord word (map string_bytes words.now) → IfSome (S.left source.old) (λ capture.
        Ends (gives word) result capture (K.taken sink.old) (K.taken sink.new) (S.left source.new)) }

    // Of every status what was read: each read was made only once the text of every whole line read until then was
    // written, and none of these lines was refused.
    ensures in_step { (word : Word) → IsWord word (map string_bytes words.now) →
        ReadsInStep (gives word) S.is_read S.left source.old source.new (K.taken sink.old) (K.taken sink.new) }

    // Both counts of faults are as they were, but for the one that the status names, which rose.
    ensures counted { IsCounted result (S.faults source.old) (S.faults source.new) (K.faults sink.old) (K.faults sink.new) }
    ensures read_fault { result ≡ Status.ReadFault →
        Rose (S.faults source.old) (S.faults source.new) }
    ensures write_fault { result ≡ Status.WriteFault →
        Rose (K.faults sink.old) (K.faults sink.new) }
    ensures tells { is_some (S.left source.new) ≡ is_some (S.left source.old) }
    ensures read_later { S.faults source.old ≤ S.faults source.new }
    ensures write_later { K.faults sink.old ≤ K.faults sink.new }

    // With a right word and no fault, the run ends as the capture says, unless memory runs out.
    ensures complete { (word : Word) → IsWord word (map string_bytes words.now) →
        ¬ Rose (S.faults source.old) (S.faults source.new) → ¬ Rose (K.faults sink.old) (K.faults sink.new) →
        IfSome (S.left source.old) (λ capture. (result ≡ (gives word capture).status) ⊎ (result ≡ Status.NoMemory)) }

    // A drill: nothing is read, and the text is the summary whose counts are those of the machine's replies to the
    // drill's events. With no fault all of it is written, unless memory runs out.
    ensures drill_reads { (seed frames : ℕ) → IsDrill seed frames (map string_bytes words.now) → source.new ≡ source.old }
    ensures drill_ends { (seed frames : ℕ) → IsDrill seed frames (map string_bytes words.now) →
        DrillEnds result (drill_text seed frames) (K.taken sink.old) (K.taken sink.new) }
    ensures drill_complete { (seed frames : ℕ) → IsDrill seed frames (map string_bytes words.now) →
        ¬ Rose (K.faults sink.old) (K.faults sink.new) → (result ≡ Status.Done) ⊎ (result ≡ Status.NoMemory) }

    // A drill of at most 6,000 frames is an honest call, whatever the seed: an honest network brings what an honest
    // sender sent, and all that is said below of an honest call holds of the replies that the summary counts.
    ensures drill_honest { (seed frames : ℕ) → IsDrill seed frames (map string_bytes words.now) →
        frames ≤ MOST_HONEST_FRAMES → HonestDrill seed frames }

    // The honest call: if an honest network took the datagrams of the capture from one honest sender, the frames
    // pulled are that sender's, byte for byte, in order, each at most once, from a keyframe on, after all their
    // references, and notready comes exactly if no frame is ready. Each event that gives up a packet has a pli line,
    // unless a request for a keyframe is outstanding or a later keyframe answers the packet.
    ensures honest { IsWord Word.Replay (map string_bytes words.now) → IfSome (S.left source.old) (λ capture.
        (sender : Sender) (origins : List Origin) → IsHonestCapture capture sender origins →
        HonestLines capture sender origins result (K.taken sink.old) (K.taken sink.new)) }
{
    // A law: what the machine answers in an honest call is the sender's, in order and after its references.
    honest_call();
    // Two laws: the sender of a drill is honest, and so is the network of a drill of at most 6,000 frames.
    honest_sender();
    honest_network();
    // A law: the lines of whole lines and of what stands after them join, and so does what they give.
    lines_join();
    match word_of(words) {
        Some(Word::Replay) => drive::<Replay, S, K>(alloc, source, sink),
        Some(Word::Inspect) => drive::<Inspect, S, K>(alloc, source, sink),
        None => run_drill(alloc, words, sink),
    }
}

/// The words after the program's name.
fn words_of(rt: &HostRuntime) -> io::Result<Vec<String>> {
    let mut words = Vec::new(rt.alloc());
    for word in env::args(rt)?.skip(1) {
        words.push(word)?;
    }
    Ok(words)
}

/// Tells a person why a run wasn't done, on standard error.
fn report(rt: &HostRuntime, status: Status) {
    if let Some(cause) = status.cause() {
        let _ = eprintln!(rt; "{cause}");
    }
}

/// Runs the program: `run_live` if the first word is live, and else `run`.
fn run_words<R: Threads + Wait + Sync, S: Source, K: Sink>(
    rt: &R,
    alloc: Global,
    words: &[String],
    source: &mut S,
    sink: &mut K,
) -> Status {
    match words.first() {
        Some(word) if word.as_str() == "live" => {
            run_live(rt, alloc, words, source, sink, &NoGate).status
        }
        _ => run(alloc, words, source, sink),
    }
}

/// Runs the program over the standard streams, and ends with the status's number.
fn main(rt: HostRuntime) -> ExitCode {
    let status = match words_of(&rt) {
        Ok(words) => {
            let mut source = StdSource::new(rt.stdin());
            let mut sink = StdSink::new(rt.stdout());
            run_words(&rt, rt.alloc(), words.as_slice(), &mut source, &mut sink)
        }
        Err(error) if error.kind() == ErrorKind::OutOfMemory => Status::NoMemory,
        // A word that is no text is none that the program knows.
        Err(_) => Status::BadUsage,
    };
    report(&rt, status);
    ExitCode::from(status.number())
}
