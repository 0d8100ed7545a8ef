//! The word live: three threads replay a capture over one shared receiver.

ghost use Rattle.std.specs.Prelude.{◌≡◌, ◌≢◌, ◌≤◌, ◌↔◌, ◌⊎◌, List, None, map, IfSome};
ghost use Rattle.std.specs.String.{string_bytes};
ghost use Rattle.vrx_io.specs.Faults.{Rose};
ghost use Rattle.vrx_program.specs.Counts.{IsCounted};
ghost use Rattle.vrx_program.specs.Live.{HonestLive, IsLive, LiveEnds, live_status};

mod play;
mod told;

use crate::driver::refuse;
use crate::live::play::play;
use crate::live::told::{Unread, read_call};
use crate::status::Status;
use crate::word::is_alone;
use std::alloc::Global;
use std::sync::Wait;
use std::thread::Threads;
use vrx_core::honest_call;
use vrx_io::{Sink, Source};
use vrx_live::Gate;
use vrx_lock::Journal;

/// How a run of live ended.
#[derive(Drop)]
pub struct LiveEnd {
    /// The status.
    pub status: Status,
    /// The journal of the receiver, whose order is printed: if the run was done or a write failed.
    pub journal: Option<Journal>,
}

/// Reads the whole capture, has it played, and writes the texts in the order of the journal.
fn drive_live<R: Threads + Wait + Sync, S: Source, K: Sink, G: Gate + Sync>(
    rt: &R,
    alloc: Global,
    source: &mut S,
    sink: &mut K,
    gate: &G,
) -> LiveEnd
    ensures ends { IfSome (S.left source.old) (λ capture.
        LiveEnds result.status result.journal capture (K.taken sink.old) (K.taken sink.new) (S.left source.new)) }
    ensures status { result.status ≢ Status.BadUsage }
    ensures counted { IsCounted result.status (S.faults source.old) (S.faults source.new) (K.faults sink.old) (K.faults sink.new) }
    ensures read_later { S.faults source.old ≤ S.faults source.new }
    ensures write_later { K.faults sink.old ≤ K.faults sink.new }
{
    match read_call(alloc, source) {
        Ok(told) => play(rt, alloc, told, sink, gate),
        Err(Unread::Refused { k, reason }) => LiveEnd {
            status: refuse(alloc, k, reason, sink),
            journal: None,
        },
        Err(Unread::ReadFault) => LiveEnd {
            status: Status::ReadFault,
            journal: None,
        },
        Err(Unread::NoMemory) => LiveEnd {
            status: Status::NoMemory,
            journal: None,
        },
    }
}

/// Runs the program with the word live: it reads the whole capture, has three threads offer its datagrams, its ticks and
/// its pulls to one receiver, and writes the transcript of the order in which the receiver took them.
///
/// A line that is bad gives the error line alone. It waits for its threads, so nothing says that it returns.
pub fn run_live<R: Threads + Wait + Sync, S: Source, K: Sink, G: Gate + Sync>(
    rt: &R,
    alloc: Global,
    words: &[String],
    source: &mut S,
    sink: &mut K,
    gate: &G,
) -> LiveEnd
    // The words: any others than the one word live are bad usage, and then nothing is read or written.
    ensures usage { (result.status ≡ Status.BadUsage) ↔ (¬ IsLive (map string_bytes words.now)) }
    ensures untouched { result.status ≡ Status.BadUsage →
        (source.new ≡ source.old) × (sink.new ≡ sink.old) × (result.journal ≡ None) }

    // The status, the journal and the text: the journal is an interleaving of the capture's datagrams, ticks and pulls,
    // and the sink took the transcript of its order, or the error line alone if a line is refused.
    ensures outcome { IsLive (map string_bytes words.now) → IfSome (S.left source.old) (λ capture.
        LiveEnds result.status result.journal capture (K.taken sink.old) (K.taken sink.new) (S.left source.new)) }

    // Both counts of faults are as they were, but for the one that the status names, which rose.
    ensures counted { IsCounted result.status (S.faults source.old) (S.faults source.new) (K.faults sink.old) (K.faults sink.new) }
    ensures read_later { S.faults source.old ≤ S.faults source.new }
    ensures write_later { K.faults sink.old ≤ K.faults sink.new }

    // With the right word and no fault, the run ends as the capture says, unless memory runs out.
    ensures complete { IsLive (map string_bytes words.now) →
        ¬ Rose (S.faults source.old) (S.faults source.new) → ¬ Rose (K.faults sink.old) (K.faults sink.new) →
        IfSome (S.left source.old) (λ capture. (result.status ≡ live_status capture) ⊎ (result.status ≡ Status.NoMemory)) }

    // The honest call: if an honest network took the datagrams, in the order of the journal, from one honest sender, what
    // run says of an honest call holds of the lines in this order.
    ensures honest { IsLive (map string_bytes words.now) → IfSome (S.left source.old) (λ capture.
        HonestLive result.status result.journal capture (K.taken sink.old) (K.taken sink.new)) }
{
    // A law: what the machine answers in an honest call is the sender's, in order and after its references.
    honest_call();
    if !is_alone(words, "live") {
        return LiveEnd {
            status: Status::BadUsage,
            journal: None,
        };
    }
    drive_live(rt, alloc, source, sink, gate)
}
