//! Has a call played by three threads, and writes the texts.

ghost use Rattle.std.specs.Prelude.{◌≡◌, ◌≢◌, ◌≤◌, ℕ, None, flat_map, length};
ghost use Rattle.vrx_core.specs.machine.SettingsFault.{fault_of};
ghost use Rattle.vrx_lock.specs.declared.limits.TheConstants.{MOST_ENTRIES};
ghost use Rattle.vrx_program.specs.Counts.{IsCounted};
ghost use Rattle.vrx_program.specs.LiveReading.{IsPlayed, IsPut, total_of};
ghost use Rattle.vrx_program.specs.Replay.{meaning_of};

use crate::live::LiveEnd;
use crate::live::told::Told;
use crate::status::Status;
use std::alloc::Global;
use std::sync::Wait;
use std::thread::Threads;
use vrx_codec::Codec;
use vrx_core::Settings;
use vrx_h264::H264;
use vrx_io::{Sink, put};
use vrx_live::{Gate, Lists, Printed, run_workers};
use vrx_lock::Receiver;
use vrx_text::CodecName;
use vrx_vp8::Vp8;

/// Writes the texts in the order of their places, each as one piece.
fn write_all<K: Sink>(printed: &Printed, sink: &mut K) -> Status
    ensures put { IsPut result (flat_map (λ text. text.1) printed.now) (K.taken sink.old) (K.taken sink.new) }
    ensures counted { (reads : ℕ) → IsCounted result reads reads (K.faults sink.old) (K.faults sink.new) }
    ensures later { K.faults sink.old ≤ K.faults sink.new }
{
    for place in 0..printed.len() {
        match put(sink, printed.text(place)) {
            Ok(()) => {}
            Err(_) => return Status::WriteFault,
        }
    }
    Status::Done
}

/// The room for so many events, which isn't 0.
fn room_for(lists: &Lists) -> u32
    requires few { total_of lists.now ≤ MOST_ENTRIES }
    ensures room { (total_of lists.now ≤ result) × (result ≤ MOST_ENTRIES) }
{
    let count = lists.datagrams.as_slice().len()
        + lists.ticks.as_slice().len()
        + lists.pulls.as_slice().len();
    (count as u32).max(1)
}

/// Plays lists to a receiver of this codec.
fn play_with<R: Threads + Wait + Sync, C: Codec + Send + Sync, K: Sink, G: Gate + Sync>(
    rt: &R,
    alloc: Global,
    settings: Settings,
    lists: Lists,
    sink: &mut K,
    gate: &G,
) -> LiveEnd
    requires right { fault_of settings ≡ None }
    requires few { total_of lists ≤ MOST_ENTRIES }
    ensures played { IsPlayed settings C.meaning lists result.status result.journal (K.taken sink.old) (K.taken sink.new) }
    ensures counted { (reads : ℕ) → IsCounted result.status reads reads (K.faults sink.old) (K.faults sink.new) }
    ensures later { K.faults sink.old ≤ K.faults sink.new }
{
    let none = LiveEnd {
        status: Status::NoMemory,
        journal: None,
    };
    let Ok((receiver, mut seat)) = Receiver::<C>::new(alloc, settings, room_for(&lists)) else {
        return none;
    };
    match run_workers(rt, alloc, &receiver, &mut seat, lists, gate) {
        Ok(printed) => {
            let journal = receiver.close(seat);
            let status = write_all(&printed, sink);
            LiveEnd {
                status,
                journal: Some(journal),
            }
        }
        Err(_) => none,
    }
}

/// Plays a call to a receiver of its codec.
pub(crate) fn play<R: Threads + Wait + Sync, K: Sink, G: Gate + Sync>(
    rt: &R,
    alloc: Global,
    told: Told,
    sink: &mut K,
    gate: &G,
) -> LiveEnd
    requires right { fault_of told.settings ≡ None }
    requires few { total_of told.lists ≤ MOST_ENTRIES }
    ensures played { IsPlayed told.settings (meaning_of told.codec) told.lists result.status result.journal (K.taken sink.old) (K.taken sink.new) }
    ensures counted { (reads : ℕ) → IsCounted result.status reads reads (K.faults sink.old) (K.faults sink.new) }
    ensures later { K.faults sink.old ≤ K.faults sink.new }
{
    let Told {
        codec,
        settings,
        lists,
    } = told;
    match codec {
        CodecName::Vp8 => play_with::<R, Vp8, K, G>(rt, alloc, settings, lists, sink, gate),
        CodecName::H264 => play_with::<R, H264, K, G>(rt, alloc, settings, lists, sink, gate),
    }
}
