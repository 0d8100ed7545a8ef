//! Runs a word over a capture: it reads the lines, has the events answered and writes the texts.

ghost use Rattle.std.specs.Prelude.{◌≡◌, ◌≢◌, ◌+◌, ◌≤◌, ℕ, List, [], Option, Some, None, IfNone, IfOk, IfErr, MatchOption, MatchResult};
ghost use Rattle.vrx_core.specs.declared.event.Event.{Event};
ghost use Rattle.vrx_capture.specs.Reader.{opening};
ghost use Rattle.vrx_text.specs.Transcript.{error_line};
ghost use Rattle.vrx_program.specs.Counts.{IsCounted};
ghost use Rattle.vrx_program.specs.Ends.{EndsBadly};
ghost use Rattle.vrx_program.specs.Job.{most_events};
ghost use Rattle.vrx_program.specs.Runs.{IsRunning, IsOver, IsAnswered};

use crate::job::{Job, Unanswered};
use crate::status::Status;
use std::alloc::Global;
use vrx_core::{Event, MOST_EVENTS};
use vrx_io::{Sink, Source, put};
use vrx_num::NoMemory;
use vrx_text::{ErrorReason, HeadFault, Line, LineFault, Lines, lines_join, text_of_error};

/// Ends a run at a line that is refused: the error line is written as one piece.
pub(crate) fn refuse<K: Sink>(alloc: Global, k: u32, reason: ErrorReason, sink: &mut K) -> Status
    ensures ends { EndsBadly result (error_line k reason) (K.taken sink.old) (K.taken sink.new) }
    ensures status { result ≢ Status.BadUsage }
    ensures counted { (reads : ℕ) → IsCounted result reads reads (K.faults sink.old) (K.faults sink.new) }
    ensures later { K.faults sink.old ≤ K.faults sink.new }
{
    let Ok(text) = text_of_error(alloc, k, reason) else {
        return Status::NoMemory;
    };
    match put(sink, text.as_slice()) {
        Ok(()) => Status::BadCapture,
        Err(_) => Status::WriteFault,
    }
}

/// How many octets the buffer of texts keeps room for from one event to the next. The memory of a longer text is given
/// back before the next event is answered.
const KEPT_MEMORY: usize = 65_536;

/// Empties the buffer of texts.
fn empty(text: &mut Vec<u8>)
    ensures { text.new.items ≡ [] }
{
    text.clear();
    text.shrink_to(KEPT_MEMORY);
}

/// Has the event of a line answered, and writes the text as one piece. The buffer holds this text only. A status ends
/// the run.
fn answer<J: Job, K: Sink>(
    job: &mut J,
    k: u32,
    event: &Event,
    text: &mut Vec<u8>,
    sink: &mut K,
) -> Option<Status>
    requires room { J.count job.old + 1 ≤ most_events }
    ensures answers { (h : List Event) → J.answered job.old h →
        IsAnswered (J.answering job.old) (J.answered job.new) h k event.now result (K.taken sink.old) (K.taken sink.new) }
    ensures same { J.answering job.new ≡ J.answering job.old }
    ensures on { IfNone result (J.count job.new ≡ J.count job.old + 1) }
    ensures status { result ≢ Some Status.BadUsage }
    ensures uncounted { IfNone result (K.faults sink.new ≡ K.faults sink.old) }
    ensures counted { (status : Status) → result ≡ Some status →
        (reads : ℕ) → IsCounted status reads reads (K.faults sink.old) (K.faults sink.new) }
    ensures later { K.faults sink.old ≤ K.faults sink.new }
{
    empty(text);
    match job.answer(k, event, text) {
        Ok(()) => match put(sink, text.as_slice()) {
            Ok(()) => None,
            Err(_) => Some(Status::WriteFault),
        },
        Err(NoMemory) => Some(Status::NoMemory),
    }
}

/// Takes the next event of a capture, has it answered and writes the text. A status ends the run.
fn take_event<J: Job, S: Source, K: Sink>(
    alloc: Global,
    job: &mut J,
    lines: &mut Lines,
    text: &mut Vec<u8>,
    source: &mut S,
    sink: &mut K,
) -> Option<Status>
    requires room { lines.old.max ≡ most_events }
    requires count { J.count job.old ≡ lines.old.events }
    ensures runs { (start : S) (before : Option (List ℕ)) →
        IsRunning J.outcome (J.answering job.old) (J.answered job.old) S.is_read S.left start source.old before (K.taken sink.old) lines.old →
        MatchOption result
        (IsRunning J.outcome (J.answering job.new) (J.answered job.new) S.is_read S.left start source.new before (K.taken sink.new) lines.new)
        (λ status. IsOver J.outcome S.is_read S.left start source.new before (K.taken sink.new) status) }
    ensures on { IfNone result ((J.count job.new ≡ lines.new.events) ×
        (lines.new.events ≡ lines.old.events + 1) × (lines.new.events ≤ most_events)) }
    ensures room { lines.new.max ≡ lines.old.max }
    ensures status { result ≢ Some Status.BadUsage }
    ensures uncounted { IfNone result ((S.faults source.new ≡ S.faults source.old) ×
        (K.faults sink.new ≡ K.faults sink.old)) }
    ensures counted { (status : Status) → result ≡ Some status →
        IsCounted status (S.faults source.old) (S.faults source.new) (K.faults sink.old) (K.faults sink.new) }
    ensures read_later { S.faults source.old ≤ S.faults source.new }
    ensures write_later { K.faults sink.old ≤ K.faults sink.new }
{
    // A law: the lines of whole lines and of what stands after them join, and so does what they give.
    lines_join();
    match lines.next(source) {
        Ok(Line::Event { k, event }) => answer(job, k, &event, text, sink),
        Ok(Line::End) => Some(Status::Done),
        Err(LineFault::Bad { k, reason }) => {
            Some(refuse(alloc, k, ErrorReason::Line(reason), sink))
        }
        Err(LineFault::ReadFault) => Some(Status::ReadFault),
        Err(LineFault::NoMemory) => Some(Status::NoMemory),
    }
}

/// Begins a run by the first line of a capture. A status ends it.
fn begin<J: Job, S: Source, K: Sink>(
    alloc: Global,
    lines: &mut Lines,
    source: &mut S,
    sink: &mut K,
) -> Result<J, Status>
    requires fresh { lines.old ≡ opening most_events }
    ensures runs { MatchResult result
        (λ job. IsRunning J.outcome (J.answering job) (J.answered job) S.is_read S.left source.old source.new (K.taken sink.old) (K.taken sink.new) lines.new)
        (λ status. IsOver J.outcome S.is_read S.left source.old source.new (K.taken sink.old) (K.taken sink.new) status) }
    ensures on { IfOk result (λ job. (J.count job ≡ 0) × (lines.new.events ≡ 0)) }
    ensures room { lines.new.max ≡ most_events }
    ensures status { IfErr result (λ status. status ≢ Status.BadUsage) }
    ensures uncounted { IfOk result (λ _. (S.faults source.new ≡ S.faults source.old) ×
        (K.faults sink.new ≡ K.faults sink.old)) }
    ensures counted { IfErr result (λ status.
        IsCounted status (S.faults source.old) (S.faults source.new) (K.faults sink.old) (K.faults sink.new)) }
    ensures read_later { S.faults source.old ≤ S.faults source.new }
    ensures write_later { K.faults sink.old ≤ K.faults sink.new }
{
    // A law: the lines of whole lines and of what stands after them join, and so does what they give.
    lines_join();
    // A law: a capture without a first line that may be taken is refused.
    J::refuses_heads();
    let line = match lines.head(source) {
        Ok(Some(line)) => line,
        Ok(None) => return Err(refuse(alloc, 1, ErrorReason::Settings, sink)),
        Err(HeadFault::ReadFault) => return Err(Status::ReadFault),
        Err(HeadFault::NoMemory) => return Err(Status::NoMemory),
    };
    match J::begin(alloc, line.as_slice()) {
        Ok(job) => Ok(job),
        Err(Unanswered::Refused(reason)) => Err(refuse(alloc, 1, reason, sink)),
        Err(Unanswered::NoMemory) => Err(Status::NoMemory),
    }
}

/// Runs a word over a capture.
pub(crate) fn drive<J: Job, S: Source, K: Sink>(
    alloc: Global,
    source: &mut S,
    sink: &mut K,
) -> Status
    ensures over { IsOver J.outcome S.is_read S.left source.old source.new (K.taken sink.old) (K.taken sink.new) result }
    ensures status { result ≢ Status.BadUsage }
    ensures counted { IsCounted result (S.faults source.old) (S.faults source.new) (K.faults sink.old) (K.faults sink.new) }
    ensures read_later { S.faults source.old ≤ S.faults source.new }
    ensures write_later { K.faults sink.old ≤ K.faults sink.new }
{
    let Ok(mut lines) = Lines::new(alloc, MOST_EVENTS) else {
        return Status::NoMemory;
    };
    let mut job = match begin::<J, S, K>(alloc, &mut lines, source, sink) {
        Ok(job) => job,
        Err(status) => return status,
    };
    let mut text = Vec::new(alloc);
    'events: loop {
        if let Some(status) = take_event(alloc, &mut job, &mut lines, &mut text, source, sink) {
            return status;
        }
    }
}
