//! Reads a whole capture.

ghost use Rattle.std.specs.Prelude.{◌≡◌, ◌+◌, ◌≤◌, ℕ, true, false, List, [], Option, Ok, None, IfOk, IfErr, IfSome, OnOk, MatchResult, length};
ghost use Rattle.vrx_core.specs.declared.event.Event.{Event};
ghost use Rattle.vrx_core.specs.machine.SettingsFault.{fault_of as fault_of_settings};
ghost use Rattle.vrx_capture.specs.Line.{longest_line};
ghost use Rattle.vrx_capture.specs.Reader.{opening};
ghost use Rattle.vrx_lock.specs.declared.limits.TheConstants.{MOST_ENTRIES};
ghost use Rattle.vrx_program.specs.HasRead.{HasRead};
ghost use Rattle.vrx_program.specs.Live.{dealt, with_line};
ghost use Rattle.vrx_program.specs.LiveReading.{AfterEvent, IsDealing, IsDealt, IsHeadStopped, IsRefusedSettings, IsStopped, IsTold, IsUnread, IsUnreadCounted, total_of};
ghost use Rattle.vrx_program.specs.Replay.{settings_of};

use crate::inspect::fault_of;
use std::alloc::Global;
use vrx_core::{Event, NewFault, Settings};
use vrx_io::Source;
use vrx_live::{LineEvents, Lists};
use vrx_lock::limits::MOST_ENTRIES;
use vrx_num::NoMemory;
use vrx_text::{
    CodecName, ErrorReason, HeadFault, Line, LineFault, Lines, lines_join, read_settings,
};

/// A call that was read whole.
#[derive(Drop)]
pub struct Told {
    /// Its codec.
    pub codec: CodecName,
    /// Its settings, which have no fault.
    pub settings: Settings,
    /// Its events, dealt to the three actors.
    pub lists: Lists,
}

/// Why a call wasn't read whole.
#[derive(Clone, Copy, Debug, PartialEq, Eq)]
pub enum Unread {
    /// Line `k` is refused, for this reason.
    Refused { k: u32, reason: ErrorReason },
    /// A read failed.
    ReadFault,
    /// No memory was to be had.
    NoMemory,
}

/// Why settings with this fault aren't taken.
fn unread_of(fault: NewFault) -> Unread
    ensures { IsRefusedSettings fault result }
{
    match fault {
        NewFault::NoMemory => Unread::NoMemory,
        _ => Unread::Refused {
            k: 1,
            reason: ErrorReason::Settings,
        },
    }
}

/// The codec and the settings of the first line.
fn read_first(alloc: Global, line: &[u8]) -> Result<(CodecName, Settings), Unread>
    requires short { length line.now ≤ longest_line }
    ensures told { IfOk result (λ told. settings_of line.now ≡ Ok told) }
    ensures fault { IfOk result (λ told. fault_of_settings told.1 ≡ None) }
    ensures refused { IfErr result (λ why. IsHeadStopped (settings_of line.now) why) }
{
    let Some((codec, settings)) = read_settings(line) else {
        return Err(Unread::Refused {
            k: 1,
            reason: ErrorReason::Settings,
        });
    };
    match fault_of(alloc, settings) {
        None => Ok((codec, settings)),
        Some(fault) => Err(unread_of(fault)),
    }
}

/// The codec and the settings of a capture's first line.
fn read_head<S: Source>(
    alloc: Global,
    lines: &mut Lines,
    source: &mut S,
) -> Result<(CodecName, Settings), Unread>
    requires fresh { lines.old ≡ opening MOST_ENTRIES }
    ensures told { IfOk result (λ told. (first : List ℕ) × (settings_of first ≡ Ok told) ×
        HasRead MOST_ENTRIES (S.left source.old) first lines.new (S.left source.new) []) }
    ensures fault { IfOk result (λ told. fault_of_settings told.1 ≡ None) }
    ensures unread { IfErr result (λ why. IfSome (S.left source.old) (λ capture. IsUnread capture why)) }
    ensures on { IfOk result (λ told. (lines.new.events ≡ 0) × (lines.new.max ≡ MOST_ENTRIES)) }
    ensures later { S.faults source.old ≤ S.faults source.new }
    ensures uncounted { IfOk result (λ told. S.faults source.new ≡ S.faults source.old) }
    ensures counted { IfErr result (λ why. IsUnreadCounted why (S.faults source.old) (S.faults source.new)) }
{
    // A law: the lines of whole lines and of what stands after them join, and so does what they give.
    lines_join();
    match lines.head(source) {
        Ok(Some(line)) => read_first(alloc, line.as_slice()),
        Ok(None) => Err(Unread::Refused {
            k: 1,
            reason: ErrorReason::Settings,
        }),
        Err(HeadFault::ReadFault) => Err(Unread::ReadFault),
        Err(HeadFault::NoMemory) => Err(Unread::NoMemory),
    }
}

/// Deals the event of line `k` to its actor.
fn deal(lists: &mut Lists, k: u32, event: Event) -> Result<(), NoMemory>
    ensures dealt { (lines : List (ℕ × Event)) → lists.old ≡ dealt lines → OnOk result (lists.new ≡ dealt (with_line lines k event)) }
    ensures total { OnOk result (total_of lists.new ≡ total_of lists.old + 1) }
{
    match &event {
        Event::Datagram { .. } => lists.datagrams.push(k, event),
        Event::Tick { .. } => lists.ticks.push(k, event),
        Event::Pull { .. } => lists.pulls.push(k, event),
    }
}

/// Reads the next event, and deals it. Whether there was one comes back.
fn read_event<S: Source>(
    lines: &mut Lines,
    source: &mut S,
    lists: &mut Lists,
) -> Result<bool, Unread>
    requires room { lines.old.max ≡ MOST_ENTRIES }
    ensures reads { (start : Option (List ℕ)) (first : List ℕ) → IsDealing start (S.left source.old) first lines.old lists.old →
        MatchResult result
        (λ more. AfterEvent more start (S.left source.new) first lines.new lists.new)
        (λ why. IsStopped start first why) }
    ensures room { lines.new.max ≡ MOST_ENTRIES }
    ensures more { result ≡ Ok true → (total_of lists.new ≡ total_of lists.old + 1) ×
        (lines.new.events ≡ lines.old.events + 1) × (lines.new.events ≤ MOST_ENTRIES) }
    ensures end { result ≡ Ok false → (total_of lists.new ≡ total_of lists.old) × (lines.new.events ≡ lines.old.events) }
    ensures later { S.faults source.old ≤ S.faults source.new }
    ensures uncounted { IfOk result (λ more. S.faults source.new ≡ S.faults source.old) }
    ensures counted { IfErr result (λ why. IsUnreadCounted why (S.faults source.old) (S.faults source.new)) }
{
    // A law: the lines of whole lines and of what stands after them join, and so does what they give.
    lines_join();
    match lines.next(source) {
        Ok(Line::Event { k, event }) => match deal(lists, k, event) {
            Ok(()) => Ok(true),
            Err(NoMemory) => Err(Unread::NoMemory),
        },
        Ok(Line::End) => Ok(false),
        Err(LineFault::Bad { k, reason }) => Err(Unread::Refused {
            k,
            reason: ErrorReason::Line(reason),
        }),
        Err(LineFault::ReadFault) => Err(Unread::ReadFault),
        Err(LineFault::NoMemory) => Err(Unread::NoMemory),
    }
}

/// Lists without an event.
fn no_events(alloc: Global) -> Lists
    ensures { result ≡ dealt [] }
{
    Lists {
        datagrams: LineEvents::new(alloc),
        ticks: LineEvents::new(alloc),
        pulls: LineEvents::new(alloc),
    }
}

/// Reads the lines after the first, to the end of the capture.
fn read_rest<S: Source>(alloc: Global, lines: &mut Lines, source: &mut S) -> Result<Lists, Unread>
    requires fresh { (lines.old.max ≡ MOST_ENTRIES) × (lines.old.events ≡ 0) }
    ensures reads { (start : Option (List ℕ)) (first : List ℕ) → IsDealing start (S.left source.old) first lines.old (dealt []) →
        MatchResult result (λ lists. IsDealt start (S.left source.new) first lists) (λ why. IsStopped start first why) }
    ensures few { IfOk result (λ lists. total_of lists ≤ MOST_ENTRIES) }
    ensures later { S.faults source.old ≤ S.faults source.new }
    ensures uncounted { IfOk result (λ lists. S.faults source.new ≡ S.faults source.old) }
    ensures counted { IfErr result (λ why. IsUnreadCounted why (S.faults source.old) (S.faults source.new)) }
{
    let mut lists = no_events(alloc);
    'events: loop {
        match read_event(lines, source, &mut lists) {
            Ok(true) => {}
            Ok(false) => return Ok(lists),
            Err(why) => return Err(why),
        }
    }
}

/// Reads a capture to its end.
pub(crate) fn read_call<S: Source>(alloc: Global, source: &mut S) -> Result<Told, Unread>
    ensures told { IfOk result (λ told. IfSome (S.left source.old) (λ capture.
        IsTold capture told.codec told.settings told.lists (S.left source.new))) }
    ensures unread { IfErr result (λ why. IfSome (S.left source.old) (λ capture. IsUnread capture why)) }
    ensures fault { IfOk result (λ told. fault_of_settings told.settings ≡ None) }
    ensures few { IfOk result (λ told. total_of told.lists ≤ MOST_ENTRIES) }
    ensures later { S.faults source.old ≤ S.faults source.new }
    ensures uncounted { IfOk result (λ told. S.faults source.new ≡ S.faults source.old) }
    ensures counted { IfErr result (λ why. IsUnreadCounted why (S.faults source.old) (S.faults source.new)) }
{
    let Ok(mut lines) = Lines::new(alloc, MOST_ENTRIES) else {
        return Err(Unread::NoMemory);
    };
    let (codec, settings) = match read_head(alloc, &mut lines, source) {
        Ok(head) => head,
        Err(why) => return Err(why),
    };
    match read_rest(alloc, &mut lines, source) {
        Ok(lists) => {
            return Ok(Told {
                codec,
                settings,
                lists,
            });
        }
        Err(why) => return Err(why),
    }
}
