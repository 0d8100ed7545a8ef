//! A capture, line by line.

ghost use Rattle.std.specs.Prelude.{is_some, ◌≡◌, ◌≢◌, ℕ, ◌+◌, ◌<◌, ◌≤◌, ◌⊎◌, true, false, Ok, Err, Some, None, length, take, IfOk, IfSome, OnOk, OnErr, MatchResult};
ghost use Rattle.std.specs.Option.{option_map};
ghost use Rattle.vrx_io.specs.Faults.{Rose};
ghost use Rattle.vrx_io.specs.Reads.{ReadsSo};
ghost use Rattle.vrx_capture.specs.Line.{feed_place, line_at, longest_line, most_lines, IsOpenLine};
ghost use Rattle.vrx_capture.specs.Holding.{ReadsOn};
ghost use Rattle.vrx_capture.specs.Found.{IsFound};
ghost use Rattle.vrx_capture.specs.Step.{IsWithin};

use crate::buffer::{Buffer, Found};
use crate::line::{LineKind, LineReason, MOST_LINES, read_line};
use std::alloc::Global;
use std::marker::Model;
use thiserror::Error;
use vrx_core::Event;
use vrx_io::{Failed, Source};
use vrx_num::NoMemory;

/// What a capture says next.
#[derive(Debug, Drop)]
pub enum Line {
    /// That this event happened: line `k`, from 1.
    Event { k: u32, event: Event },
    /// Nothing: the capture is at its end.
    End,
}

/// Why no line was given.
#[derive(Clone, Copy, Debug, PartialEq, Eq, Error)]
pub enum LineFault {
    /// Line `k` holds what a capture may not hold, for this reason. Each later call answers the same.
    #[error("line {k} is bad")]
    Bad { k: u32, reason: LineReason },
    /// A read failed. The next call goes on with the same line.
    #[error("a read failed")]
    ReadFault,
    /// No memory was to be had. The next call goes on with the same line.
    #[error("out of memory")]
    NoMemory,
}

/// Why the next line was not given as it stands. The next call goes on with the same line.
#[derive(Clone, Copy, Debug, PartialEq, Eq, Error)]
pub enum HeadFault {
    /// A read failed.
    #[error("a read failed")]
    ReadFault,
    /// No memory was to be had.
    #[error("out of memory")]
    NoMemory,
}

/// What line `k` says, after this many event lines of at most `max`.
fn kind_at(alloc: Global, max: u32, k: u32, events: u32, line: &[u8]) -> Result<LineKind, NoMemory>
    ensures kind { IfOk result (λ kind. kind ≡ line_at max k events line.now) }
    ensures within { IfOk result (IsWithin max k events) }
{
    read_line(alloc, max, k, events, line)
}

/// The octets in memory of their own.
fn copy_of(alloc: Global, octets: &[u8]) -> Result<Vec<u8>, NoMemory>
    ensures { IfOk result (λ copy. copy.items ≡ octets.now) }
{
    Ok(octets.to_vec(alloc)?)
}

/// A reader of a capture: it gives the head line as it stands, and then event after event.
///
/// It takes the memory for a fixed number of octets once, reads only while it holds no whole line that says
/// something, and never again once its source was at its end.
#[derive(Drop)]
pub struct Lines {
    alloc: Global,
    held: Buffer,
    given: u32,
    events: u32,
    max: u32,
    bad: Option<(u32, LineReason)>,
}

impl Model for Lines {
    ghost use Rattle.std.specs.Prelude.{◌≤◌};
    ghost use Rattle.vrx_capture.specs.Reader.{Reader};

    ghost Value = { Reader };

    ghost view = { λ a. record { kept = a.held.kept; ended = a.held.ended; given = a.given; events = a.events; max = a.max; bad = a.bad } };

    ghost invariant = { λ a. (a.given ≤ 2097152) × (a.events ≤ a.max) };
}

impl Lines {
    ghost use Rattle.vrx_capture.specs.Reader.{opening, Passes, IsNext, IsHead, IsHeadFault, HasNoFeed, SayNothing};
    ghost use Rattle.vrx_capture.specs.Step.{IsTaken, IsStep, KeepsCounts, holding_of, long_reason, after_passing};

    /// A reader that has given nothing yet, and gives `max_events` events at most.
    pub fn new(alloc: Global, max_events: u32) -> Result<Lines, NoMemory>
        ensures fresh { IfOk result (λ lines. lines ≡ opening max_events) }
    {
        Ok(Lines {
            alloc,
            held: Buffer::new(alloc)?,
            given: 0,
            events: 0,
            max: max_events,
            bad: None,
        })
    }

    /// What stands at the front of what is held and what the source has left.
    fn find<S: Source>(&mut self, source: &mut S) -> Result<Found, Failed>
        ensures found { IfOk result (IsFound self.new.kept self.new.ended) }
        ensures reads { (reads : ReadsOn (holding_of self.old) (holding_of self.new) (S.left source.old) (S.left source.new)) ×
            ReadsSo S.is_read IsOpenLine self.old.kept source.old source.new reads.read }
        ensures counts { KeepsCounts self.old self.new }
        ensures idle { self.old.ended ≡ true → source.new ≡ source.old }
        ensures failed { OnErr result (HasNoFeed self.new.kept × (self.new.ended ≡ false) ×
            (length self.new.kept ≤ longest_line)) }
        ensures tells { is_some (S.left source.new) ≡ is_some (S.left source.old) }
        ensures later { S.faults source.old ≤ S.faults source.new }
        ensures cause { OnErr result (Rose (S.faults source.old) (S.faults source.new)) }
        ensures uncounted { OnOk result (S.faults source.new ≡ S.faults source.old) }
    {
        self.held.find(source)
    }

    /// What the next line says, which is the first octets held.
    fn kind(&self, len: usize) -> Result<LineKind, NoMemory>
        requires { len ≤ length self.now.kept }
        ensures kind { IfOk result (λ kind.
            kind ≡ line_at self.now.max (self.now.given + 1) self.now.events (take len self.now.kept)) }
        ensures within { IfOk result (IsWithin self.now.max (self.now.given + 1) self.now.events) }
    {
        kind_at(
            self.alloc,
            self.max,
            self.given + 1,
            self.events,
            self.held.front(len),
        )
    }

    /// Passes over the next line, which is so many event lines.
    fn pass(&mut self, len: usize, count: u32)
        requires within { len ≤ length self.old.kept }
        requires given { self.old.given + 1 ≤ most_lines }
        requires events { self.old.events + count ≤ self.old.max }
        ensures { self.new ≡ after_passing self.old len count }
    {
        self.held.pass_line(len);
        self.given += 1;
        self.events += count;
    }

    /// Says that the next line is bad, for this reason.
    fn refuse(&mut self, reason: LineReason) -> LineFault
        ensures bad { self.new ≡ record self.old { bad = Some (self.old.given + 1, reason) } }
        ensures fault { result ≡ LineFault.Bad (self.old.given + 1) reason }
    {
        let k = self.given + 1;
        self.bad = Some((k, reason));
        LineFault::Bad { k, reason }
    }

    /// Says that the next line is too long, if it isn't one too many.
    fn refuse_long(&mut self) -> LineFault
        ensures bad { self.new ≡ record self.old { bad = Some (self.old.given + 1, long_reason (self.old.given + 1)) } }
        ensures fault { result ≡ LineFault.Bad (self.old.given + 1) (long_reason (self.old.given + 1)) }
    {
        if self.given >= MOST_LINES {
            self.refuse(LineReason::Lines)
        } else {
            self.refuse(LineReason::Long)
        }
    }

    /// Takes the next line, which is the first octets held.
    fn take(&mut self, len: usize) -> Result<Option<Line>, LineFault>
        requires { len ≤ length self.old.kept }
        ensures taken { IsTaken self.old (line_at self.old.max (self.old.given + 1) self.old.events (take len self.old.kept)) len self.new result }
        ensures passed { result ≡ Ok None →
            (self.new.given ≡ self.old.given + 1) × (self.old.given + 1 ≤ most_lines) }
        ensures no_fault { result ≢ Err LineFault.ReadFault }
    {
        let k = self.given + 1;
        match self.kind(len) {
            Err(_) => Err(LineFault::NoMemory),
            Ok(LineKind::Blank) => {
                self.pass(len, 0);
                Ok(None)
            }
            Ok(LineKind::Happens(event)) => {
                self.pass(len, 1);
                Ok(Some(Line::Event { k, event }))
            }
            Ok(LineKind::Wrong(reason)) => Err(self.refuse(reason)),
        }
    }

    /// Takes the next line, if none was bad.
    fn take_next<S: Source>(&mut self, source: &mut S) -> Result<Option<Line>, LineFault>
        requires { self.old.bad ≡ None }
        ensures step { IsStep (ReadsSo S.is_read IsOpenLine self.old.kept source.old source.new)
            self.old self.new (S.left source.old) (S.left source.new) result }
        ensures idle { self.old.ended ≡ true → source.new ≡ source.old }
        ensures passed { result ≡ Ok None →
            (self.new.given ≡ self.old.given + 1) × (self.old.given + 1 ≤ most_lines) }
        ensures later { S.faults source.old ≤ S.faults source.new }
        ensures cause { result ≡ Err LineFault.ReadFault →
            Rose (S.faults source.old) (S.faults source.new) }
        ensures uncounted { result ≢ Err LineFault.ReadFault →
            S.faults source.new ≡ S.faults source.old }
    {
        match self.find(source) {
            Err(_) => Err(LineFault::ReadFault),
            Ok(Found::End) => Ok(Some(Line::End)),
            Ok(Found::TooLong) => Err(self.refuse_long()),
            Ok(Found::Line { len }) => self.take(len),
        }
    }

    /// The next event, or that there is none, if no line was bad.
    fn next_on<S: Source>(&mut self, source: &mut S) -> Result<Line, LineFault>
        requires { self.old.bad ≡ None }
        ensures next { (passes : Passes self.old self.new (S.left source.old) (S.left source.new)) ×
            IsNext self.old self.new passes.read passes.gone result ×
            ReadsSo S.is_read (SayNothing self.old) self.old.kept source.old source.new passes.read }
        ensures idle { self.old.ended ≡ true → source.new ≡ source.old }
        ensures later { S.faults source.old ≤ S.faults source.new }
        ensures cause { result ≡ Err LineFault.ReadFault →
            Rose (S.faults source.old) (S.faults source.new) }
        ensures uncounted { result ≢ Err LineFault.ReadFault →
            S.faults source.new ≡ S.faults source.old }
    {
        'lines: loop {
            match self.take_next(source) {
                Ok(Some(line)) => return Ok(line),
                Ok(None) => {}
                Err(fault) => return Err(fault),
            }
        }
    }

    /// The next event, or that there is none. Empty lines and comments are passed over.
    ///
    /// After `ReadFault` and `NoMemory` what was read is kept, and the next call goes on with the same line; `Bad`
    /// stays for good.
    pub fn next<S: Source>(&mut self, source: &mut S) -> Result<Line, LineFault>
        ensures next { (passes : Passes self.old self.new (S.left source.old) (S.left source.new)) ×
            IsNext self.old self.new passes.read passes.gone result ×
            ReadsSo S.is_read (SayNothing self.old) self.old.kept source.old source.new passes.read }
        ensures idle { self.old.ended ≡ true → source.new ≡ source.old }
        ensures tells { is_some (S.left source.new) ≡ is_some (S.left source.old) }
        ensures later { S.faults source.old ≤ S.faults source.new }
        ensures cause { result ≡ Err LineFault.ReadFault →
            Rose (S.faults source.old) (S.faults source.new) }
        ensures uncounted { result ≢ Err LineFault.ReadFault →
            S.faults source.new ≡ S.faults source.old }
        ensures stays { IfSome self.old.bad (λ bad. (result ≡ Err (LineFault.Bad bad.0 bad.1)) ×
            (self.new ≡ self.old) × (source.new ≡ source.old)) }
    {
        match self.bad {
            Some((k, reason)) => Err(LineFault::Bad { k, reason }),
            None => self.next_on(source),
        }
    }

    /// Gives the next line as it stands, which is the first octets held.
    fn take_head(&mut self, len: usize) -> Result<Vec<u8>, NoMemory>
        requires within { len ≤ length self.old.kept }
        requires given { self.old.given + 1 ≤ most_lines }
        ensures line { IfOk result (λ line. line.items ≡ take len self.old.kept) }
        ensures passed { OnOk result (self.new ≡ after_passing self.old len 0) }
        ensures err { OnErr result (self.new ≡ self.old) }
    {
        let line = copy_of(self.alloc, self.held.front(len))?;
        self.pass(len, 0);
        Ok(line)
    }

    /// The next line as it stands, without its line feed: the settings line is read so. `None` if no line is left,
    /// if it has more than 20,000 octets, or if 2,097,152 lines were given before; that line is the next still.
    ///
    /// After an error what was read is kept, and the next call goes on with the same line.
    pub fn head<S: Source>(&mut self, source: &mut S) -> Result<Option<Vec<u8>>, HeadFault>
        ensures passes { (passes : Passes self.old self.new (S.left source.old) (S.left source.new)) ×
            MatchResult result
            (λ head. IsHead self.old self.new passes.read passes.gone (option_map (λ line. line.items) head))
            (λ fault. IsHeadFault self.new passes.gone fault) ×
            ReadsSo S.is_read IsOpenLine self.old.kept source.old source.new passes.read }
        ensures counts { (self.new.events ≡ self.old.events) × (self.new.bad ≡ self.old.bad) }
        ensures idle { self.old.ended ≡ true → source.new ≡ source.old }
        ensures tells { is_some (S.left source.new) ≡ is_some (S.left source.old) }
        ensures later { S.faults source.old ≤ S.faults source.new }
        ensures cause { result ≡ Err HeadFault.ReadFault →
            Rose (S.faults source.old) (S.faults source.new) }
        ensures uncounted { result ≢ Err HeadFault.ReadFault →
            S.faults source.new ≡ S.faults source.old }
    {
        if self.given >= MOST_LINES {
            return Ok(None);
        }
        match self.find(source) {
            Err(_) => Err(HeadFault::ReadFault),
            Ok(Found::End) => Ok(None),
            Ok(Found::TooLong) => Ok(None),
            Ok(Found::Line { len }) => match self.take_head(len) {
                Ok(line) => Ok(Some(line)),
                Err(_) => Err(HeadFault::NoMemory),
            },
        }
    }
}
