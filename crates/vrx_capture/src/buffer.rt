//! The octets that were read and not passed over yet.

ghost use Rattle.std.specs.Prelude.{◌≡◌, ℕ, ◌+◌, ◌<◌, ◌≤◌, ◌⊎◌, true, false, List, [], Ok, ◌++◌, length, take, drop, IfOk, IfSome, IsNone, OnOk, OnErr, vec_len};
ghost use Rattle.vrx_capture.specs.Line.{feed_place, longest_line, IsOpenLine};
ghost use Rattle.vrx_io.specs.Faults.{Rose};
ghost use Rattle.vrx_io.specs.Reads.{octets_read, ReadsSo};
ghost use Rattle.vrx_io.specs.Source.{IsSpent};
ghost use Rattle.vrx_capture.specs.Ahead.{ahead};
ghost use Rattle.vrx_capture.specs.Found.{IsFound};
ghost use Rattle.vrx_capture.specs.Holding.{ReadsOn};

use crate::line::LONGEST_LINE;
use memchr::memchr;
use std::alloc::Global;
use std::marker::Model;
use vrx_io::{Failed, Source};
use vrx_num::NoMemory;
use vrx_num::slices::{from, upto};

/// How many octets are held at most: more than the longest line, so that a read has room after it.
const ROOM: usize = 32_768;

const LINE_FEED: u8 = b'\n';

/// What stands at the front of the octets held.
pub(crate) enum Found {
    /// A line of `len` octets, with its line feed after it if it isn't the last of its source.
    Line { len: usize },
    /// A line that is too long to be taken.
    TooLong,
    /// Nothing, and nothing more comes.
    End,
}

/// The place of the first line feed, or the length if there is none, of octets of which the first `clear` are
/// none.
#[tactic(auto, using(crate::proofs::PlaceLemmas::found_behind))]
fn line_feed_from(octets: &[u8], clear: usize) -> usize
    requires { clear ≤ feed_place octets.now }
    ensures { result ≡ feed_place octets.now }
{
    match memchr(LINE_FEED, from(octets, clear)) {
        Some(place) => clear + place,
        None => octets.len(),
    }
}

/// Moves some octets to the front.
fn move_to_front(buffer: &mut Vec<u8>, start: usize, len: usize)
    requires { start + len ≤ vec_len buffer.old }
    ensures kept { take len buffer.new.items ≡ take len (drop start buffer.old.items) }
    ensures len { vec_len buffer.new ≡ vec_len buffer.old }
{
    buffer.copy_within(start..start + len, 0);
}

/// Makes room after some octets, which begin at a place, and says where they begin then.
fn make_room(buffer: &mut Vec<u8>, start: usize, len: usize) -> usize
    requires within { start + len ≤ vec_len buffer.old }
    requires room { len < vec_len buffer.old }
    ensures kept { take len (drop result buffer.new.items) ≡ take len (drop start buffer.old.items) }
    ensures len { vec_len buffer.new ≡ vec_len buffer.old }
    ensures room { result + len < vec_len buffer.old }
{
    if start + len < buffer.len() {
        return start;
    }
    move_to_front(buffer, start, len);
    0
}

/// Reads into the buffer from a place on, and says how many octets came.
fn read_from<S: Source>(source: &mut S, buffer: &mut [u8], at: usize) -> Result<usize, Failed>
    requires { at < length buffer.old }
    ensures count { IfOk result (λ n. at + n ≤ length buffer.old) }
    ensures front { take at buffer.new ≡ take at buffer.old }
    ensures one { S.is_read source.old (octets_read result (drop at buffer.new)) source.new }
    ensures next { IfOk result (λ n.
        S.left source.old ≡ ahead (take n (drop at buffer.new)) (S.left source.new)) }
    ensures end { result ≡ Ok 0 → IsSpent (S.left source.new) }
    ensures failed { OnErr result (S.left source.new ≡ S.left source.old) }
    ensures later { S.faults source.old ≤ S.faults source.new }
    ensures uncounted { OnOk result (S.faults source.new ≡ S.faults source.old) }
    ensures cause { OnErr result (Rose (S.faults source.old) (S.faults source.new)) }
{
    source.read(&mut buffer[at..])
}

/// The same into a vector.
fn read_behind<S: Source>(source: &mut S, buffer: &mut Vec<u8>, at: usize) -> Result<usize, Failed>
    requires { at < vec_len buffer.old }
    ensures len { vec_len buffer.new ≡ vec_len buffer.old }
    ensures count { IfOk result (λ n. at + n ≤ vec_len buffer.old) }
    ensures front { take at buffer.new.items ≡ take at buffer.old.items }
    ensures one { S.is_read source.old (octets_read result (drop at buffer.new.items)) source.new }
    ensures next { IfOk result (λ n.
        S.left source.old ≡ ahead (take n (drop at buffer.new.items)) (S.left source.new)) }
    ensures end { result ≡ Ok 0 → IsSpent (S.left source.new) }
    ensures failed { OnErr result (S.left source.new ≡ S.left source.old) }
    ensures later { S.faults source.old ≤ S.faults source.new }
    ensures uncounted { OnOk result (S.faults source.new ≡ S.faults source.old) }
    ensures cause { OnErr result (Rose (S.faults source.old) (S.faults source.new)) }
{
    read_from(source, buffer.as_mut_slice(), at)
}

/// Reads after the octets held, which are `len` from `start` on.
#[tactic(auto, using(crate::proofs::HeldLemmas::grown, crate::proofs::HeldLemmas::same_held, crate::proofs::HeldLemmas::feed_grown))]
fn read_held<S: Source>(
    source: &mut S,
    buffer: &mut Vec<u8>,
    start: usize,
    len: usize,
) -> Result<usize, Failed>
    requires { start + len < vec_len buffer.old }
    ensures len { vec_len buffer.new ≡ vec_len buffer.old }
    ensures count { IfOk result (λ n. start + len + n ≤ vec_len buffer.old) }
    ensures same { take len (drop start buffer.new.items) ≡ take len (drop start buffer.old.items) }
    ensures one { S.is_read source.old (octets_read result (drop (start + len) buffer.new.items)) source.new }
    ensures grown { IfOk result (λ n. take (len + n) (drop start buffer.new.items) ≡
        take len (drop start buffer.old.items) ++ take n (drop (start + len) buffer.new.items)) }
    ensures clear { IfOk result (λ n. feed_place (take len (drop start buffer.old.items)) ≤
        feed_place (take (len + n) (drop start buffer.new.items))) }
    ensures next { IfOk result (λ n.
        S.left source.old ≡ ahead (take n (drop (start + len) buffer.new.items)) (S.left source.new)) }
    ensures end { result ≡ Ok 0 → IsSpent (S.left source.new) }
    ensures failed { OnErr result (S.left source.new ≡ S.left source.old) }
    ensures later { S.faults source.old ≤ S.faults source.new }
    ensures uncounted { OnOk result (S.faults source.new ≡ S.faults source.old) }
    ensures cause { OnErr result (Rose (S.faults source.old) (S.faults source.new)) }
{
    read_behind(source, buffer, start + len)
}

/// The octets that were read and not passed over yet, in a buffer of fixed size, and whether their source was read to
/// its end. At the end of the buffer they move to its front, so that an octet moves at most once. It is searched for
/// a line feed once.
#[derive(Drop)]
pub(crate) struct Buffer {
    buffer: Vec<u8>,
    /// Where the octets held begin, and how many there are.
    start: usize,
    len: usize,
    /// How many of them are known to be no line feed.
    clear: usize,
    ended: bool,
}

impl Model for Buffer {
    ghost use Rattle.std.specs.Prelude.{◌≡◌, ◌+◌, ◌≤◌, length, take, drop};
    ghost use Rattle.vrx_capture.specs.Line.{feed_place};
    ghost use Rattle.vrx_capture.specs.Holding.{Holding};

    ghost Value = { Holding };

    ghost view = { λ h. record { kept = take h.len (drop h.start h.buffer.items); ended = h.ended } };

    ghost invariant = { λ h. (length h.buffer.items ≡ 32768) × (h.start + h.len ≤ 32768) × (h.clear ≤ feed_place (take h.len (drop h.start h.buffer.items))) };
}

impl Buffer {
    /// Nothing is held yet. The memory for all that will be held is taken now.
    pub(crate) fn new(alloc: Global) -> Result<Buffer, NoMemory>
        ensures { IfOk result (λ held. held ≡ record { kept = []; ended = false }) }
    {
        Ok(Buffer {
            buffer: vec![in alloc; 0u8; ROOM]?,
            start: 0,
            len: 0,
            clear: 0,
            ended: false,
        })
    }

    /// The first octets.
    #[tactic(auto, using(crate::proofs::HeldLemmas::length_held))]
    pub(crate) fn front(&self, len: usize) -> &[u8]
        requires { len ≤ length self.now.kept }
        ensures { result.now ≡ take len self.now.kept }
    {
        let held = upto(from(self.buffer.as_slice(), self.start), self.len);
        upto(held, len)
    }

    /// Passes over the first octets.
    #[tactic(auto, using(crate::proofs::HeldLemmas::length_held, crate::proofs::HeldLemmas::passed))]
    fn pass(&mut self, count: usize)
        requires { count ≤ length self.old.kept }
        ensures { self.new ≡ record self.old { kept = drop count self.old.kept } }
    {
        self.start += count;
        self.len -= count;
        self.clear = 0;
    }

    /// Passes over a line of so many octets, and over the line feed after it if there is one.
    #[tactic(auto, using(crate::proofs::HeldLemmas::length_held, crate::proofs::HeldLemmas::drop_beyond))]
    pub(crate) fn pass_line(&mut self, len: usize)
        requires { len ≤ length self.old.kept }
        ensures { self.new ≡ record self.old { kept = drop (len + 1) self.old.kept } }
    {
        if len < self.len() {
            self.pass(len + 1);
        } else {
            self.pass(len);
        }
    }

    /// The place of the first line feed, or the number of octets held if there is none.
    #[tactic(auto, using(crate::proofs::HeldLemmas::length_held))]
    fn line_feed(&mut self) -> usize
        ensures place { result ≡ feed_place self.old.kept }
        ensures same { self.new ≡ self.old }
    {
        let held = upto(from(self.buffer.as_slice(), self.start), self.len);
        let place = line_feed_from(held, self.clear);
        self.clear = place;
        place
    }

    /// Reads once after the octets held, or finds that their source is at its end. After `Failed` the same are held.
    #[tactic(auto, using(crate::proofs::HeldLemmas::length_held, crate::proofs::HeldLemmas::same_held, crate::proofs::HeldLemmas::feed_le_append))]
    fn more<S: Source>(&mut self, source: &mut S) -> Result<(), Failed>
        requires short { length self.old.kept ≤ longest_line }
        requires going { self.old.ended ≡ false }
        ensures reads { OnOk result (ReadsOn self.old self.new (S.left source.old) (S.left source.new)) }
        ensures one { (octets : List ℕ) × S.is_read source.old octets source.new ×
            (self.new.kept ≡ self.old.kept ++ octets) }
        ensures grows { OnOk result ((self.new.ended ≡ true) ⊎ (length self.old.kept < length self.new.kept)) }
        ensures failed { OnErr result
            ((self.new ≡ self.old) × (S.left source.new ≡ S.left source.old)) }
        ensures later { S.faults source.old ≤ S.faults source.new }
        ensures uncounted { OnOk result (S.faults source.new ≡ S.faults source.old) }
        ensures cause { OnErr result (Rose (S.faults source.old) (S.faults source.new)) }
    {
        self.start = make_room(&mut self.buffer, self.start, self.len);
        let n = read_held(source, &mut self.buffer, self.start, self.len)?;
        self.len += n;
        self.ended = n == 0;
        Ok(())
    }

    /// How many octets are held.
    #[tactic(auto, using(crate::proofs::HeldLemmas::length_held))]
    fn len(&self) -> usize
        ensures { result ≡ length self.now.kept }
    {
        self.len
    }

    /// What stands at the front, if no line feed is held and nothing more comes.
    #[tactic(auto, using(crate::proofs::HeldLemmas::length_held))]
    fn last(&self) -> Found
        requires no_feed { feed_place self.now.kept ≡ length self.now.kept }
        requires short { length self.now.kept ≤ longest_line }
        requires end { self.now.ended ≡ true }
        ensures { IsFound self.now.kept self.now.ended result }
    {
        let len = self.len();
        if len == 0 {
            return Found::End;
        }
        Found::Line { len }
    }

    /// What stands at the front, if that is known. If not, more has to be read.
    #[tactic(auto, using(crate::proofs::PlaceLemmas::place_within))]
    fn found_here(&mut self) -> Option<Found>
        ensures same { self.new ≡ self.old }
        ensures found { IfSome result (IsFound self.old.kept self.old.ended) }
        ensures no_feed { IsNone result → feed_place self.old.kept ≡ length self.old.kept }
        ensures short { IsNone result → length self.old.kept ≤ longest_line }
        ensures going { IsNone result → self.old.ended ≡ false }
    {
        let len = self.line_feed();
        if len > LONGEST_LINE {
            return Some(Found::TooLong);
        }
        if len < self.len() {
            return Some(Found::Line { len });
        }
        if self.ended { Some(self.last()) } else { None }
    }

    /// What stands at the front: it reads on until that is known, and only if no whole line is held. After
    /// `Failed` what was read before is held.
    pub(crate) fn find<S: Source>(&mut self, source: &mut S) -> Result<Found, Failed>
        ensures found { IfOk result (IsFound self.new.kept self.new.ended) }
        ensures reads { (reads : ReadsOn self.old self.new (S.left source.old) (S.left source.new)) ×
            ReadsSo S.is_read IsOpenLine self.old.kept source.old source.new reads.read }
        ensures idle { self.old.ended ≡ true → source.new ≡ source.old }
        ensures failed { OnErr result ((feed_place self.new.kept ≡ length self.new.kept) ×
            (self.new.ended ≡ false) × (length self.new.kept ≤ longest_line)) }
        ensures later { S.faults source.old ≤ S.faults source.new }
        ensures uncounted { OnOk result (S.faults source.new ≡ S.faults source.old) }
        ensures cause { OnErr result (Rose (S.faults source.old) (S.faults source.new)) }
    {
        'reads: loop {
            match self.found_here() {
                Some(found) => return Ok(found),
                None => self.more(source)?,
            }
        }
    }
}
