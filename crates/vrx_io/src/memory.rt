//! A source and a sink in memory, which fail at chosen calls.

ghost use Rattle.std.specs.Prelude.{◌≡◌, ◌<◌, ◌≤◌, ◌↔◌, [], Some, Ok, length, vec_capacity, take, drop, min, ◌++◌, IsOk, IsErr, IfOk, OnErr};
ghost use Rattle.vrx_io.specs.Faults.{next_count};
ghost use Rattle.vrx_io.specs.Memory.{SourceState, fresh_source, ReadFails, read_len, after_read, after_failed_read};
ghost use Rattle.vrx_io.specs.Memory.{SinkState, fresh_sink, WriteFails, write_len, after_write, after_failed_write};

use crate::failed::{Failed, count_up};
use crate::sink::Sink;
use crate::source::Source;
use std::alloc::Global;
use std::marker::Model;
use vrx_num::NoMemory;

/// A source over bytes in memory. A read gives a few bytes at most, and chosen reads fail.
#[derive(Drop)]
pub struct MemSource {
    bytes: Vec<u8>,
    at: usize,
    calls: u64,
    faults: u64,
    fails: Vec<u64>,
    most: usize,
}

impl Model for MemSource {
    ghost Value = { SourceState };

    ghost view = { λ s. record {
      bytes = drop s.at s.bytes.items;
      calls = s.calls;
      faults = s.faults;
      fails = s.fails.items;
      most = s.most;
    } };

    ghost invariant = { λ s. (s.at ≤ length s.bytes.items) × (1 ≤ s.most) };
}

impl MemSource {
    /// A source of these bytes, at most `most` of them a read. The reads whose numbers, counted
    /// from 1, are in `fails` fail, and give nothing.
    pub fn new(bytes: Vec<u8>, fails: Vec<u64>, most: usize) -> MemSource
        requires some { 1 ≤ most }
        ensures fresh { result ≡ fresh_source bytes.items fails.items most }
    {
        MemSource {
            bytes,
            at: 0,
            calls: 0,
            faults: 0,
            fails,
            most,
        }
    }
}

impl Source for MemSource {
    ghost left = { λ s. Some s.bytes };

    ghost faults = { λ s. s.faults };

    ghost is_read = { λ old octets new. new.calls ≡ next_count old.calls };

    fn read(&mut self, buf: &mut [u8]) -> Result<usize, Failed>
        ensures fails { IsErr result ↔ ReadFails self.old }
        ensures ok { IfOk result (λ n. n ≡ read_len self.old (length buf.old)) }
        ensures given { IfOk result (λ n. buf.new ≡ take n self.old.bytes ++ drop n buf.old) }
        ensures after { IfOk result (λ n. self.new ≡ after_read self.old n) }
        ensures err { OnErr result (self.new ≡ after_failed_read self.old) }
        ensures untouched { OnErr result (buf.new ≡ buf.old) }

        // What the state by itself doesn't say: a read may give one byte, and counts stay in 64 bits.
        ensures end { result ≡ Ok 0 → 0 < length buf.old → self.old.bytes ≡ [] }
        ensures later { self.old.faults ≤ self.new.faults }
    {
        self.calls = count_up(self.calls);
        if self.fails.contains(&self.calls) {
            self.faults = count_up(self.faults);
            return Err(Failed);
        }
        let n = copy_front(self.bytes.split_at(self.at).1, buf, self.most);
        self.at += n;
        Ok(n)
    }
}

/// Copies the front of `from` to the front of `buf`, `most` bytes at most, and says how many.
pub(crate) fn copy_front(from: &[u8], buf: &mut [u8], most: usize) -> usize
    ensures count { result ≡ min most (min (length buf.old) (length from.now)) }
    ensures copied { buf.new ≡ take result from.now ++ drop result buf.old }
{
    let n = most.min(buf.len().min(from.len()));
    buf[..n].copy_from_slice(&from[..n]);
    n
}

/// A sink in memory with room for so many bytes. A write takes a few bytes at most, and chosen
/// writes fail, as does each write of a byte when the room is used up.
#[derive(Drop)]
pub struct MemSink {
    bytes: Vec<u8>,
    room: usize,
    calls: u64,
    faults: u64,
    fails: Vec<u64>,
    most: usize,
}

impl Model for MemSink {
    ghost Value = { SinkState };

    ghost view = { λ s. record {
      bytes = s.bytes.items;
      room = s.room;
      calls = s.calls;
      faults = s.faults;
      fails = s.fails.items;
      most = s.most;
    } };

    ghost invariant = { λ s.
        (length s.bytes.items ≤ s.room) × (s.room ≤ vec_capacity s.bytes) × (1 ≤ s.most) };
}

impl MemSink {
    /// A sink that took nothing yet, and takes its memory now. The writes whose numbers, counted
    /// from 1, are in `fails` fail.
    pub fn new(
        alloc: Global,
        room: usize,
        fails: Vec<u64>,
        most: usize,
    ) -> Result<MemSink, NoMemory>
        requires some { 1 ≤ most }
        ensures fresh { IfOk result (λ s. s ≡ fresh_sink room fails.items most) }

        // A sink with no room takes no memory. With room it may run out.
        ensures made { room ≡ 0 → IsOk result }
    {
        let bytes = Vec::with_capacity(alloc, room)?;
        Ok(MemSink {
            bytes,
            room,
            calls: 0,
            faults: 0,
            fails,
            most,
        })
    }

    /// The bytes that it has taken.
    pub fn written(&self) -> &[u8]
        ensures value { result.now ≡ self.now.bytes }
    {
        self.bytes.as_slice()
    }
}

impl Sink for MemSink {
    ghost taken = { λ s. Some s.bytes };

    ghost faults = { λ s. s.faults };

    fn write(&mut self, piece: &[u8]) -> Result<usize, Failed>
        ensures fails { IsErr result ↔ WriteFails self.old piece.now }
        ensures ok { IfOk result (λ n. n ≡ write_len self.old (length piece.now)) }
        ensures after { IfOk result (λ n. self.new ≡ after_write self.old (take n piece.now)) }
        ensures err { OnErr result (self.new ≡ after_failed_write self.old) }

        // What the state by itself doesn't say: a write may take one byte, and counts stay in 64 bits.
        ensures some { 0 < length piece.now → IfOk result (λ n. 0 < n) }
        ensures later { self.old.faults ≤ self.new.faults }
    {
        self.calls = count_up(self.calls);
        let left = self.room - self.bytes.len();
        if self.fails.contains(&self.calls) || (!piece.is_empty() && left == 0) {
            self.faults = count_up(self.faults);
            return Err(Failed);
        }
        let n = self.most.min(piece.len().min(left));
        self.bytes.extend_from_slice(&piece[..n]).unwrap();
        Ok(n)
    }
}
