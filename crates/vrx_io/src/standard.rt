//! Sources and sinks over readers and writers, such as those of std.

ghost use Rattle.std.specs.Prelude.{◌≡◌, ◌<◌, ◌≤◌, None, length, IfOk};
ghost use Rattle.std.specs.Io.{ReadsAtMost, WritesAtMost};
ghost use Rattle.std.specs.Io.KnownBytes.{ReadConsumes, WriteAppends};
ghost use Rattle.vrx_io.specs.Faults.{faults_after};
ghost use Rattle.vrx_io.specs.Standard.{Counted, ReadCall, WriteCall, ReadsOnce, WritesOnce, IsCountedRead};

use crate::failed::{Failed, count_up};
use crate::sink::Sink;
use crate::source::Source;
use std::io;
use std::io::{Read, Write};
use std::marker::Model;

/// What is read by calls that a contract can count. Each reader of std is so.
pub trait ReadOnce {
    /// What one call does. Only a call shows it. So a caller over any of these shows by it each call that it makes.
    ghost is_call: { ReadCall Self };

    /// Reads some bytes into the front of `buf`, and says how many: at most as many as `buf` has room for. Its errors
    /// are those of std's `Read::read`.
    fn read_once(&mut self, buf: &mut [u8]) -> io::Result<usize>
        ensures bound { ReadsAtMost result buf.new }
        ensures once { is_call self.old buf.old result buf.new self.new };
}

impl<R: Read> ReadOnce for R {
    // What is read are the reader's next bytes, if the reader says which they are.
    ghost is_call = { λ old _ answer buf new.
        ReadConsumes (R.remaining old) (R.remaining new) answer buf };

    // A reader of std may itself read again after an error. So no clause over all of them can refuse a second call.
    fn read_once(&mut self, buf: &mut [u8]) -> io::Result<usize> {
        self.read(buf)
    }
}

/// A source over a reader, such as those of std. A read of it is one call of the reader. As a source it doesn't tell
/// the bytes that are left. Each error of the reader is a fault, an interrupted read too.
#[derive(Drop)]
pub struct StdSource<R> {
    reader: R,
    faults: u64,
}

impl<R> Model for StdSource<R> {
    ghost Value = { Counted R };

    ghost view = { λ s. record { device = s.reader; faults = s.faults } };
}

impl<R: ReadOnce> StdSource<R> {
    /// A source that reads from this reader.
    pub fn new(reader: R) -> StdSource<R>
        ensures fresh { result ≡ record { device = reader; faults = 0 } }
    {
        StdSource { reader, faults: 0 }
    }
}

impl<R: ReadOnce> Source for StdSource<R> {
    ghost left = { λ _. None };

    ghost faults = { λ s. s.faults };

    ghost is_read = { IsCountedRead R.is_call };

    fn read(&mut self, buf: &mut [u8]) -> Result<usize, Failed>
        // The reader is called once, and what it answers is handed on.
        ensures once { ReadsOnce R.is_call self.old.device buf.old result buf.new self.new.device }
        ensures counted { self.new.faults ≡ faults_after self.old.faults result }
        ensures count { IfOk result (λ n. n ≤ length buf.old) }
        ensures later { self.old.faults ≤ self.new.faults }
    {
        match self.reader.read_once(buf) {
            Ok(n) => Ok(n),
            Err(_) => {
                self.faults = count_up(self.faults);
                Err(Failed)
            }
        }
    }
}

/// What is written by calls that a contract can count. Each writer of std is so.
pub trait WriteOnce {
    /// What one call does. Only a call shows it. So a caller over any of these shows by it each call that it makes.
    ghost is_call: { WriteCall Self };

    /// Takes some bytes from the front of `piece`, and says how many: at most all. Its errors are those of std's
    /// `Write::write`.
    fn write_once(&mut self, piece: &[u8]) -> io::Result<usize>
        ensures bound { WritesAtMost result piece.now }
        ensures once { is_call self.old piece.now result self.new };
}

impl<W: Write> WriteOnce for W {
    // What is written goes to the end of what the writer holds, if the writer says that.
    ghost is_call = { λ old piece answer new.
        WriteAppends (W.contents old) (W.contents new) answer piece };

    // A writer of std may itself write again after an error. So no clause over all of them can refuse a second call.
    fn write_once(&mut self, piece: &[u8]) -> io::Result<usize> {
        self.write(piece)
    }
}

/// A sink over a writer, such as those of std. A write to it is one call of the writer. As a sink it doesn't tell the
/// bytes taken. Each error of the writer is a fault, as is a write that takes no byte if there is one. It flushes
/// nothing.
#[derive(Drop)]
pub struct StdSink<W> {
    writer: W,
    faults: u64,
}

impl<W> Model for StdSink<W> {
    ghost Value = { Counted W };

    ghost view = { λ s. record { device = s.writer; faults = s.faults } };
}

impl<W: WriteOnce> StdSink<W> {
    /// A sink that writes to this writer.
    pub fn new(writer: W) -> StdSink<W>
        ensures fresh { result ≡ record { device = writer; faults = 0 } }
    {
        StdSink { writer, faults: 0 }
    }
}

impl<W: WriteOnce> Sink for StdSink<W> {
    ghost taken = { λ _. None };

    ghost faults = { λ s. s.faults };

    fn write(&mut self, piece: &[u8]) -> Result<usize, Failed>
        // The writer is called once, and what it answers is handed on.
        ensures once { WritesOnce W.is_call self.old.device piece.now result self.new.device }
        ensures counted { self.new.faults ≡ faults_after self.old.faults result }
        ensures some { 0 < length piece.now → IfOk result (λ n. 0 < n) }
        ensures count { IfOk result (λ n. n ≤ length piece.now) }
        ensures later { self.old.faults ≤ self.new.faults }
    {
        match self.writer.write_once(piece) {
            Ok(n) if n > 0 || piece.is_empty() => Ok(n),
            _ => {
                self.faults = count_up(self.faults);
                Err(Failed)
            }
        }
    }
}
