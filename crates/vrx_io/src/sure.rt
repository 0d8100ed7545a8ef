//! A source and a sink that never fail.

ghost use Rattle.std.specs.Prelude.{◌≡◌, ◌≤◌, List, ℕ, Some, None, Ok, IfOk, length, take, drop, min, ◌++◌};

use crate::failed::Failed;
use crate::memory::copy_front;
use crate::sink::Sink;
use crate::source::Source;
use std::marker::Model;

/// A source over bytes in memory whose reads never fail, and fill the buffer while bytes are left.
#[derive(Drop)]
pub struct SureSource {
    bytes: Vec<u8>,
    at: usize,
}

impl Model for SureSource {
    ghost Value = { List ℕ };

    ghost view = { λ s. drop s.at s.bytes.items };

    ghost invariant = { λ s. s.at ≤ length s.bytes.items };
}

impl SureSource {
    /// A source of these bytes.
    pub fn new(bytes: Vec<u8>) -> SureSource
        ensures fresh { result ≡ bytes.items }
    {
        SureSource { bytes, at: 0 }
    }
}

impl Source for SureSource {
    ghost left = { λ s. Some s };

    ghost faults = { λ _. 0 };

    ghost is_read = { λ old octets new. old ≡ octets ++ new };

    fn read(&mut self, buf: &mut [u8]) -> Result<usize, Failed>
        ensures sure { result ≡ Ok (min (length buf.old) (length self.old)) }
        ensures given { IfOk result (λ n. buf.new ≡ take n self.old ++ drop n buf.old) }
        ensures after { IfOk result (λ n. self.new ≡ drop n self.old) }
    {
        let n = copy_front(self.bytes.split_at(self.at).1, buf, usize::MAX);
        self.at += n;
        Ok(n)
    }
}

/// A sink that takes every piece whole, keeps nothing, and so doesn't tell what it took.
#[derive(Clone, Copy, Debug, PartialEq, Eq)]
pub struct SureSink;

impl SureSink {
    /// A sink that took nothing yet. All such sinks are the same value.
    pub fn new() -> SureSink {
        SureSink
    }
}

impl Sink for SureSink {
    ghost taken = { λ _. None };

    ghost faults = { λ _. 0 };

    fn write(&mut self, piece: &[u8]) -> Result<usize, Failed>
        ensures whole { result ≡ Ok (length piece.now) }
    {
        Ok(piece.len())
    }
}
