//! What no capture of `examples` can show: reads and writes that fail or move one octet, and words and statuses. And a
//! packet that is lost. Expected values were worked out by hand.

mod faults;
mod loss;
mod usage;

use crate::{Status, run};
use std::alloc::Global;
use std::test::Fail;
use vrx_io::{MemSink, MemSource};

/// The settings line of the captures.
const HEAD: &str = "vrx 1 codec=vp8 ssrc=0000000a pt=96 from=0000000b\n";

/// These words.
fn words_of(alloc: Global, texts: &[&str]) -> Result<Vec<String>, Fail> {
    let mut words = Vec::new(alloc);
    for text in texts {
        words.push(String::from_str(alloc, *text)?)?;
    }
    Ok(words)
}

/// How a capture is read, and how its text is taken.
#[derive(Clone, Copy)]
struct Pipes {
    /// A read gives at most so many octets.
    most: usize,
    /// The read that fails, counted from 1; 0 is none.
    bad_read: u64,
    /// The sink has room for so many octets.
    room: usize,
    /// A write takes at most so many octets.
    piece: usize,
    /// The write that fails, counted from 1; 0 is none.
    bad_write: u64,
}

/// Reads and writes of many octets, of which none fails.
const SURE: Pipes = Pipes {
    most: 1_000,
    bad_read: 0,
    room: 1_000,
    piece: 1_000,
    bad_write: 0,
};

/// A source of a capture.
fn source_of(alloc: Global, capture: &[u8], pipes: Pipes) -> Result<MemSource, Fail> {
    let most = if pipes.most == 0 { 1 } else { pipes.most };
    let fails = [pipes.bad_read].to_vec(alloc)?;
    Ok(MemSource::new(capture.to_vec(alloc)?, fails, most))
}

/// A sink.
fn sink_of(alloc: Global, pipes: Pipes) -> Result<MemSink, Fail> {
    let piece = if pipes.piece == 0 { 1 } else { pipes.piece };
    let fails = [pipes.bad_write].to_vec(alloc)?;
    Ok(MemSink::new(alloc, pipes.room, fails, piece)?)
}

/// How a word over a capture ends, and what the sink took.
fn outcome(
    alloc: Global,
    word: &str,
    capture: &[u8],
    pipes: Pipes,
) -> Result<(Status, Vec<u8>), Fail> {
    let mut source = source_of(alloc, capture, pipes)?;
    let mut sink = sink_of(alloc, pipes)?;
    let words = words_of(alloc, &[word])?;
    let status = run(alloc, words.as_slice(), &mut source, &mut sink);
    Ok((status, sink.written().to_vec(alloc)?))
}
