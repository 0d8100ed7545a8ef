//! The frames of a drill, before they are sent.

ghost use Rattle.std.specs.Prelude.{◌≡◌, ◌+◌, ◌<◌, ◌≤◌, length, IfOk};
ghost use Rattle.vrx_sender.specs.Frames.{is_key as is_key_of, octet as octet_of, octets as octets_of, part_count as part_count_of, packet_count as packet_count_of, place as place_of_frame, references as references_of, rests_on_base as rests_on_base_of, sent_frame as sent_frame_of, size_by as size_by_word, tid as tid_of, timestamp as timestamp_of};

use crate::sender::SentFrame;
use std::alloc::Global;
use vrx_codec::Place;
use vrx_core::FrameBytes;
use vrx_num::{NoMemory, Numbers};

/// Every so many frames one is a keyframe.
const KEY_EVERY: u32 = 300;

/// The picture of the first frame: soon they go on from 32,767 to 0.
const FIRST_PICTURE: u64 = 32_000;

/// The TL0PICIDX of the first frame: soon they go on from 255 to 0.
const FIRST_INDEX: u32 = 250;

/// From one frame to the next the timestamp rises by so much.
const TICKS: u32 = 3_000;

/// A part has at most so many octets of its frame.
pub(crate) const PART: usize = 1_000;

/// A frame has at most so many parts.
pub(crate) const MOST_PARTS: usize = 12;

/// A frame has at most so many packets: its parts, and the FEC packet.
pub(crate) const MOST_PACKETS: usize = MOST_PARTS + 1;

/// Whether frame `f` is a keyframe.
fn is_key(f: u32) -> bool
    ensures { result ≡ is_key_of f }
{
    f % KEY_EVERY == 0
}

/// The TID of frame `f`.
fn tid(f: u32) -> u8
    ensures { result ≡ tid_of f }
{
    match f % 4 {
        0 => 0,
        2 => 1,
        _ => 2,
    }
}

/// Whether frame `f` rests on its base only.
fn rests_on_base(f: u32) -> bool
    ensures { result ≡ rests_on_base_of f }
{
    f % 4 == 1 || f % 4 == 2
}

/// The place of frame `f` among temporal layers.
pub(crate) fn place_of(f: u32) -> Place
    requires { f < 10000 }
    ensures { result ≡ place_of_frame f }
{
    Place {
        picture: FIRST_PICTURE + u64::from(f),
        tl0: ((FIRST_INDEX + f / 4) % 256) as u8,
        tid: tid(f),
        sync: rests_on_base(f),
    }
}

/// The timestamp of frame `f`.
pub(crate) fn timestamp(f: u32) -> u32
    ensures { result ≡ timestamp_of f }
{
    f.wrapping_mul(TICKS)
}

/// How many octets frame `f` has, by the word that it draws.
pub(crate) fn size_by(f: u32, word: u32) -> u32
    ensures value { result ≡ size_by_word f word }
    ensures at_least { 0 < result }
    ensures at_most { result < 12000 }
{
    if is_key(f) {
        8_000 + word % 4_000
    } else {
        200 + word % 3_000
    }
}

/// Octet `j` of frame `f`.
fn octet(f: u32, j: u32) -> u8
    requires { (f < 10000) × (j < 12000) }
    ensures { result ≡ octet_of f j }
{
    match j {
        0 => { if is_key(f) { 0 } else { 1 } }
        _ => ((31 * f + 7 * j) % 256) as u8,
    }
}

/// The octets of frame `f`.
fn octets(alloc: Global, f: u32, size: u32) -> Result<Vec<u8>, NoMemory>
    requires { (f < 10000) × (size ≤ 12000) }
    ensures octets { IfOk result (λ octets. octets.items ≡ octets_of f size) }
    ensures size { IfOk result (λ octets. length octets.items ≡ size) }
{
    let mut octets = Vec::with_capacity(alloc, size as usize)?;
    for j in 0..size {
        octets.push(octet(f, j))?;
    }
    Ok(octets)
}

/// The frames that the decoder of frame `f` needs.
fn references(alloc: Global, f: u32) -> Result<Numbers, NoMemory>
    ensures { IfOk result (λ numbers. numbers ≡ references_of f) }
{
    let mut numbers = Numbers::new(alloc);
    if is_key(f) {
        return Ok(numbers);
    }
    let f = u64::from(f);
    match f % 4 {
        0 => numbers.push(f - 4)?,
        3 => {
            numbers.push(f - 3)?;
            numbers.push(f - 2)?;
            numbers.push(f - 1)?;
        }
        back => numbers.push(f - back)?,
    }
    Ok(numbers)
}

/// Frame `f`, of so many octets.
pub(crate) fn sent_frame(alloc: Global, f: u32, size: u32) -> Result<SentFrame, NoMemory>
    requires { (f < 10000) × (size ≤ 12000) }
    ensures frame { IfOk result (λ frame. frame ≡ sent_frame_of f size) }
    ensures size { IfOk result (λ frame. length frame.bytes ≡ size) }
{
    Ok(SentFrame {
        bytes: FrameBytes::from_vec(octets(alloc, f, size)?),
        key: is_key(f),
        ts: timestamp(f),
        layers: Some(place_of(f)),
        references: references(alloc, f)?,
    })
}

/// Into how many parts a frame of so many octets is cut.
pub(crate) fn part_count(size: usize) -> usize
    requires { size ≤ 12000 }
    ensures { result ≡ part_count_of size }
{
    (size + (PART - 1)) / PART
}

/// How many packets a frame of so many octets has.
pub(crate) fn packet_count(size: usize) -> usize
    requires { size ≤ 12000 }
    ensures count { result ≡ packet_count_of size }
    ensures few { result ≤ 13 }
{
    part_count(size) + 1
}
