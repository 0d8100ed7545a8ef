//! What is drawn for a frame.

ghost use Rattle.std.specs.Prelude.{◌≡◌, ◌+◌, ◌<◌, ◌≤◌, length};
ghost use Rattle.vrx_sender.specs.Draws.{drawn, fate, fate_of_lost, fates};
ghost use Rattle.vrx_sender.specs.Frames.{packet_count as packet_count_of};
ghost use Rattle.vrx_sender.specs.View.{view_drawn};

use crate::frames::{MOST_PACKETS, packet_count, size_by};
use arrayvec::ArrayVec;
use rand_core::utils::NextWord;
use rand_pcg::Lcg64Xsh32;

/// What becomes of a packet.
#[derive(Clone, Copy, Debug, Default, PartialEq, Eq)]
pub(crate) enum Fate {
    /// It comes, in order.
    #[default]
    InTime,
    /// It comes after those of its frame that are in time.
    Late,
    /// It is lost.
    Lost,
    /// It is lost, and sent again.
    SentAgain,
}

/// What is drawn for a frame.
#[derive(Drop)]
pub(crate) struct Drawn {
    /// How many octets it has.
    pub size: u32,
    /// The fates of its packets, in order.
    pub fates: ArrayVec<Fate, MOST_PACKETS>,
}

/// One in so many lost packets isn't sent again.
const LOST_FOR_GOOD: u32 = 16;

/// One in so many packets is lost, and one is late.
const LOST: u32 = 20;

/// Whether a lost packet is sent again, by its second word.
fn fate_of_lost(word: u32) -> Fate
    ensures { result ≡ fate_of_lost word }
{
    if word % LOST_FOR_GOOD == 0 {
        Fate::Lost
    } else {
        Fate::SentAgain
    }
}

/// Draws the fate of a packet.
fn draw_fate(draws: &mut Lcg64Xsh32) -> Fate
    ensures { (result, draws.new) ≡ fate draws.old }
{
    match draws.next_word() % LOST {
        0 => fate_of_lost(draws.next_word()),
        1 => Fate::Late,
        _ => Fate::InTime,
    }
}

/// Draws the fates of so many packets.
fn draw_fates(draws: &mut Lcg64Xsh32, count: usize) -> ArrayVec<Fate, MOST_PACKETS>
    requires few { count ≤ 13 }
    ensures fates { (result.items, draws.new) ≡ fates count draws.old }
    ensures count { length result.items ≡ count }
{
    let mut fates = ArrayVec::new();
    while fates.len() < count {
        fates.push(draw_fate(draws));
    }
    fates
}

/// Draws the size of frame `f`, and then the fates of its packets.
pub(crate) fn draw_frame(draws: &mut Lcg64Xsh32, f: u32) -> Drawn
    ensures drawn { (view_drawn result, draws.new) ≡ drawn f draws.old }
    ensures count { length result.fates.items ≡ packet_count_of result.size }
    ensures size { (0 < result.size) × (result.size < 12000) }
{
    let size = size_by(f, draws.next_word());
    Drawn {
        size,
        fates: draw_fates(draws, packet_count(size as usize)),
    }
}
