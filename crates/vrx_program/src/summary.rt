//! What a drill counts of the replies to its events.

ghost use Rattle.std.specs.Prelude.{◌≡◌, ◌+◌, ◌*◌, ◌++◌, ◌^◌, ◌<◌, ◌≤◌, OnOk, IfOk, codes, if◌then◌else◌, is_some};
ghost use Rattle.std.specs.Fmt.{decimal};
ghost use Rattle.vrx_core.specs.machine.Machine.{ToDatagram, ToTick, ToPull};
ghost use Rattle.vrx_text.specs.Transcript.{line_feed};
ghost use Rattle.vrx_num.specs.declared.limits.TheConstants.{MOST_EVENTS};
ghost use Rattle.vrx_program.specs.Counting.{IsFew};
ghost use Rattle.vrx_program.specs.DrillText.{plus, summary_line, summary_text, tally, was_taken};

use itoa::Buffer;
use std::alloc::Global;
use vrx_core::{Handled, Pulled, What};
use vrx_num::NoMemory;
use vrx_rtcp::Feedback;

/// How many lines of a transcript are of each kind, and how many octets its frames have. The counts are so wide that
/// they don't overflow, whatever the frames are.
#[derive(Clone, Copy, Debug, PartialEq, Eq)]
pub(crate) struct Summary {
    /// The datagrams.
    pub datagrams: u128,
    /// The lines `media`, `fec` and `empty`.
    pub taken: u128,
    /// The lines `repaired`.
    pub repaired: u128,
    /// The lines `nack`.
    pub nacks: u128,
    /// The lines `pli`.
    pub plis: u128,
    /// The lines `frame`.
    pub frames: u128,
    /// The octets of all frames.
    pub octets: u128,
}

/// A count of nothing.
pub(crate) const NOTHING: Summary = Summary {
    datagrams: 0,
    taken: 0,
    repaired: 0,
    nacks: 0,
    plis: 0,
    frames: 0,
    octets: 0,
};

/// One, if it is so.
fn one_if(is: bool) -> u128
    ensures { result ≡ (if is then 1 else 0) }
{
    if is { 1 } else { 0 }
}

/// Whether a datagram was taken.
fn was_taken(what: What) -> bool
    ensures { result ≡ was_taken what }
{
    match what {
        What::Media(_) => true,
        What::Fec(_) => true,
        What::Empty(_) => true,
        What::Rtcp => false,
        What::Dropped(_) => false,
    }
}

/// The counts of the reply to a datagram.
pub(crate) fn tally_of_handled(handled: &Handled) -> Summary
    ensures tally { result ≡ tally (ToDatagram handled.now) }
    ensures few { IsFew 1 result }
{
    Summary {
        datagrams: 1,
        taken: one_if(was_taken(handled.what)),
        repaired: handled.repaired.as_slice().len() as u128,
        nacks: one_if(handled.feedback.nack.is_some()),
        plis: one_if(handled.feedback.pli.is_some()),
        ..NOTHING
    }
}

/// The counts of the reply to a tick.
pub(crate) fn tally_of_tick(feedback: &Feedback) -> Summary
    ensures tally { result ≡ tally (ToTick feedback.now) }
    ensures few { IsFew 1 result }
{
    Summary {
        nacks: one_if(feedback.nack.is_some()),
        plis: one_if(feedback.pli.is_some()),
        ..NOTHING
    }
}

/// The counts of the reply to a pull.
pub(crate) fn tally_of_pulled(pulled: &Pulled) -> Summary
    ensures tally { result ≡ tally (ToPull pulled.now) }
    ensures few { IsFew 1 result }
{
    match pulled {
        Pulled::NotReady => NOTHING,
        Pulled::Frame(frame) => Summary {
            frames: 1,
            octets: frame.bytes.as_slice().len() as u128,
            ..NOTHING
        },
    }
}

impl Summary {
    /// The counts of so many replies, and of one more.
    pub(crate) fn plus(self, one: Summary) -> Summary
        requires few { IsFew MOST_EVENTS self }
        requires one { IsFew 1 one }
        ensures sum { result ≡ plus self one }
    {
        Summary {
            datagrams: self.datagrams + one.datagrams,
            taken: self.taken + one.taken,
            repaired: self.repaired + one.repaired,
            nacks: self.nacks + one.nacks,
            plis: self.plis + one.plis,
            frames: self.frames + one.frames,
            octets: self.octets + one.octets,
        }
    }
}

/// Puts a word, a number and a line feed last.
fn put_line(text: &mut Vec<u8>, word: &str, n: u128) -> Result<(), NoMemory>
    ensures { OnOk result (text.new.items ≡ text.old.items ++ summary_line word.now n) }
{
    let mut buffer = Buffer::new();
    text.extend_from_slice(word.as_bytes())?;
    text.extend_from_slice(buffer.format(n).as_bytes())?;
    text.extend_from_slice(b"\n")?;
    Ok(())
}

/// The first line of a summary.
fn head_of(alloc: Global, seed: u64, frames: u32) -> Result<Vec<u8>, NoMemory>
    ensures { IfOk result (λ text. text.items ≡ codes "drill " ++ decimal seed ++ codes " " ++ decimal frames ++ line_feed) }
{
    let mut buffer = Buffer::new();
    let mut text = Vec::from_slice(alloc, b"drill ")?;
    text.extend_from_slice(buffer.format(seed).as_bytes())?;
    put_line(&mut text, " ", u128::from(frames))?;
    Ok(text)
}

/// The summary of a drill.
pub(crate) fn text_of_summary(
    alloc: Global,
    seed: u64,
    frames: u32,
    summary: &Summary,
) -> Result<Vec<u8>, NoMemory>
    ensures { IfOk result (λ text. text.items ≡ summary_text seed frames summary.now) }
{
    let mut text = head_of(alloc, seed, frames)?;
    put_line(&mut text, "datagrams ", summary.datagrams)?;
    put_line(&mut text, "taken ", summary.taken)?;
    put_line(&mut text, "repaired ", summary.repaired)?;
    put_line(&mut text, "nacks ", summary.nacks)?;
    put_line(&mut text, "plis ", summary.plis)?;
    put_line(&mut text, "frames ", summary.frames)?;
    put_line(&mut text, "octets ", summary.octets)?;
    Ok(text)
}
