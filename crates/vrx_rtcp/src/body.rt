//! What a packet says, from its count, its type and its content.

ghost use Rattle.std.specs.Prelude.{◌≡◌, ◌+◌, ◌*◌, ◌<◌, ◌≤◌, length, take, drop};
ghost use Rattle.vrx_rtcp.specs.Packet.{SenderFields};
ghost use Rattle.vrx_rtcp.specs.Fault.{least};
ghost use Rattle.vrx_rtcp.specs.Field.{message_of, u32_at as u32_there, u64_at as u64_there};
ghost use Rattle.vrx_rtcp.specs.View.{view, sender_fields};

use crate::field::{u32_at, u64_at};
use crate::packet::{Body, Bye, Nack, Pli, ReceiverReport, SenderReport};
use crate::types::{BYE, FMT_NACK, FMT_PLI, PSFB, RR, RTPFB, SR};
use vrx_num::slices::{from, upto};

/// The sender report with `count` blocks.
fn sender_report(count: usize, content: &[u8]) -> SenderReport<'_>
    requires room { 24 + 24 * count ≤ length content.now }
    ensures ssrc { result.ssrc ≡ u32_there content.now 0 }
    ensures ntp { result.ntp ≡ u64_there content.now 4 }
    ensures rtp_time { result.rtp_time ≡ u32_there content.now 12 }
    ensures packets { result.packets ≡ u32_there content.now 16 }
    ensures octets { result.octets ≡ u32_there content.now 20 }
    ensures blocks { result.blocks.now ≡ take (24 * count) (drop 24 content.now) }
{
    SenderReport {
        ssrc: u32_at(content, 0),
        ntp: u64_at(content, 4),
        rtp_time: u32_at(content, 12),
        packets: u32_at(content, 16),
        octets: u32_at(content, 20),
        blocks: upto(from(content, 24), 24 * count),
    }
}

/// The receiver report with `count` blocks.
fn receiver_report(count: usize, content: &[u8]) -> ReceiverReport<'_>
    requires room { 4 + 24 * count ≤ length content.now }
    ensures ssrc { result.ssrc ≡ u32_there content.now 0 }
    ensures blocks { result.blocks.now ≡ take (24 * count) (drop 4 content.now) }
{
    ReceiverReport {
        ssrc: u32_at(content, 0),
        blocks: upto(from(content, 4), 24 * count),
    }
}

/// The goodbye of `count` sources.
fn bye(count: usize, content: &[u8]) -> Bye<'_>
    requires room { 4 * count ≤ length content.now }
    ensures { result.sources.now ≡ take (4 * count) content.now }
{
    Bye {
        sources: upto(content, 4 * count),
    }
}

/// The generic NACK.
fn nack(content: &[u8]) -> Nack<'_>
    requires room { 8 ≤ length content.now }
    ensures sender { result.sender ≡ u32_there content.now 0 }
    ensures media { result.media ≡ u32_there content.now 4 }
    ensures items { result.items.now ≡ drop 8 content.now }
{
    Nack {
        sender: u32_at(content, 0),
        media: u32_at(content, 4),
        items: from(content, 8),
    }
}

/// The picture loss indication.
fn pli(content: &[u8]) -> Pli
    requires room { 8 ≤ length content.now }
    ensures sender { result.sender ≡ u32_there content.now 0 }
    ensures media { result.media ≡ u32_there content.now 4 }
{
    Pli {
        sender: u32_at(content, 0),
        media: u32_at(content, 4),
    }
}

/// What a packet with this count or format, this type and this content says.
#[tactic(auto, unfolding(crate::specs::Field::message_of))]
pub(crate) fn body_of(count: u8, kind: u8, content: &[u8]) -> Body<'_>
    requires count { count < 32 }
    requires room { least kind count ≤ length content.now + 4 }
    ensures { view result ≡ message_of count kind content.now }
{
    let number = usize::from(count);
    match (kind, count) {
        (SR, _) => Body::Sender(sender_report(number, content)),
        (RR, _) => Body::Report(receiver_report(number, content)),
        (BYE, _) => Body::Bye(bye(number, content)),
        (RTPFB, FMT_NACK) => Body::Nack(nack(content)),
        (PSFB, FMT_PLI) => Body::Pli(pli(content)),
        _ => Body::Other { kind },
    }
}
