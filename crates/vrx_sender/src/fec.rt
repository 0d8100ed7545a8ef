//! The FEC packet of a frame (RFC 5109).

ghost use Rattle.std.specs.Prelude.{◌≡◌, ◌+◌, ◌<◌, ◌≤◌, All, length, IfOk};
ghost use Rattle.vrx_num.specs.Octets.{AreOctets};
ghost use Rattle.vrx_fec.specs.Payload.{octets_of};
ghost use Rattle.vrx_sender.specs.Made.{IsShort, cleared};
ghost use Rattle.vrx_sender.specs.Packets.{longest as longest_of, mask_of as mask_of_count, parity, texts_from};

use crate::frames::MOST_PARTS;
use crate::packets::RtpPacket;
use std::alloc::Global;
use vrx_fec::{FecMaker, LevelPlan};
use vrx_num::NoMemory;

/// The mask that names so many offsets, from 0 on.
fn mask_of(count: usize) -> u64
    requires { count ≤ 16 }
    ensures { result ≡ mask_of_count count }
{
    (1 << 16) - (1 << (16 - count))
}

/// How many octets a level has that protects these packets whole: the greatest length of a payload.
fn longest(packets: &[RtpPacket]) -> u16
    requires { All IsShort packets.now }
    ensures { result ≡ longest_of (texts_from 0 packets.now) }
{
    let mut longest = 0;
    for packet in packets {
        if longest < packet.payload_len() {
            longest = packet.payload_len();
        }
    }
    longest
}

/// Clears the bit that is kept for an extension (RFC 5109 7.3).
fn without_extension(payload: &mut Vec<u8>)
    ensures cleared { payload.new.items ≡ cleared payload.old.items }
    ensures octets { AreOctets payload.old.items }
{
    if let Some(head) = payload.first_mut() {
        *head %= 0x80;
    }
}

/// The FEC payload over these packets, the first of which has this number: one level, which protects them whole.
pub(crate) fn fec_payload(
    alloc: Global,
    base: u16,
    packets: &[RtpPacket],
) -> Result<Vec<u8>, NoMemory>
    requires some { 0 < length packets.now }
    requires few { length packets.now ≤ MOST_PARTS }
    requires short { All IsShort packets.now }
    ensures { IfOk result (λ payload. payload.items ≡ octets_of (parity base (texts_from 0 packets.now))) }
{
    let level = LevelPlan {
        mask: mask_of(packets.len()),
        length: longest(packets),
    };
    let mut maker = FecMaker::start(alloc, base, false, &[level])?;
    let mut k = packets.len();
    while k > 0 {
        k -= 1;
        let text = packets[k].text(alloc)?;
        maker.add(k as u8, text.as_slice());
    }
    let mut payload = maker.finish();
    without_extension(&mut payload);
    Ok(payload)
}
