//! What a drill's sender sent.

ghost use Rattle.std.specs.Prelude.{◌≡◌, ◌≤◌, ◌+◌, ◌++◌, length, IfOk, OnOk};
ghost use Rattle.vrx_sender.specs.Made.{all_as_sent, as_sent};
ghost use Rattle.vrx_sender.specs.Drill.{drill_sender as drill_sender_of};
ghost use Rattle.vrx_sender.specs.View.{view_packet, view_packets};
ghost use Rattle.vrx_sender.specs.declared.drill.TheConstants.{MOST_FRAMES};

use crate::draws::draw_frame;
use crate::frames::sent_frame;
use crate::packets::{RtpPacket, packets_of};
use crate::settings::FIRST_WIRE;
use rand_core::SeedableRng;
use rand_pcg::Lcg64Xsh32;
use std::alloc::Global;
use std::marker::Model;
use vrx_codec::Place;
use vrx_core::{EventBytes, FrameBytes};
use vrx_num::{NoMemory, Numbers};

/// A frame as it was sent: its bytes, whether it is a keyframe, its timestamp, its place, and the places of the frames
/// that its decoder needs.
///
/// Contracts see it as the definition of a sender does.
#[derive(Debug, Drop)]
pub struct SentFrame {
    pub(crate) bytes: FrameBytes,
    pub(crate) key: bool,
    pub(crate) ts: u32,
    pub(crate) layers: Option<Place>,
    pub(crate) references: Numbers,
}

impl Model for SentFrame {
    ghost use Rattle.vrx_core.specs.honest.Sender.{SentFrame};

    ghost Value = { SentFrame };

    ghost view = { λ a. record {
      bytes = a.bytes;
      key = a.key;
      ts = a.ts;
      layers = a.layers;
      references = a.references;
    } };
}

impl SentFrame {
    /// Its bytes.
    pub fn bytes(&self) -> &[u8]
        ensures { result.now ≡ self.now.bytes }
    {
        self.bytes.as_slice()
    }
}

/// A packet as it was sent.
#[derive(Debug, Drop)]
pub enum SentPacket {
    /// A part of a frame, both counted from 0, with its text: the RTP packet.
    Media {
        frame: u64,
        part: u64,
        text: EventBytes,
    },
    /// A FEC packet, with its payload.
    Fec {
        payload: EventBytes,
    },
    /// One without a payload.
    Empty,
}

/// A sender: its frames and its packets, in order, and the sequence number of the first packet.
///
/// Contracts see it as the definition of a sender does.
#[derive(Debug, Drop)]
pub struct Sender {
    first_wire: u16,
    frames: Vec<SentFrame>,
    packets: Vec<SentPacket>,
}

impl Model for Sender {
    ghost use Rattle.vrx_core.specs.honest.Sender.{Sender};
    ghost use Rattle.vrx_sender.specs.View.{view_packets};

    ghost Value = { Sender };

    ghost view = { λ a. record {
      first_wire = a.first_wire;
      frames = a.frames.items;
      packets = view_packets a.packets.items;
    } };
}

impl Sender {
    /// The frames, in order.
    pub fn frames(&self) -> &[SentFrame]
        ensures { result.now ≡ self.now.frames }
    {
        self.frames.as_slice()
    }

    /// The packets, in order.
    pub fn packets(&self) -> &[SentPacket]
        ensures { view_packets result.now ≡ self.now.packets }
    {
        self.packets.as_slice()
    }
}

/// A packet of frame `f`, as it was sent: the FEC packet if it is of that type, and else this part.
fn sent(alloc: Global, f: u32, part: usize, packet: &RtpPacket) -> Result<SentPacket, NoMemory>
    ensures { IfOk result (λ sent. view_packet sent ≡ as_sent f part packet.now) }
{
    if packet.is_fec() {
        Ok(SentPacket::Fec {
            payload: EventBytes::from_vec(packet.payload(alloc)?),
        })
    } else {
        Ok(SentPacket::Media {
            frame: u64::from(f),
            part: part as u64,
            text: EventBytes::from_vec(packet.text(alloc)?),
        })
    }
}

/// Puts the packets of frame `f` last, as they were sent: its parts, and the FEC packet.
fn put_packets(
    alloc: Global,
    f: u32,
    packets: &[RtpPacket],
    all: &mut Vec<SentPacket>,
) -> Result<(), NoMemory>
    ensures packets { OnOk result (view_packets all.new.items ≡ view_packets all.old.items ++ all_as_sent f 0 packets.now) }
    ensures count { OnOk result (length all.new.items ≡ length all.old.items + length packets.now) }
{
    for k in 0..packets.len() {
        all.push(sent(alloc, f, k, &packets[k])?)?;
    }
    Ok(())
}

/// What the sender of a drill of so many frames sent, by its seed.
pub fn drill_sender(alloc: Global, seed: u64, frames: u32) -> Result<Sender, NoMemory>
    requires frames { (1 ≤ frames) × (frames ≤ MOST_FRAMES) }
    ensures sender { IfOk result (λ sender. sender ≡ drill_sender_of seed frames) }
{
    let mut draws = Lcg64Xsh32::seed_from_u64(seed);
    let mut sent_frames = Vec::new(alloc);
    let mut sent_packets = Vec::new(alloc);
    for f in 0..frames {
        let drawn = draw_frame(&mut draws, f);
        let frame = sent_frame(alloc, f, drawn.size)?;
        let first = sent_packets.len() as u32;
        let packets = packets_of(alloc, f, first, frame.bytes())?;
        put_packets(alloc, f, packets.as_slice(), &mut sent_packets)?;
        sent_frames.push(frame)?;
    }
    Ok(Sender {
        first_wire: FIRST_WIRE,
        frames: sent_frames,
        packets: sent_packets,
    })
}
