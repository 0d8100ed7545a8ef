//! The packets of a drill's sender.

ghost use Rattle.std.specs.Prelude.{◌≡◌, ◌+◌, ◌-◌, ◌<◌, ◌≤◌, ◌^◌, ◌==◌, [], All, None, length, min, IfOk};
ghost use Rattle.vrx_sender.specs.declared.frames.TheConstants.{PART};
ghost use Rattle.vrx_sender.specs.declared.settings.TheConstants.{FEC_TYPE};
ghost use Rattle.vrx_sender.specs.Made.{IsShort};
ghost use Rattle.vrx_rtp.specs.Packet.{octets_of};
ghost use Rattle.vrx_rtp.specs.View.{view as view_of};
ghost use Rattle.vrx_sender.specs.Packets.{wire as wire_of, packet as packet_of, payload as payload_of, media as media_of, packets as packets_of_frame};
ghost use Rattle.vrx_sender.specs.Frames.{packet_count as packet_count_of, part_count as part_count_of};
ghost use Rattle.vrx_sender.specs.Drill.{datagram as datagram_of, datagram_again as datagram_again_of};

use crate::fec::fec_payload;
use crate::frames::{PART, part_count, place_of, timestamp};
use crate::settings::{
    FEC_TYPE, FIRST_WIRE, MEDIA_SSRC, MEDIA_TYPE, RED_RTX_TYPE, RED_TYPE, RTX_SSRC,
};
use std::alloc::Global;
use std::marker::Model;
use vrx_codec::Layers;
use vrx_num::NoMemory;
use vrx_rtp::{RtpView, write};
use vrx_vp8::write_part;
use vrx_wrap::{red_wrap, rtx_wrap};

/// An RTP packet of the media stream (RFC 3550 5.1), without sources, extension and padding.
///
/// Contracts see the packet.
#[derive(Drop)]
pub(crate) struct RtpPacket {
    marker: bool,
    pt: u8,
    seq: u16,
    ts: u32,
    payload: Vec<u8>,
}

impl Model for RtpPacket {
    ghost use Rattle.std.specs.Prelude.{[], None, ◌<◌};
    ghost use Rattle.vrx_rtp.specs.Packet.{Packet};
    ghost use Rattle.vrx_sender.specs.declared.frames.TheConstants.{PART};
    ghost use Rattle.vrx_sender.specs.declared.settings.TheConstants.{MEDIA_SSRC};

    ghost Value = { Packet };

    ghost view = { λ a. record {
      marker = a.marker;
      pt = a.pt;
      seq = a.seq;
      ts = a.ts;
      ssrc = MEDIA_SSRC;
      csrc = [];
      extension = None;
      payload = a.payload.items;
      padding = 0;
    } };

    ghost invariant = { λ a. a.pt < 128 };
}

impl RtpPacket {
    /// The packet, seen where it lies.
    fn view(&self) -> RtpView<'_>
        ensures view { view_of result ≡ self.now }
        ensures pt { self.now.pt < 128 }
        ensures bare { (result.csrc.now ≡ []) × (result.extension ≡ None) }
    {
        RtpView {
            marker: self.marker,
            pt: self.pt,
            seq: self.seq,
            ts: self.ts,
            ssrc: MEDIA_SSRC,
            csrc: &[],
            extension: None,
            payload: self.payload.as_slice(),
            padding: 0,
        }
    }

    /// How many octets its payload has, which are all those after its first twelve.
    pub(crate) fn payload_len(&self) -> u16
        requires { IsShort self.now }
        ensures { result ≡ length (octets_of self.now) - 12 }
    {
        self.payload.len() as u16
    }

    /// Whether it is a FEC packet.
    pub(crate) fn is_fec(&self) -> bool
        ensures { result ≡ (self.now.pt == FEC_TYPE) }
    {
        self.pt == FEC_TYPE
    }

    /// Its payload.
    pub(crate) fn payload(&self, alloc: Global) -> Result<Vec<u8>, NoMemory>
        ensures { IfOk result (λ payload. payload.items ≡ self.now.payload) }
    {
        Ok(self.payload.as_slice().to_vec(alloc)?)
    }

    /// Its octets.
    pub(crate) fn text(&self, alloc: Global) -> Result<Vec<u8>, NoMemory>
        ensures { IfOk result (λ text. text.items ≡ octets_of self.now) }
    {
        write(alloc, &self.view())
    }

    /// Its datagram: it travels in RED.
    pub(crate) fn datagram(&self, alloc: Global) -> Result<Vec<u8>, NoMemory>
        ensures { IfOk result (λ octets. octets.items ≡ datagram_of self.now) }
    {
        let block = red_wrap(alloc, self.pt, self.payload.as_slice())?;
        let red = RtpView {
            pt: RED_TYPE,
            payload: block.as_slice(),
            ..self.view()
        };
        write(alloc, &red)
    }

    /// The datagram of its retransmission, under this number.
    pub(crate) fn datagram_again(&self, alloc: Global, number: u32) -> Result<Vec<u8>, NoMemory>
        ensures { IfOk result (λ octets. octets.items ≡ datagram_again_of number self.now) }
    {
        let block = red_wrap(alloc, self.pt, self.payload.as_slice())?;
        let red = RtpView {
            pt: RED_TYPE,
            payload: block.as_slice(),
            ..self.view()
        };
        rtx_wrap(
            alloc,
            &red,
            RED_RTX_TYPE,
            RTX_SSRC,
            (number % 65_536) as u16,
        )
    }
}

/// The sequence number of packet `i`.
fn wire(i: u32) -> u16
    requires { i < 2 ^ 31 }
    ensures { result ≡ wire_of i }
{
    ((u32::from(FIRST_WIRE) + i) % 65_536) as u16
}

/// Packet `i`, of frame `f`.
fn packet(i: u32, f: u32, pt: u8, marker: bool, payload: Vec<u8>) -> RtpPacket
    requires pt { pt < 128 }
    requires small { i < 2 ^ 31 }
    ensures { result ≡ packet_of i f pt marker payload.items }
{
    RtpPacket {
        marker,
        pt,
        seq: wire(i),
        ts: timestamp(f),
        payload,
    }
}

/// The payload of part `k` of frame `f`.
fn payload(alloc: Global, f: u32, k: usize, body: &[u8]) -> Result<Vec<u8>, NoMemory>
    requires frame { f < 10000 }
    requires body { 0 < length body.now }
    ensures { IfOk result (λ payload. payload.items ≡ payload_of f k body.now) }
{
    let place = place_of(f);
    let layers = Layers {
        picture: (place.picture % 32_768) as u16,
        tl0: place.tl0,
        tid: place.tid,
        sync: place.sync,
    };
    write_part(alloc, k == 0, Some(layers), body)
}

/// How many octets of these the next part has.
fn part_len(left: usize) -> usize
    ensures { result ≡ min PART left }
{
    if left < PART { left } else { PART }
}

/// The media packets of frame `f`, whose octets are these; the first is packet `i`.
fn media(alloc: Global, f: u32, i: u32, bytes: &[u8]) -> Result<Vec<RtpPacket>, NoMemory>
    requires frame { f < 10000 }
    requires first { i < 2 ^ 30 }
    requires size { (0 < length bytes.now) × (length bytes.now ≤ 12000) }
    ensures media { IfOk result (λ packets. packets.items ≡ media_of f i bytes.now) }
    ensures count { IfOk result (λ packets. length packets.items ≡ part_count_of (length bytes.now)) }
    ensures short { IfOk result (λ packets. All IsShort packets.items) }
{
    let count = part_count(bytes.len());
    let mut packets = Vec::with_capacity(alloc, count + 1)?;
    let mut rest = bytes;
    for k in 0..count {
        let (body, others) = rest.split_at(part_len(rest.len()));
        let octets = payload(alloc, f, k, body)?;
        let marker = k + 1 == count;
        packets.push(packet(i + k as u32, f, MEDIA_TYPE, marker, octets))?;
        rest = others;
    }
    Ok(packets)
}

/// The packets of frame `f`, whose octets are these; the first is packet `i`.
pub(crate) fn packets_of(
    alloc: Global,
    f: u32,
    i: u32,
    bytes: &[u8],
) -> Result<Vec<RtpPacket>, NoMemory>
    requires frame { f < 10000 }
    requires first { i < 2 ^ 30 }
    requires size { (0 < length bytes.now) × (length bytes.now ≤ 12000) }
    ensures packets { IfOk result (λ packets. packets.items ≡ packets_of_frame f i bytes.now) }
    ensures count { IfOk result (λ packets. length packets.items ≡ packet_count_of (length bytes.now)) }
{
    let mut packets = media(alloc, f, i, bytes)?;
    let parity = fec_payload(alloc, wire(i), packets.as_slice())?;
    let after = i + packets.len() as u32;
    packets.push(packet(after, f, FEC_TYPE, false, parity))?;
    Ok(packets)
}
