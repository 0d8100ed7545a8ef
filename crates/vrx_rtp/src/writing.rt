//! From a packet to a datagram.

ghost use Rattle.std.specs.Prelude.{◌≡◌, ◌-◌, ◌^◌, ◌<◌, ◌≤◌, ◌++◌, replicate, Ok, IfOk, OnOk, IfSome};
ghost use Rattle.std.specs.Option.{option_map};
ghost use Rattle.vrx_rtp.specs.Packet.{IsPacket, Fits, AreWords, first_octet as first_octet_of, fixed_header as fixed_header_of, extension_octets, padding_octets, octets_of};
ghost use Rattle.vrx_rtp.specs.Reading.{reading};
ghost use Rattle.vrx_rtp.specs.View.{view, view_extension};

use crate::rtp_view::{Extension, RtpView};
use std::alloc::Global;
use vrx_num::NoMemory;

/// How many octets each header has at least.
const HEADER: usize = 12;

/// How many octets stand before the words of a header extension.
const EXTENSION_HEAD: usize = 4;

/// The padding octets but the last, of which there are at most so many.
const FILLER: [u8; 254] = [0; 254];

/// The first octet: version 2, bits P and X, and the count of the sources.
fn first_octet(packet: &RtpView<'_>) -> u8
    requires { AreWords 60 packet.now.csrc.now }
    ensures { result ≡ first_octet_of (view packet.now) }
{
    let padding = if packet.padding == 0 { 0 } else { 0x20 };
    let extension = if packet.extension.is_some() { 0x10 } else { 0 };
    let sources = (packet.csrc.len() / 4) as u8;
    0x80 + padding + extension + sources
}

/// The twelve octets that each header has.
fn fixed_header(packet: &RtpView<'_>) -> [u8; 12]
    requires pt { packet.now.pt < 128 }
    requires csrc { AreWords 60 packet.now.csrc.now }
    ensures octets { result ≡ fixed_header_of (view packet.now) }
    // The numbers fit the octets that they have there.
    ensures seq { packet.now.seq < 2 ^ 16 }
    ensures ts { packet.now.ts < 2 ^ 32 }
    ensures ssrc { packet.now.ssrc < 2 ^ 32 }
{
    let RtpView {
        marker,
        pt,
        seq,
        ts,
        ssrc,
        ..
    } = *packet;
    let [seq1, seq0] = seq.to_be_bytes();
    let [ts3, ts2, ts1, ts0] = ts.to_be_bytes();
    let [ssrc3, ssrc2, ssrc1, ssrc0] = ssrc.to_be_bytes();
    [
        first_octet(packet),
        if marker { 0x80 + pt } else { pt },
        seq1,
        seq0,
        ts3,
        ts2,
        ts1,
        ts0,
        ssrc3,
        ssrc2,
        ssrc1,
        ssrc0,
    ]
}

/// Adds the header extension, if there is one.
fn push_extension(out: &mut Vec<u8>, extension: &Option<Extension<'_>>) -> Result<(), NoMemory>
    requires { IfSome extension.now (λ e. AreWords 262140 e.words.now) }
    ensures octets { OnOk result (out.new.items ≡ out.old.items ++ extension_octets (option_map view_extension extension.now)) }
    ensures profile { IfSome extension.now (λ e. e.profile < 2 ^ 16) }
{
    let Some(extension) = extension else {
        return Ok(());
    };
    let words = (extension.words.len() / 4) as u16;
    out.extend_from_slice(&extension.profile.to_be_bytes())?;
    out.extend_from_slice(&words.to_be_bytes())?;
    out.extend_from_slice(extension.words)?;
    Ok(())
}

/// So many padding octets of 0.
fn filler(count: usize) -> &'static [u8]
    requires { count ≤ 254 }
    ensures { result.now ≡ replicate count 0 }
{
    &FILLER[..count]
}

/// Adds the padding octets, so many of them. Those but the last are 0.
fn push_padding(out: &mut Vec<u8>, padding: u8) -> Result<(), NoMemory>
    ensures { OnOk result (out.new.items ≡ out.old.items ++ padding_octets (replicate (padding - 1) 0) padding) }
{
    if padding == 0 {
        return Ok(());
    }
    out.extend_from_slice(filler(usize::from(padding) - 1))?;
    out.push(padding)?;
    Ok(())
}

/// The room that a packet's octets take, so that memory is taken once.
fn room_for(packet: &RtpView<'_>) -> usize {
    let extension = match packet.extension {
        None => 0,
        Some(extension) => extension.words.len().saturating_add(EXTENSION_HEAD),
    };
    HEADER
        .saturating_add(packet.csrc.len())
        .saturating_add(extension)
        .saturating_add(packet.payload.len())
        .saturating_add(usize::from(packet.padding))
}

/// The octets that a packet spells, with padding octets of 0 but for the last.
fn octets_of(alloc: Global, packet: &RtpView<'_>) -> Result<Vec<u8>, NoMemory>
    requires pt { packet.now.pt < 128 }
    requires csrc { AreWords 60 packet.now.csrc.now }
    requires extension { IfSome packet.now.extension (λ e. AreWords 262140 e.words.now) }
    ensures spelled { IfOk result (λ datagram. datagram.items ≡ octets_of (view packet.now)) }
    ensures fits { OnOk result (Fits (view packet.now)) }
{
    let mut out = Vec::with_capacity(alloc, room_for(packet))?;
    out.extend_from_slice(&fixed_header(packet))?;
    out.extend_from_slice(packet.csrc)?;
    push_extension(&mut out, &packet.extension)?;
    out.extend_from_slice(packet.payload)?;
    push_padding(&mut out, packet.padding)?;
    Ok(out)
}

/// The datagram that spells the packet (RFC 3550 5.1). `csrc` and the extension's words are whole words of four
/// octets, at most 15 and 65,535 of them. The padding octets other than the last are 0.
pub fn write(alloc: Global, packet: &RtpView<'_>) -> Result<Vec<u8>, NoMemory>
    requires pt { packet.now.pt < 128 }
    requires csrc { AreWords 60 packet.now.csrc.now }
    requires extension { IfSome packet.now.extension (λ e. AreWords 262140 e.words.now) }
    ensures spelled { IfOk result (λ datagram. datagram.items ≡ octets_of (view packet.now)) }
    // It is the packet in the grammar, so reading it gives the packet again.
    ensures packet { IfOk result (λ datagram. IsPacket datagram.items (view packet.now)) }
    ensures again { IfOk result (λ datagram. reading datagram.items ≡ Ok (view packet.now)) }
{
    octets_of(alloc, packet)
}
