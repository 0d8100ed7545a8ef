//! From a datagram to a packet.

ghost use Rattle.std.specs.Prelude.{◌≡◌, ◌↔◌, length, Some, None, Ok, Err, IsOk, IfOk, IsOkAnd, IsErrOf};
ghost use Rattle.std.specs.Option.{option_map};
ghost use Rattle.vrx_rtp.specs.declared.fault.RtpFault.{RtpFault};
ghost use Rattle.vrx_rtp.specs.Faults.{first_fault};
ghost use Rattle.vrx_rtp.specs.Packet.{Packet, IsPacket};
ghost use Rattle.vrx_rtp.specs.Reading.{header_at, sources_at, words_at, extension_at, payload_at, reading};
ghost use Rattle.vrx_rtp.specs.View.{view, view_extension, view_result, result_by};

use crate::fault::{RtpFault, RtpFaultKind};
use crate::rtp_view::{Extension, RtpView};

/// How many octets each header has at least.
const HEADER: usize = 12;

/// The version of RTP.
const VERSION: u8 = 2;

/// What the twelve octets say that each header has.
#[derive(Clone, Copy)]
pub(crate) struct Header {
    padded: bool,
    extended: bool,
    sources: u8,
    marker: bool,
    pt: u8,
    seq: u16,
    ts: u32,
    ssrc: u32,
}

/// The twelve octets that each header has, and what is after them.
fn header_of(datagram: &[u8]) -> Result<(Header, &[u8]), RtpFault>
    ensures { result_by (λ x. (x.0, x.1.now)) result ≡ header_at datagram.now }
{
    if datagram.len() < HEADER {
        return Err(RtpFault {
            kind: RtpFaultKind::Short,
            at: datagram.len(),
        });
    }
    let (front, rest) = datagram.split_at(HEADER);
    let first = front[0];
    let second = front[1];
    if first / 64 != VERSION {
        return Err(RtpFault {
            kind: RtpFaultKind::Version,
            at: 0,
        });
    }
    let header = Header {
        padded: first / 32 % 2 == 1,
        extended: first / 16 % 2 == 1,
        sources: first % 16,
        marker: second >= 128,
        pt: second % 128,
        seq: u16::from_be_bytes([front[2], front[3]]),
        ts: u32::from_be_bytes([front[4], front[5], front[6], front[7]]),
        ssrc: u32::from_be_bytes([front[8], front[9], front[10], front[11]]),
    };
    Ok((header, rest))
}

/// So many contributing sources, and what is after them.
fn sources_of(count: u8, octets: &[u8]) -> Result<(&[u8], &[u8]), RtpFault>
    ensures { result_by (λ x. (x.0.now, x.1.now)) result ≡ sources_at count octets.now }
{
    let len = 4 * usize::from(count);
    if octets.len() < len {
        return Err(RtpFault {
            kind: RtpFaultKind::CsrcPastEnd,
            at: HEADER,
        });
    }
    Ok(octets.split_at(len))
}

/// The header extension at the front, and what is after it, if it doesn't run past the end.
fn words_of(octets: &[u8]) -> Option<(Extension<'_>, &[u8])>
    ensures { option_map (λ x. (view_extension x.0, x.1.now)) result ≡ words_at octets.now }
{
    let [profile1, profile0, count1, count0, rest @ ..] = octets else {
        return None;
    };
    let len = 4 * usize::from(u16::from_be_bytes([*count1, *count0]));
    if rest.len() < len {
        return None;
    }
    let profile = u16::from_be_bytes([*profile1, *profile0]);
    let (words, rest) = rest.split_at(len);
    Some((Extension { profile, words }, rest))
}

/// The header extension if there is one, and what is after it. It stands at octet `at` of the datagram.
fn extension_of(
    extended: bool,
    at: usize,
    octets: &[u8],
) -> Result<(Option<Extension<'_>>, &[u8]), RtpFault>
    ensures { result_by (λ x. (option_map view_extension x.0, x.1.now)) result ≡ extension_at extended at octets.now }
{
    if !extended {
        return Ok((None, octets));
    }
    match words_of(octets) {
        Some((extension, rest)) => Ok((Some(extension), rest)),
        None => Err(RtpFault {
            kind: RtpFaultKind::ExtensionPastEnd,
            at,
        }),
    }
}

/// The payload, and how many padding octets follow it. The last octet is octet `at` of the datagram.
fn payload_of(padded: bool, at: usize, octets: &[u8]) -> Result<(&[u8], u8), RtpFault>
    ensures { result_by (λ x. (x.0.now, x.1)) result ≡ payload_at padded at octets.now }
{
    if !padded {
        return Ok((octets, 0));
    }
    let count = match octets {
        [.., last] => *last,
        [] => 0,
    };
    let len = usize::from(count);
    if len == 0 || octets.len() < len {
        return Err(RtpFault {
            kind: RtpFaultKind::PaddingPastEnd,
            at,
        });
    }
    let (payload, _padding) = octets.split_at(octets.len() - len);
    Ok((payload, count))
}

/// The packet that the datagram is, taken from the front.
fn packet_of(datagram: &[u8]) -> Result<RtpView<'_>, RtpFault>
    ensures { view_result result ≡ reading datagram.now }
{
    let (header, rest) = header_of(datagram)?;
    let (csrc, rest) = sources_of(header.sources, rest)?;
    let (extension, rest) = extension_of(header.extended, HEADER + csrc.len(), rest)?;
    let (payload, padding) = payload_of(header.padded, datagram.len() - 1, rest)?;
    Ok(RtpView {
        marker: header.marker,
        pt: header.pt,
        seq: header.seq,
        ts: header.ts,
        ssrc: header.ssrc,
        csrc,
        extension,
        payload,
        padding,
    })
}

/// The RTP packet that the datagram is (RFC 3550 5.1). It takes no memory.
///
/// A datagram that is none has the first fault that applies, in the order of [`RtpFaultKind`]. The values of the
/// padding octets other than the last aren't kept.
#[inline(always)]
pub fn read(datagram: &[u8]) -> Result<RtpView<'_>, RtpFault>
    // What is read, seen as a packet, wherever it lies in memory.
    ensures reads { view_result result ≡ reading datagram.now }

    // What is read is in the grammar, and what is in the grammar is read.
    ensures packet { IfOk result (λ v. IsPacket datagram.now (view v)) }
    ensures only { (p : Packet) → IsPacket datagram.now p → IsOkAnd result (λ v. view v ≡ p) }

    // It is read exactly if no fault applies, and else the first that applies is told.
    ensures ok { IsOk result ↔ (first_fault datagram.now ≡ None) }
    ensures fault { (f : RtpFault) → (IsErrOf result f ↔ (first_fault datagram.now ≡ Some f)) }
{
    packet_of(datagram)
}
