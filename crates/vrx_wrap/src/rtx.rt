//! Retransmissions (RFC 4588 4).

ghost use Rattle.std.specs.Prelude.{◌≡◌, ◌↔◌, ◌<◌, length, Ok, IfOk, OnOk, IfSome, IsOkAnd, IsErrOf};
ghost use Rattle.std.specs.Option.{option_map};
ghost use Rattle.vrx_rtp.specs.Packet.{Packet, IsPacket, AreWords, octets_of};
ghost use Rattle.vrx_num.specs.Octets.{AreOctets};
ghost use Rattle.vrx_rtp.specs.Reading.{reading};
ghost use Rattle.vrx_rtp.specs.View.{view as packet_of};
ghost use Rattle.vrx_wrap.specs.Rtx.{Apt as AptOf, IsOriginal, IsRtxType, StandsFor, number_at, rtx_payload, original_of, rtx_of, unpadded_packet};
ghost use Rattle.vrx_wrap.specs.View.{view_apt, view_original};

use crate::apt::{Apt, original_type};
use std::alloc::Global;
use vrx_num::NoMemory;
use vrx_rtp::{RtpView, write};

/// Why a retransmission isn't read, in the order in which it is tested.
#[derive(Clone, Copy, Debug, PartialEq, Eq, thiserror::Error)]
pub enum RtxFault {
    /// Its payload type isn't one of retransmissions.
    #[error("the payload type isn't one of retransmissions")]
    NoApt,
    /// Its payload has fewer than the two octets of the original's number.
    #[error("the retransmission is cut off before the original's payload")]
    RtxEmpty,
}

/// The original's number, and its payload after it, if the payload has them.
fn number_of(payload: &[u8]) -> Option<(u16, &[u8])>
    ensures number { option_map (λ x. (x.0, x.1.now)) result ≡ number_at payload.now }
    ensures octets { IfSome result (λ _. AreOctets payload.now) }
{
    let [high, low, rest @ ..] = payload else {
        return None;
    };
    Some((u16::from_be_bytes([*high, *low]), rest))
}

/// The original packet of a retransmission.
fn original<'a>(view: &RtpView<'a>, apt: &Apt) -> Result<RtpView<'a>, RtxFault>
    ensures reads { view_original result ≡ original_of (view_apt apt.now) (packet_of view.now) }
    ensures octets { OnOk result (AreOctets view.now.payload.now) }
{
    let Some(pt) = original_type(apt, view.pt) else {
        return Err(RtxFault::NoApt);
    };
    let Some((seq, payload)) = number_of(view.payload) else {
        return Err(RtxFault::RtxEmpty);
    };
    Ok(RtpView {
        pt,
        seq,
        ssrc: apt.media_ssrc,
        payload,
        padding: 0,
        ..*view
    })
}

/// The original packet of a retransmission (RFC 4588 4), seen where the retransmission lies. It takes no memory.
///
/// It has the payload type that the retransmission's stands for, the media SSRC, and the number and the payload that
/// the retransmission's payload says. Marker, timestamp, sources and extension are the retransmission's. It has no
/// padding.
pub fn rtx_read<'a>(view: &RtpView<'a>, apt: &Apt) -> Result<RtpView<'a>, RtxFault>
    // What is read, seen as a packet, wherever it lies in memory.
    ensures reads { view_original result ≡ original_of (view_apt apt.now) (packet_of view.now) }

    // What is read is the original, and the original is read.
    ensures original { IfOk result (λ o. IsOriginal (view_apt apt.now) (packet_of view.now) (packet_of o)) }
    ensures only { (o : Packet) → IsOriginal (view_apt apt.now) (packet_of view.now) o →
        IsOkAnd result (λ v. packet_of v ≡ o) }

    // When it isn't read.
    ensures no_apt { IsErrOf result RtxFault.NoApt ↔ (IsRtxType (view_apt apt.now) view.now.pt → ⊥) }
    ensures rtx_empty { IsErrOf result RtxFault.RtxEmpty
        ↔ (IsRtxType (view_apt apt.now) view.now.pt × (length view.now.payload.now < 2)) }
{
    original(view, apt)
}

/// A sequence number, and a payload after it.
fn numbered_payload(alloc: Global, seq: u16, payload: &[u8]) -> Result<Vec<u8>, NoMemory>
    ensures octets { IfOk result (λ out. out.items ≡ rtx_payload seq payload.now) }
{
    let mut out = Vec::new(alloc);
    out.extend_from_slice(&seq.to_be_bytes())?;
    out.extend_from_slice(payload)?;
    Ok(out)
}

/// The datagram of a retransmission of a packet (RFC 4588 4), under a payload type, an SSRC and a number of its own.
/// Padding isn't retransmitted. The type has 7 bits. `csrc` and the extension's words are whole words of four octets,
/// at most 15 and 65,535 of them.
pub fn rtx_wrap(
    alloc: Global,
    view: &RtpView<'_>,
    rtx_type: u8,
    rtx_ssrc: u32,
    rtx_seq: u16,
) -> Result<Vec<u8>, NoMemory>
    requires rtx_type { rtx_type < 128 }
    requires csrc { AreWords 60 view.now.csrc.now }
    requires extension { IfSome view.now.extension (λ e. AreWords 262140 e.words.now) }
    ensures spelled { IfOk result (λ datagram.
        datagram.items ≡ octets_of (rtx_of rtx_type rtx_ssrc rtx_seq (packet_of view.now))) }
    // It is the retransmission in the grammar of packets, so reading it gives the retransmission.
    ensures packet { IfOk result (λ datagram.
        IsPacket datagram.items (rtx_of rtx_type rtx_ssrc rtx_seq (packet_of view.now))) }
    ensures reads { IfOk result (λ datagram.
        reading datagram.items ≡ Ok (rtx_of rtx_type rtx_ssrc rtx_seq (packet_of view.now))) }
    // And the original of that is the packet again, without padding.
    ensures again { (apt : AptOf) → StandsFor apt rtx_type (packet_of view.now) →
        IfOk result (λ datagram. IsOkAnd (reading datagram.items)
        (λ p. original_of apt p ≡ Ok (unpadded_packet (packet_of view.now)))) }
{
    let payload = numbered_payload(alloc, view.seq, view.payload)?;
    write(
        alloc,
        &RtpView {
            pt: rtx_type,
            seq: rtx_seq,
            ssrc: rtx_ssrc,
            payload: payload.as_slice(),
            padding: 0,
            ..*view
        },
    )
}
