//! What a datagram is, in one line.

ghost use Rattle.std.specs.Prelude.{◌≡◌, ◌++◌, List, ℕ, codes, length, IfOk, OnOk, ◌/◌};
ghost use Rattle.std.specs.Fmt.{decimal};
ghost use Rattle.std.specs.String.{string_bytes};
ghost use Rattle.std.specs.Int.{w32, to_be_bytes};
ghost use Rattle.hex.specs.Hex.{encode_lower};
ghost use Rattle.vrx_rtp.specs.Rtcp.{IsRtcp};
ghost use Rattle.vrx_rtp.specs.Reading.{reading};
ghost use Rattle.vrx_rtp.specs.View.{view as packet_of};
ghost use Rattle.vrx_rtcp.specs.View.{view as message_of};
ghost use Rattle.vrx_text.specs.Transcript.{line_feed};
ghost use Rattle.vrx_text.specs.Inspection.{marker_text, extension_text, rtp_line as rtp_line_of, rtp_kind_text, bad_rtp_line as bad_rtp_line_of, message_word, spaced_word, rtcp_kind_text, bad_rtcp_line as bad_rtcp_line_of, IsInspection, line_of_rtp, line_of_rtcp, words_in, inspection};

use std::alloc::Global;
use vrx_num::NoMemory;
use vrx_rtcp::{Body, RtcpFault, RtcpFaultKind, one_packet, read_packet};
use vrx_rtp::{RtpFault, RtpFaultKind, RtpView, is_rtcp, read};

/// The marker bit.
fn marker_text(marker: bool) -> &'static str
    ensures { result.now ≡ marker_text marker }
{
    if marker { "1" } else { "0" }
}

/// The number of the extension's words, or `-` if there is no extension.
fn extension_text(alloc: Global, packet: &RtpView<'_>) -> Result<String, NoMemory>
    ensures { IfOk result (λ text.
        string_bytes text ≡ extension_text (packet_of packet.now).extension) }
{
    match packet.extension {
        Some(extension) => {
            let words = extension.words.len() / 4;
            Ok(format!(in alloc; "{words}")?)
        }
        None => Ok(String::from_str(alloc, "-")?),
    }
}

/// The first words of an RTP packet's line: its payload type and its sequence number.
fn rtp_head(alloc: Global, k: u32, pt: u8, seq: u16) -> Result<Vec<u8>, NoMemory>
    ensures { IfOk result (λ text.
        text.items ≡ decimal k ++ codes " rtp pt=" ++ decimal pt ++ codes " seq=" ++ decimal seq) }
{
    Ok(format!(in alloc; "{k} rtp pt={pt} seq={seq}")?.into_bytes())
}

/// The next words: its timestamp, its SSRC and its marker bit.
fn rtp_source(alloc: Global, ts: u32, ssrc: u32, marker: bool) -> Result<String, NoMemory>
    ensures { IfOk result (λ text. string_bytes text ≡ codes " ts=" ++ decimal ts
        ++ codes " ssrc=" ++ encode_lower (to_be_bytes w32 ssrc) ++ codes " m=" ++ marker_text marker) }
{
    let digits = hex::encode(alloc, ssrc.to_be_bytes())?;
    let m = marker_text(marker);
    Ok(format!(in alloc; " ts={ts} ssrc={digits} m={m}")?)
}

/// The next words: the numbers of its contributing sources and of its extension's words.
fn rtp_extras(alloc: Global, csrc: usize, extension: &str) -> Result<String, NoMemory>
    ensures { IfOk result (λ text.
        string_bytes text ≡ codes " csrc=" ++ decimal csrc ++ codes " ext=" ++ extension.now) }
{
    Ok(format!(in alloc; " csrc={csrc} ext={extension}")?)
}

/// The last words: the numbers of its padding octets and of its payload's octets.
fn rtp_sizes(alloc: Global, padding: u8, payload: usize) -> Result<String, NoMemory>
    ensures { IfOk result (λ text. string_bytes text ≡ codes " pad=" ++ decimal padding
        ++ codes " payload=" ++ decimal payload ++ line_feed) }
{
    Ok(format!(in alloc; " pad={padding} payload={payload}\n")?)
}

/// The line of a datagram that is this RTP packet.
fn rtp_line(alloc: Global, k: u32, packet: &RtpView<'_>) -> Result<Vec<u8>, NoMemory>
    ensures { IfOk result (λ text. text.items ≡ rtp_line_of k (packet_of packet.now)) }
{
    let mut text = rtp_head(alloc, k, packet.pt, packet.seq)?;
    let source = rtp_source(alloc, packet.ts, packet.ssrc, packet.marker)?;
    let words = extension_text(alloc, packet)?;
    let extras = rtp_extras(alloc, packet.csrc.len() / 4, words.as_str())?;
    let sizes = rtp_sizes(alloc, packet.padding, packet.payload.len())?;
    text.extend_from_slice(source.as_bytes())?;
    text.extend_from_slice(extras.as_bytes())?;
    text.extend_from_slice(sizes.as_bytes())?;
    Ok(text)
}

/// The name of a fault of RTP.
fn rtp_kind_text(kind: RtpFaultKind) -> &'static str
    ensures { result.now ≡ rtp_kind_text kind }
{
    match kind {
        RtpFaultKind::Short => "Short",
        RtpFaultKind::Version => "Version",
        RtpFaultKind::CsrcPastEnd => "CsrcPastEnd",
        RtpFaultKind::ExtensionPastEnd => "ExtensionPastEnd",
        RtpFaultKind::PaddingPastEnd => "PaddingPastEnd",
    }
}

/// The line of a datagram that is no RTP packet, for this fault.
fn bad_rtp_line(alloc: Global, k: u32, fault: RtpFault) -> Result<Vec<u8>, NoMemory>
    ensures { IfOk result (λ text. text.items ≡ bad_rtp_line_of k fault) }
{
    let kind = rtp_kind_text(fault.kind);
    let at = fault.at;
    Ok(format!(in alloc; "{k} bad rtp {kind} {at}\n")?.into_bytes())
}

/// The line of a datagram that isn't RTCP.
fn inspect_rtp(alloc: Global, k: u32, bytes: &[u8]) -> Result<Vec<u8>, NoMemory>
    requires { ¬ IsRtcp bytes.now }
    ensures value { IfOk result (λ text. text.items ≡ line_of_rtp k (reading bytes.now)) }
    ensures is { IfOk result (λ text. IsInspection k bytes.now text.items) }
    ensures only { (line : List ℕ) → IsInspection k bytes.now line →
        IfOk result (λ text. text.items ≡ line) }
{
    match read(bytes) {
        Ok(packet) => rtp_line(alloc, k, &packet),
        Err(fault) => bad_rtp_line(alloc, k, fault),
    }
}

/// The name of a fault of RTCP.
fn rtcp_kind_text(kind: RtcpFaultKind) -> &'static str
    ensures { result.now ≡ rtcp_kind_text kind }
{
    match kind {
        RtcpFaultKind::Short => "Short",
        RtcpFaultKind::Version => "Version",
        RtcpFaultKind::PastEnd => "PastEnd",
        RtcpFaultKind::Padding => "Padding",
        RtcpFaultKind::Body => "Body",
    }
}

/// The line of a datagram that is no RTCP, for this fault.
fn bad_rtcp_line(alloc: Global, k: u32, fault: RtcpFault) -> Result<Vec<u8>, NoMemory>
    ensures { IfOk result (λ text. text.items ≡ bad_rtcp_line_of k fault) }
{
    let kind = rtcp_kind_text(fault.kind);
    let at = fault.at;
    Ok(format!(in alloc; "{k} bad rtcp {kind} {at}\n")?.into_bytes())
}

/// The first words of a line of RTCP packets.
fn rtcp_head(alloc: Global, k: u32) -> Result<Vec<u8>, NoMemory>
    ensures { IfOk result (λ text. text.items ≡ decimal k ++ codes " rtcp") }
{
    Ok(format!(in alloc; "{k} rtcp")?.into_bytes())
}

/// A space and the word for an RTCP packet of another type, or for feedback of another format.
fn other_word(alloc: Global, kind: u8) -> Result<String, NoMemory>
    ensures { IfOk result (λ text. string_bytes text ≡ codes " other" ++ decimal kind) }
{
    Ok(format!(in alloc; " other{kind}")?)
}

/// Puts a space and the word for what an RTCP packet says last.
fn push_word(alloc: Global, body: &Body<'_>, text: &mut Vec<u8>) -> Result<(), NoMemory>
    ensures { OnOk result (text.new.items ≡ text.old.items ++ spaced_word (message_of body.now)) }
{
    match body {
        Body::Sender(_) => Ok(text.extend_from_slice(b" sr")?),
        Body::Report(_) => Ok(text.extend_from_slice(b" rr")?),
        Body::Bye(_) => Ok(text.extend_from_slice(b" bye")?),
        Body::Nack(_) => Ok(text.extend_from_slice(b" nack")?),
        Body::Pli(_) => Ok(text.extend_from_slice(b" pli")?),
        Body::Other { kind } => {
            let word = other_word(alloc, *kind)?;
            Ok(text.extend_from_slice(word.as_bytes())?)
        }
    }
}

/// The line of RTCP, computed, is the only one that an inspection can have. The function does nothing.
fn rtcp_computes()
    ensures { (k : ℕ) (octets line : List ℕ) → IsRtcp octets → IsInspection k octets line →
        line ≡ line_of_rtcp k (words_in octets) }
{
    // A law: octets begin with one RTCP packet at most, and if they begin with one there is no fault.
    one_packet();
}

/// The line of a datagram that is RTCP.
fn inspect_rtcp(alloc: Global, k: u32, bytes: &[u8]) -> Result<Vec<u8>, NoMemory>
    requires { IsRtcp bytes.now }
    ensures { IfOk result (λ text. IsInspection k bytes.now text.items) }
{
    let mut text = rtcp_head(alloc, k)?;
    let mut at = 0;
    while at < bytes.len() {
        match read_packet(bytes, at) {
            Ok(packet) => {
                push_word(alloc, &packet.body, &mut text)?;
                at = packet.next;
            }
            Err(fault) => return bad_rtcp_line(alloc, k, fault),
        }
    }
    text.push(b'\n')?;
    Ok(text)
}

/// One line that says what the datagram of line `k` is, ended by a line feed. The datagram may have any length, also
/// none. It fails only if it is out of memory.
///
/// ```text
/// K rtp pt=P seq=S ts=T ssrc=H m=M csrc=C ext=E pad=D payload=L
/// K rtcp WORD WORD ..
/// K bad rtp KIND AT
/// K bad rtcp KIND AT
/// ```
///
/// The first is an RTP packet (RFC 3550 5.1): H has eight hexadecimal digits, M is 0 or 1, C counts the contributing
/// sources, E the 32-bit words of the header extension, or is `-` if there is none, D counts the padding octets,
/// and L the payload's octets. The second is a compound of RTCP packets (RFC 3550 6.1): each WORD is `sr`, `rr`,
/// `bye`, `nack`, `pli`, or `other` and the packet's type. The others report the first fault, by the names of
/// [`RtpFaultKind`] and [`RtcpFaultKind`], and its offset. A datagram is RTCP by its second octet (RFC 5761 4), and
/// else read as RTP.
#[tactic(auto, unfolding(crate::specs::Inspection::inspection))]
pub fn inspect_text(alloc: Global, k: u32, bytes: &[u8]) -> Result<Vec<u8>, NoMemory>
    // The line that the definition computes.
    ensures value { IfOk result (λ text. text.items ≡ inspection k bytes.now) }

    // What the line means: the packet or the packets that the octets are, or their first fault. No
    // other line means that.
    ensures is { IfOk result (λ text. IsInspection k bytes.now text.items) }
    ensures only { (line : List ℕ) → IsInspection k bytes.now line →
        IfOk result (λ text. text.items ≡ line) }
{
    // A law: the line of RTCP that the definition computes is the only one that an inspection can have.
    rtcp_computes();
    if is_rtcp(bytes) {
        inspect_rtcp(alloc, k, bytes)
    } else {
        inspect_rtp(alloc, k, bytes)
    }
}
