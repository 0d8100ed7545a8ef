//! What octets are by themselves: a packet of the stream, or why they aren't taken, whatever came before.

ghost use Rattle.std.specs.Prelude.{◌≡◌, ◌<◌, ◌≤◌, ◌^◌, ℕ, true, List, length, Ok, IfOk};
ghost use Rattle.std.specs.Result.{result_map_both};
ghost use Rattle.vrx_num.specs.declared.limits.TheConstants.{MOST_OCTETS};
ghost use Rattle.vrx_rtp.specs.Reading.{reading};
ghost use Rattle.vrx_rtp.specs.View.{view};
ghost use Rattle.vrx_wrap.specs.View.{view_apt, view_block};
ghost use Rattle.vrx_fec.specs.Reading.{reading as fec_reading};
ghost use Rattle.vrx_window.specs.Content.{Fec};
ghost use Rattle.vrx_core.specs.machine.Original.{apt_of as apt_of_settings, as_media as as_media_of, content_by, control as control_of, fault_reason as fault_reason_of, from_block, is_fec_type, is_red_type, media_packet as media_packet_of, original as original_of_octets, original_from, original_of as packet_original, original_read, out_of_red as out_of_red_of, parity_content};
ghost use Rattle.vrx_core.specs.inside.Seen.{HasTypes, packet_brought, view_brought, view_carried, view_original, Says, IsSeen};

use crate::reply::Reason;
use crate::settings::{Rtx, Settings};
use arrayvec::ArrayVec;
use vrx_codec::{Codec, Part};
use vrx_fec::read_fec;
use vrx_num::limits::MOST_OCTETS;
use vrx_rtcp::read_compound;
use vrx_rtp::{RtpFaultKind, RtpView, is_rtcp, read};
use vrx_wrap::{Apt, Block, RedFault, RtxFault, one_block, one_original, red_read, rtx_read};

/// What becomes of a datagram that isn't taken.
#[derive(Clone, Copy, Debug, PartialEq, Eq)]
pub enum NotTaken {
    /// It is RTCP.
    Control,
    /// It is refused.
    Refused(Reason),
}

/// What a packet of the stream brings.
#[derive(Clone, Copy)]
pub(crate) enum PayloadSeen<'a> {
    /// The part of a frame that its payload is.
    Media(Part<'a>),
    /// Its payload, which is that of a FEC packet.
    Fec(&'a [u8]),
    /// Nothing: it has no payload.
    Empty,
}

/// What a packet of the media source carries, out of RED.
#[derive(Clone, Copy)]
enum Carried<'a> {
    /// Media: the packet.
    Plain(RtpView<'a>),
    /// Parity: the packet, with the payload of a FEC packet.
    Parity(RtpView<'a>),
}

/// A packet of the stream, seen where it lies, and what it brings.
#[derive(Clone, Copy)]
pub(crate) struct PacketSeen<'a> {
    /// The packet, out of RED, and the original if it came as a retransmission.
    pub(crate) packet: RtpView<'a>,
    /// Whether the datagram is this packet as it stands: no RED, no retransmission, no padding.
    pub(crate) bare: bool,
    /// What it brings.
    pub(crate) brought: PayloadSeen<'a>,
}

/// What a payload brings, or why it is refused.
fn brought_in<'a, C: Codec>(payload: &'a [u8]) -> Result<PayloadSeen<'a>, Reason>
    ensures content { (text : List ℕ) → content_by C.meaning text payload.now ≡ result_map_both (view_brought text) (λ reason. reason) result }
    ensures says { IfOk result (λ brought. Says C.meaning payload.now brought) }
{
    if payload.is_empty() {
        return Ok(PayloadSeen::Empty);
    }
    match C::read_part(payload) {
        Err(fault) => Err(Reason::BadPart { code: fault.code }),
        Ok(part) => Ok(PayloadSeen::Media(part)),
    }
}

/// Why a payload is refused, if it isn't that of a FEC packet of this number (RFC 5109 7).
#[inline(never)]
fn reads_as_fec(payload: &[u8], own: u16) -> Result<(), Reason>
    ensures content { parity_content payload.now (fec_reading payload.now own) ≡ result_map_both (λ _. Fec payload.now) (λ reason. reason) result }
{
    match read_fec(payload, own) {
        Err(_) => Err(Reason::BadFec),
        Ok(_) => Ok(()),
    }
}

/// What retransmissions are of (RFC 4588 8.6): media, and RED if it comes again.
fn apt_of(settings: &Settings, rtx: &Rtx) -> Apt
    ensures { view_apt result ≡ apt_of_settings settings.now rtx.now }
{
    let mut pairs = ArrayVec::new();
    pairs.push((rtx.media_rtx_type, settings.media_type));
    if let (Some(red_rtx_type), Some(red)) = (rtx.red_rtx_type, settings.red) {
        pairs.push((red_rtx_type, red.red_type));
    }
    Apt {
        pairs,
        media_ssrc: settings.media_ssrc,
    }
}

/// Whether a payload type is that of RED.
fn is_red(settings: &Settings, pt: u8) -> bool
    ensures { result ≡ is_red_type settings.now pt }
{
    settings.red.is_some_and(|red| red.red_type == pt)
}

/// Whether a payload type is that of ULPFEC blocks in RED.
fn is_fec(settings: &Settings, pt: u8) -> bool
    ensures { result ≡ is_fec_type settings.now pt }
{
    settings
        .red
        .and_then(|red| red.fec_type)
        .is_some_and(|fec_type| fec_type == pt)
}

/// The original of a retransmission (RFC 4588 4), or why there is none.
#[inline(never)]
fn sent_again<'a>(settings: &Settings, packet: &RtpView<'a>) -> Result<RtpView<'a>, Reason>
    ensures value { original_from settings.now (view packet.now) settings.now.rtx ≡ result_map_both view (λ reason. reason) result }
{
    let Some(rtx) = settings.rtx else {
        return Err(Reason::OtherSsrc);
    };
    if packet.ssrc != rtx.ssrc {
        return Err(Reason::OtherSsrc);
    }
    match rtx_read(packet, &apt_of(settings, &rtx)) {
        Ok(original) => Ok(original),
        Err(RtxFault::NoApt) => Err(Reason::NoApt),
        Err(RtxFault::RtxEmpty) => Err(Reason::RtxEmpty),
    }
}

/// The packet of the media source that a packet is: itself, or the original of a retransmission.
#[inline(always)]
fn media_packet<'a>(settings: &Settings, packet: &RtpView<'a>) -> Result<RtpView<'a>, Reason>
    ensures value { media_packet_of settings.now (view packet.now) ≡ result_map_both view (λ reason. reason) result }
{
    if packet.ssrc != settings.media_ssrc {
        return sent_again(settings, packet);
    }
    if packet.pt != settings.media_type && !is_red(settings, packet.pt) {
        return Err(Reason::OtherType);
    }
    Ok(*packet)
}

/// The packet as the media packet of this payload.
fn as_media<'a>(settings: &Settings, packet: &RtpView<'a>, payload: &'a [u8]) -> RtpView<'a>
    ensures { view result ≡ as_media_of settings.now (view packet.now) payload.now }
{
    RtpView {
        pt: settings.media_type,
        payload,
        ..*packet
    }
}

/// What a RED packet carries by its one block.
#[inline(never)]
fn in_block<'a>(
    settings: &Settings,
    packet: &RtpView<'a>,
    block: &Block<'a>,
) -> Result<Carried<'a>, Reason>
    ensures value { from_block settings.now (view packet.now) (Ok (view_block block.now)) ≡ result_map_both view_carried (λ reason. reason) result }
{
    if block.pt == settings.media_type {
        Ok(Carried::Plain(as_media(settings, packet, block.rest)))
    } else if is_fec(settings, block.pt) {
        Ok(Carried::Parity(RtpView {
            payload: block.rest,
            ..*packet
        }))
    } else {
        Err(Reason::BadRed)
    }
}

/// What a packet carries, out of RED (RFC 2198 3) if it is in RED.
#[inline(always)]
fn out_of_red<'a>(settings: &Settings, packet: &RtpView<'a>) -> Result<Carried<'a>, Reason>
    ensures value { out_of_red_of settings.now (view packet.now) ≡ result_map_both view_carried (λ reason. reason) result }
{
    if !is_red(settings, packet.pt) {
        return Ok(Carried::Plain(*packet));
    }
    match red_read(packet.payload) {
        Err(RedFault::Empty) => Ok(Carried::Plain(as_media(settings, packet, packet.payload))),
        Err(RedFault::MoreBlocks) => Err(Reason::MoreBlocks),
        Ok(block) => in_block(settings, packet, &block),
    }
}

/// What a packet is, or why it is refused.
#[inline(always)]
fn original_of<'a, C: Codec>(
    settings: &Settings,
    packet: &RtpView<'a>,
) -> Result<PacketSeen<'a>, Reason>
    ensures value { packet_original settings.now C.meaning (view packet.now) ≡ result_map_both view_original (λ reason. reason) result }
    ensures packet { IfOk result (λ seen. packet_brought settings.now (view packet.now) ≡ Ok (view seen.packet)) }
    ensures bare { IfOk result (λ seen. seen.bare ≡ true → (view seen.packet ≡ view packet.now) × (packet.now.padding ≡ 0)) }
    ensures says { IfOk result (λ seen. Says C.meaning seen.packet.payload.now seen.brought) }
{
    let sent = media_packet(settings, packet)?;
    match out_of_red(settings, &sent)? {
        Carried::Plain(plain) => {
            let brought = brought_in::<C>(plain.payload)?;
            Ok(PacketSeen {
                packet: plain,
                bare: packet.ssrc == settings.media_ssrc
                    && !is_red(settings, packet.pt)
                    && packet.padding == 0,
                brought,
            })
        }
        Carried::Parity(parity) => {
            reads_as_fec(parity.payload, parity.seq)?;
            Ok(PacketSeen {
                packet: parity,
                bare: false,
                brought: PayloadSeen::Fec(parity.payload),
            })
        }
    }
}

/// Why octets are refused that are no packet.
fn fault_reason(kind: RtpFaultKind) -> Reason
    ensures reason { result ≡ fault_reason_of kind }
{
    match kind {
        RtpFaultKind::Short => Reason::NotRtp,
        RtpFaultKind::Version => Reason::NotRtp,
        RtpFaultKind::CsrcPastEnd => Reason::BadHeader,
        RtpFaultKind::ExtensionPastEnd => Reason::BadHeader,
        RtpFaultKind::PaddingPastEnd => Reason::BadHeader,
    }
}

/// What becomes of RTCP.
#[inline(never)]
fn control(octets: &[u8]) -> NotTaken
    requires some { 1 ≤ length octets.now }
    ensures control { result ≡ control_of octets.now }
{
    match read_compound(octets) {
        Ok(_) => NotTaken::Control,
        Err(_) => NotTaken::Refused(Reason::BadRtcp),
    }
}

/// An SSRC has 32 bits. The function does nothing.
fn has_32_bits(ssrc: u32)
    ensures fits { ssrc < 2 ^ 32 }
{}

/// What octets are that aren't RTCP, or why they are refused.
#[inline(always)]
fn original_in<'a, C: Codec>(
    settings: &Settings,
    octets: &'a [u8],
) -> Result<PacketSeen<'a>, Reason>
    requires types { HasTypes settings.now }
    requires size { length octets.now ≤ MOST_OCTETS }
    ensures value { original_read settings.now C.meaning (reading octets.now) ≡ result_map_both view_original (λ reason. reason) result }
    ensures seen { IfOk result (λ seen. IsSeen C.meaning octets.now seen) }
{
    // These cite the laws of retransmissions and of RED, and the width of an SSRC, and do nothing.
    one_original();
    one_block();
    has_32_bits(settings.media_ssrc);
    match read(octets) {
        Err(fault) => Err(fault_reason(fault.kind)),
        Ok(packet) => original_of::<C>(settings, &packet),
    }
}

/// The packet of the stream that a datagram is, or what becomes of it, whatever came before. It takes no memory.
#[inline(always)]
pub(crate) fn original<'a, C: Codec>(
    settings: &Settings,
    octets: &'a [u8],
) -> Result<PacketSeen<'a>, NotTaken>
    requires types { HasTypes settings.now }
    ensures value { original_of_octets settings.now C.meaning octets.now ≡ result_map_both view_original (λ left. left) result }
    ensures seen { IfOk result (λ seen. IsSeen C.meaning octets.now seen) }
{
    if octets.len() > MOST_OCTETS {
        return Err(NotTaken::Refused(Reason::TooLong));
    }
    if is_rtcp(octets) {
        return Err(control(octets));
    }
    match original_in::<C>(settings, octets) {
        Err(reason) => Err(NotTaken::Refused(reason)),
        Ok(seen) => Ok(seen),
    }
}
