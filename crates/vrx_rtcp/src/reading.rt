//! From octets to a packet.

ghost use Rattle.std.specs.Prelude.{◌≡◌, ℕ, ◌+◌, ◌-◌, ◌*◌, ◌<◌, ◌≤◌, List, ◌++◌, length, take, drop, Option, None, Some, if◌then◌else◌, IfOk, IfErr, IsOkAnd};
ghost use Rattle.std.specs.Option.{option_map};
ghost use Rattle.std.specs.Result.{result_err};
ghost use Rattle.vrx_rtcp.specs.Fault.{first_fault as first_fault_there, least as least_there, is_badly_padded, lacks_body};
ghost use Rattle.vrx_rtcp.specs.Field.{size as size_there, message, is_padded as is_padded_there, unpadded_size as unpadded_there};
ghost use Rattle.vrx_rtcp.specs.Packet.{Message, IsPacket};
ghost use Rattle.vrx_rtcp.specs.View.{view, fault_at};

use crate::body::body_of;
use crate::fault::{RtcpFault, RtcpFaultKind};
use crate::packet::{Body, Packet};
use crate::types::{BYE, PSFB, RR, RTPFB, SR};
use vrx_num::slices::{from, upto};

/// How many octets a header has.
const HEADER: usize = 4;

/// How many octets the packet at the front has, padding included (RFC 3550 6.4.1).
#[tactic(auto, unfolding(crate::specs::Field::size))]
fn size(rest: &[u8]) -> usize
    requires { 4 ≤ length rest.now }
    ensures size { result ≡ size_there rest.now }
    ensures least { 4 ≤ result }
{
    HEADER * (usize::from(u16::from_be_bytes([rest[2], rest[3]])) + 1)
}

/// How many octets the packet has without its padding, or none if the padding is wrong.
fn unpadded_size(rest: &[u8], size: usize) -> Option<usize>
    requires header { 4 ≤ size }
    requires size { size ≡ size_there rest.now }
    requires within { size ≤ length rest.now }
    ensures { result ≡ (if is_badly_padded rest.now then None else Some (unpadded_there rest.now)) }
{
    if rest[0] / 32 % 2 == 0 {
        return Some(size);
    }
    let padding = usize::from(rest[size - 1]);
    if padding == 0 || padding % 4 != 0 || size < padding + HEADER {
        return None;
    }
    Some(size - padding)
}

/// How many octets a packet of this type and count has at least, padding aside.
fn least(kind: u8, count: u8) -> usize
    requires { count < 32 }
    ensures { result ≡ least_there kind count }
{
    let count = usize::from(count);
    match kind {
        SR => 28 + 24 * count,
        RR => 8 + 24 * count,
        BYE => 4 + 4 * count,
        RTPFB | PSFB => 12,
        _ => HEADER,
    }
}

/// What the packet of `size` octets at the front says.
fn body_in(rest: &[u8], size: usize) -> Result<Body<'_>, RtcpFaultKind>
    requires header { 4 ≤ size }
    requires size { size ≡ size_there rest.now }
    requires within { size ≤ length rest.now }
    ensures fault { result_err result ≡ (if is_badly_padded rest.now then Some RtcpFaultKind.Padding
        else if lacks_body rest.now then Some RtcpFaultKind.Body else None) }
    ensures body { IfOk result (λ body. view body ≡ message rest.now) }
{
    let Some(unpadded) = unpadded_size(rest, size) else {
        return Err(RtcpFaultKind::Padding);
    };
    let count = rest[0] % 32;
    let kind = rest[1];
    if unpadded < least(kind, count) {
        return Err(RtcpFaultKind::Body);
    }
    Ok(body_of(count, kind, upto(from(rest, HEADER), unpadded - HEADER)))
}

/// The packet at the front: what it says, and how many octets it has.
#[tactic(auto, unfolding(crate::specs::Fault::first_fault))]
fn packet_in(rest: &[u8]) -> Result<(Body<'_>, usize), RtcpFaultKind>
    ensures fault { result_err result ≡ first_fault_there rest.now }
    ensures body { IfOk result (λ p. view p.0 ≡ message rest.now) }
    ensures size { IfOk result (λ p. p.1 ≡ size_there rest.now) }
    ensures header { IfOk result (λ p. 4 ≤ p.1) }
    ensures within { IfOk result (λ p. p.1 ≤ length rest.now) }
{
    if rest.len() < HEADER {
        return Err(RtcpFaultKind::Short);
    }
    if rest[0] / 64 != 2 {
        return Err(RtcpFaultKind::Version);
    }
    let size = size(rest);
    if rest.len() < size {
        return Err(RtcpFaultKind::PastEnd);
    }
    match body_in(rest, size) {
        Ok(body) => Ok((body, size)),
        Err(kind) => Err(kind),
    }
}

/// The packet at `at` (RFC 3550 6.4 to 6.6, RFC 4585 6.1 to 6.3.1). It takes no memory.
///
/// The fault is the first of [`RtcpFaultKind`], in the order in which they stand there, told at `at`.
pub fn read_packet(bytes: &[u8], at: usize) -> Result<Packet<'_>, RtcpFault>
    requires within { at ≤ length bytes.now }

    // When it is refused, and with which fault; and so, when it isn't.
    ensures fault { result_err result ≡
        option_map (λ kind. fault_at at kind) (first_fault_there (drop at bytes.now)) }

    // What is read is a packet, from `at` to what lies before the next, and within the octets.
    ensures packet { IfOk result (λ p. IsPacket (take (p.next - at) (drop at bytes.now)) (view p.body)) }
    ensures header { IfOk result (λ p. at + 4 ≤ p.next) }
    ensures within { IfOk result (λ p. p.next ≤ length bytes.now) }

    // What is a packet, whatever follows it, is read.
    ensures only { (packet behind : List ℕ) (message : Message) → drop at bytes.now ≡ packet ++ behind →
        IsPacket packet message → IsOkAnd result (λ p. (view p.body ≡ message) × (p.next ≡ at + length packet)) }
{
    match packet_in(from(bytes, at)) {
        Ok((body, size)) => Ok(Packet {
            body,
            next: at + size,
        }),
        Err(kind) => Err(RtcpFault { kind, at }),
    }
}
