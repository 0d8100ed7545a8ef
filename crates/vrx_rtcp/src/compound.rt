//! From a datagram to its packets.

ghost use Rattle.std.specs.Prelude.{◌≡◌, ℕ, ◌≤◌, ◌↔◌, true, List, length, Ok, Err, IsOk, IfOk, IfErr};
ghost use Rattle.vrx_rtcp.specs.Compound.{SpelledPacket, IsCompound, HasFault, is_compound};
ghost use Rattle.vrx_rtcp.specs.declared.fault.RtcpFault.{RtcpFault};

use crate::fault::RtcpFault;
use crate::reading::read_packet;

/// How many packets the datagram has, if each reads, one after another to its end (RFC 3550 6.1).
/// A packet of any type may come first (RFC 5506). It takes no memory.
///
/// The fault is that of the first packet that doesn't read.
pub fn read_compound(bytes: &[u8]) -> Result<usize, RtcpFault>
    requires some { 1 ≤ length bytes.now }

    // It is answered exactly if the test of a compound passes.
    ensures ok { IsOk result ↔ (is_compound bytes.now ≡ true) }

    // The datagram is so many packets; and if it is packets, their number is answered.
    ensures compound { IfOk result (λ n.
        (packets : List SpelledPacket) × IsCompound bytes.now packets × (length packets ≡ n)) }
    ensures only { (packets : List SpelledPacket) → IsCompound bytes.now packets → result ≡ Ok (length packets) }

    // The fault is the first one; and if there is a first one, it is answered.
    ensures fault { IfErr result (λ e. HasFault bytes.now e) }
    ensures only_fault { (e : RtcpFault) → HasFault bytes.now e → result ≡ Err e }
{
    let mut packets = 0;
    let mut at = 0;
    while at < bytes.len() {
        match read_packet(bytes, at) {
            Ok(packet) => at = packet.next,
            Err(fault) => return Err(fault),
        }
        packets += 1;
    }
    Ok(packets)
}
