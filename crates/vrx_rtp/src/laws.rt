//! What holds of the grammar itself.

ghost use Rattle.vrx_rtp.specs.Laws.{IsOnePacket, IsPacketOrFault, SpellsItself, IsSpelled, ReadsPackets};

/// The laws of the grammar of RTP packets (RFC 3550 5.1). The function does nothing.
///
/// Octets are one packet at most. Octets, each below 256, are a packet exactly if no fault applies; so those that are
/// none have exactly one first fault. What a packet spells is that packet, and if the padding octets other than the
/// last are 0, the octets are what the packet spells. Reading gives a packet exactly if the octets are the packet.
pub fn one_reading()
    ensures same_packet { IsOnePacket }
    ensures packet_or_fault { IsPacketOrFault }
    ensures spelled_packet { SpellsItself }
    ensures packet_spelled { IsSpelled }
    ensures read_packet { ReadsPackets }
{}
