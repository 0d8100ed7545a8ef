//! What holds of the grammar itself.

ghost use Rattle.vrx_rtcp.specs.Laws.{BeginsWithOne, HasNoFault, HasPacket};
ghost use Rattle.vrx_rtcp.specs.Laws.{IsOneCompound, HasAnswer, HasOneFault, HasNotBoth, PassesCompounds, FailsFaults, ReadsNack, ReadsPli};

/// The laws of packets (RFC 3550 6.4). Octets begin with one packet at most, and it says one thing; if they
/// begin with one there is no fault; and octets, each below 256, that have no fault begin with one. The
/// function does nothing.
pub fn one_packet()
    ensures same_packet { BeginsWithOne }
    ensures packet_reads { HasNoFault }
    ensures packet_or_fault { HasPacket }
{}

/// The laws of compound packets (RFC 3550 6.1). A datagram is a compound in at most one way; octets, each
/// below 256, are a compound or have a first fault; they have one first fault at most, and none if they are
/// a compound. The test `is_compound` passes exactly the compounds, and fails exactly the octets that have a
/// first fault. The function does nothing.
pub fn one_answer()
    ensures one_compound { IsOneCompound }
    ensures some_answer { HasAnswer }
    ensures one_fault { HasOneFault }
    ensures not_both { HasNotBoth }
    ensures passes { PassesCompounds }
    ensures fails { FailsFaults }
{}

/// The laws of feedback (RFC 4585 6.2.1 and 6.3.1): what `nack_of` and `pli` write is read as one packet that says
/// the same, and the items of a NACK name just its numbers, modulo 65,536. The function does nothing.
pub fn written_reads()
    ensures nack { ReadsNack }
    ensures pli { ReadsPli }
{}
