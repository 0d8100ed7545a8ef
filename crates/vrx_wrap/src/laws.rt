//! What holds of the definitions themselves.

ghost use Rattle.vrx_wrap.specs.Laws.{HasOneBlock, FailsEmpty, FailsMoreBlocks, ReadsRedAgain, FitsRed, ReadsRedOctets, HasOneOriginal, FailsNoApt, FailsRtxEmpty, ReadsRtxAgain, FitsRtx, ReadsRtxOctets};

use vrx_rtp::one_reading;

/// The laws of RED with one block (RFC 2198 3). The function does nothing.
///
/// The block of a payload is the one that the payload has the form of. A payload has `Empty` exactly if it has no
/// octet, and `MoreBlocks` exactly if F is 1 in its first octet. A packet wrapped in RED has its own type and payload
/// as its block. It fits its octets if the packet did, and these are read as it.
pub fn one_block()
    ensures one { HasOneBlock }
    ensures empty { FailsEmpty }
    ensures more_blocks { FailsMoreBlocks }
    ensures again { ReadsRedAgain }
    ensures fits { FitsRed }
    ensures octets { ReadsRedOctets }
{
    one_reading(); // cites the laws of packets, and does nothing
}

/// The laws of retransmissions (RFC 4588 4). The function does nothing.
///
/// The original of a retransmission is the one packet that it has the form of. A packet has `NoApt` exactly if no
/// pair has its type, and `RtxEmpty` exactly if one does and the payload has fewer than two octets. The original of a
/// packet's retransmission is the packet, without padding. A retransmission fits its octets if the packet did, and
/// these are read as it.
pub fn one_original()
    ensures one { HasOneOriginal }
    ensures no_apt { FailsNoApt }
    ensures rtx_empty { FailsRtxEmpty }
    ensures again { ReadsRtxAgain }
    ensures fits { FitsRtx }
    ensures octets { ReadsRtxOctets }
{
    one_reading(); // cites the laws of packets, and does nothing
}
