//! What holds of every call. A law runs nothing: its clause is what it is for.

ghost use Rattle.vrx_core.specs.honest.HonestCall.{HonestCallHolds};
ghost use Rattle.vrx_core.specs.honest.HonestRuns.{HonestRunsHolds};
ghost use Rattle.vrx_core.specs.honest.HonestTaken.{HonestTakenHolds};

use vrx_fec::one_payload;
use vrx_frames::runs_are;
use vrx_num::{extended_is_near, picture_is_near};
use vrx_repair::{any_order, repairs_are, true_repairs};
use vrx_rtp::one_reading;
use vrx_wrap::one_original;

/// The honest call. An honest sender sends keyframes and delta frames of any number of packets each, and between the
/// frames packets without a payload and FEC packets, each of which is true parity of media packets before it (RFC 5109
/// 8). An honest network brings what was sent, each packet plain, in RED, sent again, or in RED and sent again (a FEC
/// packet in RED, sent again or not), with padding or without, with loss, repeats and in any order, each packet at most
/// 32,768 places away from the greatest one taken, and beside it only octets that are RTCP or are refused whatever came
/// before. Either no frame has layers, or all have, by the rules of `KeepsLayers`; and each packet with layers that is
/// taken or repaired is of a frame fewer than 16,384 pictures away from the newest before it. Then the frames pulled
/// are frames that were sent, byte for byte, in the order in which they were sent, each at most once, from a keyframe
/// on, and each after its chain and its references; and none of them comes after a packet of it, or of a frame in its
/// chain, was given up. Each pull is answered by the least frame that is ready, and by `NotReady` exactly if none is.
/// Each packet that an event gives up brings a request for a keyframe in the reply to that event, unless a keyframe
/// that begins beyond the packet stands or was pulled, or an earlier request is outstanding and no keyframe completes
/// with the event. It holds for all settings without a fault and every codec's meaning.
pub fn honest_call()
    ensures honest { HonestCallHolds }
{
    // Each call cites the laws that the proof needs, and runs nothing.
    runs_are();
    extended_is_near();
    picture_is_near();
    one_reading();
    one_original();
    one_payload();
    true_repairs();
}

/// What a receiver takes and keeps in an honest call, said in the sender's terms. A datagram of the sender is taken
/// exactly if it is the first, or its packet was neither taken before nor repaired nor given up, lies fewer than 2,048
/// places below the greatest packet taken and fewer than 32,768 above it. If it is taken, it is answered as what it
/// brings, by its packet's number. The packets available are those taken or repaired that lie fewer than 2,048 places
/// below the greatest, each under its number and as it was sent: a media packet octet for octet, without padding, a FEC
/// packet by its payload, and an empty packet as empty. Nothing else is available. The newest number is that of the
/// greatest packet taken. Each place told is that of the frame of its packet: its picture is the sender's and one
/// constant, and on the wire it is as it was sent. In whatever order lost packets are rebuilt from FEC packets, until no
/// more can be, the same packets are available.
pub fn honest_taken()
    ensures taken { HonestTakenHolds }
{
    // Each call cites the laws that the proof needs, and runs nothing.
    extended_is_near();
    picture_is_near();
    one_reading();
    one_original();
    one_payload();
    true_repairs();
    any_order();
    repairs_are();
}

/// The runs of an honest call, after each of its events. Each run that stands is a frame that was sent: it has the
/// numbers of the frame's packets, its timestamp, its kind, its bytes and its layers, the picture in 15 bits. And each
/// frame all of whose packets are available, which lies beyond every frame pulled, and of which it is evident where it
/// begins, is a run that stands.
pub fn honest_runs()
    ensures runs { HonestRunsHolds }
{
    // Each call cites the laws that the proof needs, and runs nothing.
    runs_are();
    extended_is_near();
    picture_is_near();
    one_reading();
    one_original();
    one_payload();
    true_repairs();
}
