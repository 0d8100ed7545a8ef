//! What the definitions mean, beside how they are written. A law runs nothing: its clause is what it is for.

ghost use Rattle.vrx_core.specs.machine.Answers.{AnswersHold};
ghost use Rattle.vrx_core.specs.machine.Available.{AvailableHolds, ClosedHolds};
ghost use Rattle.vrx_core.specs.machine.Clock.{ClockHolds};
ghost use Rattle.vrx_core.specs.machine.Passed.{NonePassedHolds, PassedExactlyHolds, PassedStaysHolds};
ghost use Rattle.vrx_core.specs.machine.PulledRise.{PulledRiseHolds};
ghost use Rattle.vrx_core.specs.machine.Reasons.{ReasonsHolds};
ghost use Rattle.vrx_core.specs.machine.ReferencesPulled.{ReferencesPulledHolds};
ghost use Rattle.vrx_core.specs.machine.Text.{TextsHold};

use vrx_fec::one_payload;
use vrx_frames::runs_are;
use vrx_num::extended_is_near;
use vrx_refs::follows_references;
use vrx_repair::repairs_are;
use vrx_rtcp::one_answer;
use vrx_rtp::one_reading;
use vrx_wrap::{one_block, one_original};

/// Each answer to a datagram comes exactly if it should, of octets below 256, and beside a newest number of 32,768 or
/// more, if there is one.
///
/// What octets get by themselves, whatever came before: `TooLong`, they are more than 9,216; `BadRtcp`, they are RTCP
/// and have a fault; `Rtcp`, they are RTCP packets to their end; `NotRtp`, they are shorter than a header or of
/// another version; `BadHeader`, what their header counts runs past their end; `OtherSsrc`, they are a packet of
/// another SSRC than those of media and of retransmissions; `OtherType`, they are a packet of the media SSRC, whose
/// payload type is neither that of media nor that of RED; `NoApt`, they are a packet of the SSRC of retransmissions
/// (RFC 4588 4), whose payload type isn't one of theirs; `RtxEmpty`, they are a retransmission, and its payload has
/// fewer than the two octets of the original's number.
///
/// Else they bring a packet of the media source: itself, or the original of a retransmission. If it is in RED
/// (RFC 2198 3): `MoreBlocks`, it has more than one block; `BadRed`, its one block has another payload type than those
/// of media and of FEC. Else they bring a packet of the stream: that packet, out of RED. `BadFec`, the block is of the
/// FEC type, and reads as no FEC payload (RFC 5109 7); `BadPart`, its payload isn't empty, and the codec's reader finds
/// a fault of this code in it.
///
/// Then `TooFar`: that packet's sequence number lies just half of the number space away from the newest number.
/// `TooOld`: its extended number lies 2,048 or more below the newest. `Dead`: not that, and the number was given up.
/// `Repeat`: neither, and the number is available. Otherwise the datagram is taken: as `Fec` if the
/// block is of the FEC type, by its payload; as `Empty` without a payload; and else as `Media`, by the text of its
/// packet.
pub fn reasons_mean()
    ensures reasons { ReasonsHolds }
{
    // Each call cites the laws that the proof needs, and runs nothing.
    extended_is_near();
    one_reading();
    one_answer();
    one_original();
    one_block();
    one_payload();
}

/// What is kept of a datagram, of octets below 256 that read as a packet: its text reads as the packet without its
/// padding (RFC 3550 5.1: P = 0), is the datagram itself if that has no padding, and has octets below 256.
pub fn texts_are()
    ensures texts { TextsHold }
{
    one_reading();
}

/// The answer to a pull: `NotReady` exactly if no run that stands is deliverable, and else the deliverable run with
/// the least first number.
pub fn answers_are()
    ensures answers { AnswersHold }
{}

/// A frame with layers that isn't key goes out only if it is known to which frames it refers, and each of them was
/// pulled (RFC 7741 4.2). A base lies at most 255 pictures below its frame, and a picture on the way back that wasn't
/// seen leaves references unknown: those are laws of `vrx_refs`.
pub fn references_pulled()
    ensures pulled { ReferencesPulledHolds }
{
    follows_references();
}

/// The frames pulled rise: each begins beyond the last number of the frame pulled before it.
pub fn pulled_rise()
    ensures rise { PulledRiseHolds }
{
    runs_are();
}

/// A number is available exactly if a datagram was taken under it, or it was repaired with one (RFC 5109 9), and it
/// lies in the window after the newest number. What is available is what that datagram brought, or the repair.
pub fn available_are()
    ensures available { AvailableHolds }
{}

/// No step is left after any event: the repairs are made to their end (RFC 5109 9).
pub fn none_left()
    ensures closed { ClosedHolds }
{
    // The law cited here: after the repairs of packets within a window no number has a step.
    repairs_are();
}

/// A number that is passed stays passed.
pub fn passed_stays()
    ensures stays { PassedStaysHolds }
{}

/// No number is passed before the first frame is pulled.
pub fn none_passed()
    ensures none { NonePassedHolds }
{}

/// Once a frame was pulled, the passed numbers are those up to the greater of the front before the event and the last
/// number pulled, and on over available numbers that are no media, without a gap.
pub fn passed_exactly()
    ensures exactly { PassedExactlyHolds }
{}

/// The machine's clock is the greatest moment of the events, and 0 before the first. Moments may go back, it
/// doesn't.
pub fn clock_is()
    ensures clock { ClockHolds }
{}
