//! What holds of the codecs of a replay. A law runs nothing: its clause is what it is for.

ghost use Rattle.vrx_program.specs.Evident.{Vp8BeginsHolds};

/// Where the frames of VP8 begin. After every history it is evident that a frame of an honest sender of VP8 begins
/// with its first packet, since that packet says so: S = 1 and PID = 0 (RFC 7741 4.2). So such a frame stands
/// complete if each of its packets is available and it lies beyond every frame pulled.
pub fn vp8_begins_evidently()
    ensures begins { Vp8BeginsHolds }
{}
