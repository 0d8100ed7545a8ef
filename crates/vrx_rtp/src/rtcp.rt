//! RTP or RTCP.

ghost use Rattle.std.specs.Prelude.{◌≡◌, ◌↔◌, IsTrue};
ghost use Rattle.vrx_rtp.specs.Rtcp.{IsRtcp, is_rtcp as is_rtcp_of};

/// Whether a datagram is RTCP, if RTP and RTCP share a port (RFC 5761 4): it has at least 2 octets, and the second is
/// 192 to 223. Every other datagram is read as RTP.
pub fn is_rtcp(datagram: &[u8]) -> bool
    ensures exactly { IsTrue result ↔ IsRtcp datagram.now }
    ensures value { result ≡ is_rtcp_of datagram.now }
{
    match datagram {
        [_, kind, ..] => *kind >= 192 && *kind <= 223,
        _ => false,
    }
}
