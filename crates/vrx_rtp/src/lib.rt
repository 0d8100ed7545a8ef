//! Reads and writes RTP packets (RFC 3550 5.1, 5.3.1), and tells RTCP from RTP (RFC 5761 4).
//!
//! ```text
//!  0                   1                   2                   3
//!  0 1 2 3 4 5 6 7 8 9 0 1 2 3 4 5 6 7 8 9 0 1 2 3 4 5 6 7 8 9 0 1
//! +-+-+-+-+-+-+-+-+-+-+-+-+-+-+-+-+-+-+-+-+-+-+-+-+-+-+-+-+-+-+-+-+
//! |V=2|P|X|  CC   |M|     PT      |       sequence number         |
//! +-+-+-+-+-+-+-+-+-+-+-+-+-+-+-+-+-+-+-+-+-+-+-+-+-+-+-+-+-+-+-+-+
//! |                           timestamp                           |
//! +-+-+-+-+-+-+-+-+-+-+-+-+-+-+-+-+-+-+-+-+-+-+-+-+-+-+-+-+-+-+-+-+
//! |           synchronization source (SSRC) identifier            |
//! +=+=+=+=+=+=+=+=+=+=+=+=+=+=+=+=+=+=+=+=+=+=+=+=+=+=+=+=+=+=+=+=+
//! |     contributing source (CSRC) identifiers: CC of them        |
//! +-+-+-+-+-+-+-+-+-+-+-+-+-+-+-+-+-+-+-+-+-+-+-+-+-+-+-+-+-+-+-+-+
//! |      defined by profile       |        count of words         |   X = 1
//! +-+-+-+-+-+-+-+-+-+-+-+-+-+-+-+-+-+-+-+-+-+-+-+-+-+-+-+-+-+-+-+-+
//! |                     words of the extension                    |
//! +-+-+-+-+-+-+-+-+-+-+-+-+-+-+-+-+-+-+-+-+-+-+-+-+-+-+-+-+-+-+-+-+
//! |                            payload                            |
//! |                                               +-+-+-+-+-+-+-+-+
//! |            padding            |               | padding count |   P = 1
//! +-+-+-+-+-+-+-+-+-+-+-+-+-+-+-+-+-+-+-+-+-+-+-+-+-+-+-+-+-+-+-+-+
//! ```
//!
//! [`read`] takes a datagram apart and takes no memory; [`write`] undoes it. Both cite one grammar,
//! `specs/Packet.antt IsPacket`. The padding octets other than the last are lost, and written as 0.
//!
//! [`one_reading`] has the laws of the grammar.
#![tactic(auto)]

mod fault;
mod laws;
mod reading;
mod rtcp;
mod rtp_view;
mod writing;

pub use fault::{RtpFault, RtpFaultKind};
pub use laws::one_reading;
pub use reading::read;
pub use rtcp::is_rtcp;
pub use rtp_view::{Extension, RtpView};
pub use writing::write;

#[cfg(test)]
mod tests;
