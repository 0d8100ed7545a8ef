//! Reads RTCP packets and compounds of them, and writes the feedback that a receiver sends (RFC 3550 6.1 and 6.4 to
//! 6.6, RFC 4585 6.1 to 6.3.1).
//!
//! ```text
//!  0                   1                   2                   3
//!  0 1 2 3 4 5 6 7 8 9 0 1 2 3 4 5 6 7 8 9 0 1 2 3 4 5 6 7 8 9 0 1
//! +-+-+-+-+-+-+-+-+-+-+-+-+-+-+-+-+-+-+-+-+-+-+-+-+-+-+-+-+-+-+-+-+
//! |V=2|P|count/FMT|      PT       |            length             |
//! +-+-+-+-+-+-+-+-+-+-+-+-+-+-+-+-+-+-+-+-+-+-+-+-+-+-+-+-+-+-+-+-+
//! :                            content                            :
//! +-+-+-+-+-+-+-+-+-+-+-+-+-+-+-+-+-+-+-+-+-+-+-+-+-+-+-+-+-+-+-+-+
//! :              padding, if P = 1                | padding count |
//! +-+-+-+-+-+-+-+-+-+-+-+-+-+-+-+-+-+-+-+-+-+-+-+-+-+-+-+-+-+-+-+-+
//! ```
//!
//! [`read_packet`] takes one packet apart: sender and receiver reports, goodbyes, generic NACKs and picture
//! loss indications; every other one is told only by its type. What it gives lies where the octets lie, and
//! it takes no memory. [`read_compound`] counts the packets of a datagram. What the report blocks, the reason
//! of a goodbye and source descriptions say is left to others. [`nack_of`] writes a generic NACK, and [`pli`] a
//! picture loss indication.
//!
//! `specs/Packet.antt` is the grammar, and `specs/Fault.antt` says when a packet is refused. `specs/Feedback.antt`
//! has the octets of feedback. [`one_packet`], [`one_answer`] and [`written_reads`] have the laws, which
//! `specs/Laws.antt` states.
#![tactic(auto)]

mod body;
mod compound;
mod fault;
mod feedback;
mod field;
mod laws;
mod packet;
mod reading;
pub mod types;
mod writing;

pub use compound::read_compound;
pub use fault::{RtcpFault, RtcpFaultKind};
pub use feedback::Feedback;
pub use laws::{one_answer, one_packet, written_reads};
pub use packet::{Body, Bye, Nack, Packet, Pli, ReceiverReport, SenderReport};
pub use reading::read_packet;
pub use writing::{nack_of, pli};

#[cfg(test)]
mod tests;
