//! Reads and writes what wraps a packet's payload: RED with one block (RFC 2198 3), and retransmissions (RFC 4588 4).
//!
//! ```text
//!  0 1 2 3 4 5 6 7
//! +-+-+-+-+-+-+-+-+
//! |F|  block PT   |   the payload of RED with one block: F = 0, the block's payload type, and the block to the end
//! +-+-+-+-+-+-+-+-+
//! :     block     :
//! +-+-+-+-+-+-+-+-+
//!
//!  0                   1
//!  0 1 2 3 4 5 6 7 8 9 0 1 2 3 4 5
//! +-+-+-+-+-+-+-+-+-+-+-+-+-+-+-+-+
//! |  original's sequence number   |   the payload of a retransmission
//! +-+-+-+-+-+-+-+-+-+-+-+-+-+-+-+-+
//! :     original's payload        :
//! +-+-+-+-+-+-+-+-+-+-+-+-+-+-+-+-+
//! ```
//!
//! [`red_read`] and [`rtx_read`] take a packet out, and take no memory. [`red_wrap`] and [`rtx_wrap`] undo them.
//! `specs/Red.antt` and `specs/Rtx.antt` have the definitions, on packets as `vrx_rtp` defines them.
//! [`one_block`] and [`one_original`] have the laws.
#![tactic(auto)]

mod apt;
mod laws;
mod red;
mod rtx;

pub use apt::Apt;
pub use laws::{one_block, one_original};
pub use red::{Block, RedFault, red_read, red_wrap};
pub use rtx::{RtxFault, rtx_read, rtx_wrap};

#[cfg(test)]
mod tests;
