//! The packet types of RTCP (RFC 3550 12.1, RFC 4585 6.1), and the formats of feedback messages.

use vrx_num::limits::WINDOW;

/// A sender report.
pub const SR: u8 = 200;

/// A receiver report.
pub const RR: u8 = 201;

/// A source description.
pub const SDES: u8 = 202;

/// A goodbye.
pub const BYE: u8 = 203;

/// A packet that an application defines.
pub const APP: u8 = 204;

/// Feedback of the transport.
pub const RTPFB: u8 = 205;

/// Feedback of the payload.
pub const PSFB: u8 = 206;

/// The format (FMT) of a generic NACK, which is feedback of the transport (RFC 4585 6.2.1).
pub const FMT_NACK: u8 = 1;

/// The format (FMT) of a picture loss indication, which is feedback of the payload (RFC 4585 6.3.1).
pub const FMT_PLI: u8 = 1;

/// BLP, in an item of a generic NACK, has a bit for each of so many numbers beyond PID (RFC 4585 6.2.1).
pub const BLP_BITS: u64 = 16;

/// The numbers of a generic NACK lie at most so far apart: in the window, below the newest.
pub const NACK_SPAN: u64 = WINDOW - 2;
