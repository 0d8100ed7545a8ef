//! Reads and writes the payload descriptor of VP8 (RFC 7741 4.2), and joins the parts of its frames (RFC 7741 4.4).
//!
//! ```text
//!       0 1 2 3 4 5 6 7
//!      +-+-+-+-+-+-+-+-+
//!      |X|R|N|S|R| PID |   S = 1 and PID = 0: the frame begins here
//!      +-+-+-+-+-+-+-+-+
//! X:   |I|L|T|K| RSV   |
//!      +-+-+-+-+-+-+-+-+
//! I:   |M| PictureID   |   M = 1: its low eight bits follow in one more octet
//!      +-+-+-+-+-+-+-+-+
//! L:   |   TL0PICIDX   |
//!      +-+-+-+-+-+-+-+-+
//! T/K: |TID|Y| KEYIDX  |
//!      +-+-+-+-+-+-+-+-+
//! ```
//!
//! [`Vp8`] is the codec, and [`write_part`] writes what it reads. The grammar is `specs/IsDescriptor.antt
//! IsDescriptor`. [`faults`] names the faults, and [`bits`] the descriptor's bits.
#![tactic(auto)]

pub mod bits;
mod descriptor;
pub mod faults;
mod laws;
mod vp8;
mod writing;

pub use laws::one_descriptor;
pub use vp8::Vp8;
pub use writing::write_part;

#[cfg(test)]
mod tests;
