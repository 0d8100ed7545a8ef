//! Reads captures.
//!
//! A capture is lines of text, each ended by a line feed:
//!
//! ```text
//! vrx 1 codec=vp8 ssrc=00c0ffee pt=96 from=12345678
//! # a datagram at 20 milliseconds, and a pull at 40
//! d 20 80e000010000006400c0ffee1000
//! p 40
//! ```
//!
//! `specs/Line.antt` says what each line may hold and the limits on them, and `specs/Reading.antt` what the lines
//! give together; `specs/Readings.antt` and [`readings_are`] say that again by what each line is. [`Lines`] reads a
//! capture from a source, event after event, in a memory that doesn't grow with it: begin with [`Lines::head`] and
//! [`read_settings`], and go on with [`Lines::next`]. `specs/Reader.antt` says what they answer, and [`lines_join`]
//! how the answers of several calls join.
#![tactic(auto)]

mod buffer;
mod laws;
mod line;
mod lines;
mod settings_laws;
mod settings_line;
#[cfg(test)]
mod tests;
mod words;

pub use laws::{lines_join, lines_mean, one_line, readings_are, reasons_mean};
pub use line::{LineKind, LineReason, read_line};
pub use lines::{HeadFault, Line, LineFault, Lines};
pub use settings_laws::settings_lines_mean;
pub use settings_line::{CodecName, read_settings};
