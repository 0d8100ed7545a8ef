//! Makes the lines of transcripts and of inspections.
//!
//! A transcript has the lines of the reply to each event, and an error line if a line of the capture is bad:
//! `specs/Transcript.antt`. [`write_handled`], [`write_tick`] and [`write_pulled`] put these lines after a text, in a
//! buffer that can be used again. [`text_of_handled`], [`text_of_tick`], [`text_of_pulled`] and [`text_of_error`] give
//! them in memory of their own. An inspection has one line for each datagram, of what it is as RTP or RTCP:
//! [`inspect_text`], after `specs/Inspection.antt`. The crate neither runs the receiver nor writes to a sink.
//!
//! Captures are read by `vrx_capture`. Its calls are handed on here, so that a caller who reads captures and writes
//! transcripts needs this crate only.
#![tactic(auto)]

mod inspection;
mod pieces;
#[cfg(test)]
mod tests;
mod transcript;

pub use inspection::inspect_text;
pub use transcript::{
    ErrorReason, text_of_error, text_of_handled, text_of_pulled, text_of_tick, write_handled,
    write_pulled, write_tick,
};
pub use vrx_capture::{
    CodecName, HeadFault, Line, LineFault, LineKind, LineReason, Lines, lines_join, lines_mean,
    one_line, read_line, read_settings, readings_are, reasons_mean, settings_lines_mean,
};
