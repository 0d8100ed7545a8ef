//! Finds the runs that a packet completes: the whole frames among the packets of a receiver's window (RFC 7741 4.1,
//! RFC 6184 5.1).
//!
//! [`Runs::completed`] is told each number that becomes available, and answers the runs that stand from then on.
//! `specs/IsRun.antt` says what a run is, and `specs/Completed.antt` what a call answers. [`part_at`] is the part of a
//! frame that a held packet is.
#![tactic(auto)]

mod arrival;
mod judge;
mod keep;
mod laws;
mod mark;
mod part;
mod runs;
mod search;
mod shape;
#[cfg(test)]
mod tests;

pub use laws::{runs_apart, runs_are, runs_rise};
pub use part::part_at;
pub use runs::Runs;
pub use shape::Shape;
