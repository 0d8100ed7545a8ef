//! Replays a call with three threads over one shared receiver.
//!
//! One actor offers the datagrams of a capture, one the ticks and one the pulls, each in the order of its list and each
//! with a seat of its own. [`run_workers`] starts them, waits for all, and gives the texts of the replies in the order
//! of the journal.
#![tactic(auto)]

pub mod actors;
mod calls;
mod gate;
mod lists;
mod pieces;
mod printed;
#[cfg(test)]
mod tests;
mod worker;
mod workers;

pub use gate::{Gate, NoGate};
pub use lists::{LineEvents, Lists};
pub use printed::Printed;
pub use workers::run_workers;
