//! One engine that network, timer and decode threads share.
//!
//! Each thread has a [`Seat`], and offers datagrams, ticks and pulls with it. An offer tries the turn once, and waits
//! for nobody: another call that has the turn answers `Busy`. An offer that is done is one entry of one journal, and its
//! reply is the engine's there. The first call to look at is [`Receiver::new`].
#![tactic(auto)]

mod copy;
mod done;
mod entry;
mod journal;
mod kept;
mod known;
mod law;
mod laws;
pub mod limits;
mod offers;
mod receiver;
mod seat;
mod steps;
#[cfg(test)]
mod tests;
mod view;

pub use done::{Done, OfferFault, ReceiverFault, TickFault};
pub use entry::Entry;
pub use journal::Journal;
pub use laws::journal_replies;
pub use receiver::Receiver;
pub use seat::Seat;
