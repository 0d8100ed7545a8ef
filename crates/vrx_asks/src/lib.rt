//! The sequence numbers that a receiver misses, how often each was asked for, and the requests for a keyframe.
//!
//! Numbers are sequence numbers extended beyond their 16 bits (RFC 3550 A.1), and moments are in milliseconds.
//! [`Asks::due`] says which numbers a generic NACK asks for (RFC 4585 6.2.1) and which are given up, and
//! [`KeyAsk::decide`] says whether a picture loss indication is sent (RFC 4585 6.3.1). No clock is read.
#![tactic(auto)]

mod ask;
mod asks;
mod due;
mod key_ask;

pub use ask::Ask;
pub use asks::Asks;
pub use due::Due;
pub use key_ask::KeyAsk;

#[cfg(test)]
mod tests;
