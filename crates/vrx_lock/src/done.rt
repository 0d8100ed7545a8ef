//! What the calls answer.

use thiserror::Error;
use vrx_core::NewFault;

/// An event was taken.
#[derive(Debug, Drop)]
pub struct Done<T> {
    /// Its place in the journal, counted from 0.
    pub place: u64,
    /// The engine's reply to it, after the events at the places before.
    pub reply: T,
}

/// Why a receiver isn't made.
#[derive(Clone, Copy, Debug, PartialEq, Eq, Error)]
pub enum ReceiverFault {
    /// The engine refuses the settings, for this fault of theirs. It is never `NewFault::NoMemory`.
    #[error("the settings have a fault")]
    Settings(NewFault),
    /// The room is for no event, or for more than 65,536.
    #[error("the room is 0 or above 65,536")]
    BadRoom,
    /// No memory was to be had.
    #[error("out of memory")]
    NoMemory,
}

/// Why a datagram or a pull isn't in the journal.
#[derive(Clone, Copy, Debug, PartialEq, Eq, Error)]
pub enum OfferFault {
    /// Another call has the turn.
    #[error("another call has the turn")]
    Busy {
        /// The turn word that this call found: one more than the actor that has the turn.
        holder: u64,
    },
    /// The journal has all the entries that it takes.
    #[error("the journal is full")]
    JournalFull,
    /// No memory was to be had.
    #[error("out of memory")]
    NoMemory,
}

/// Why a tick isn't in the journal.
#[derive(Clone, Copy, Debug, PartialEq, Eq, Error)]
pub enum TickFault {
    /// Another call has the turn.
    #[error("another call has the turn")]
    Busy {
        /// The turn word that this call found: one more than the actor that has the turn.
        holder: u64,
    },
    /// The journal has all the entries that it takes.
    #[error("the journal is full")]
    JournalFull,
}
