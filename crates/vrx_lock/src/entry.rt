//! What a journal holds.

use vrx_core::Event;

/// One event of a journal, and who offered it.
#[derive(Debug, Drop)]
pub struct Entry {
    /// The actor of the seat that offered it.
    pub actor: u32,
    /// Which of the calls of that seat it was, counted from 1.
    pub turn: u64,
    /// The event.
    pub event: Event,
}
