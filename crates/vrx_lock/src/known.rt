//! What a seat knows. No value of these types is made: contracts see them.

use crate::entry::Entry;
use std::collections::LinkedList;
use vrx_core::Settings;

/// What a receiver is told when it is made: the settings of its engine, and how many events it takes.
#[derive(Clone, Copy)]
pub struct Setup {
    pub settings: Settings,
    pub room: u64,
}

/// A share of the receiver: so many parts of 2 to the power of `depth`. All shares together are one.
pub struct Share {
    pub parts: u64,
    pub depth: u64,
}

/// What a seat knows of its receiver and of its own calls.
pub struct Known {
    pub setup: Setup,
    pub actor: u32,
    /// The journal as far as the seat has seen it.
    pub seen: LinkedList<Entry>,
    /// The places of the seat's calls in the journal, which rise.
    pub places: LinkedList<u64>,
    /// The words that its claims of the turn found.
    pub words: LinkedList<u64>,
    /// The lengths of the journal that its looks found.
    pub counts: LinkedList<u64>,
    pub share: Share,
}
