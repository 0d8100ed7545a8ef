//! What a seat of the table has for its view. No value of these types is made.

use crate::entry::Entry;
use crate::known::Known;
use std::collections::LinkedList;

/// Whether a seat holds the turn, and then the journal of the value that is out with it.
pub enum Hand {
    Idle,
    Holding(LinkedList<Entry>),
}

/// What a seat knows, what it was told at a join until its next look, and its hand.
pub struct View {
    pub known: Known,
    pub told: LinkedList<Entry>,
    pub hand: Hand,
}
