//! What became of a number of the window.

use crate::held::Held;

/// What became of a number that isn't fresh.
#[derive(Debug, Drop)]
pub(crate) enum Fate {
    /// A packet is held under it.
    Taken(Held),
    /// It was given up.
    GivenUp,
}
