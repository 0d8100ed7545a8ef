//! The receiver's limit. It is this project's own.

/// A receiver takes at most so many events.
pub const MOST_ENTRIES: u32 = 65_536;
