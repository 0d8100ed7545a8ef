//! The receiver's limits. They are this project's own.

/// How many sequence numbers the window has: the newest and those below it.
pub const WINDOW: u64 = 2_048;

/// A datagram has at most so many octets.
pub const MOST_OCTETS: usize = 9_216;

/// A number this far from the newest, or farther, has no place beside it: half of the 16 bits (RFC 3550 A.1).
pub const HALF_SPACE: u64 = 32_768;

/// How many pictures a PictureID of 15 bits tells apart (RFC 7741 4.2).
pub const PICTURES: u64 = 32_768;

/// Half of the space of 15 bits: a picture this far from the newest is read as older, never as newer.
pub const HALF_PICTURES: u64 = 16_384;

/// An engine takes at most so many events.
pub const MOST_EVENTS: u32 = 1_048_576;

/// The longest interval between two requests of a number, in milliseconds.
pub const LONGEST_INTERVAL: u32 = 60_000;

/// A missing number is asked for at most so often.
pub const MOST_REQUESTS: u64 = 10;

/// A keyframe is asked for again only this long after the last time, in milliseconds, unless one completed since then.
pub const KEY_REQUEST_WAIT: u64 = 300;
