//! How far back a receiver looks. The first two limits are this project's own.

/// So many pictures are remembered: the newest and those below it.
pub const MEMORY: u64 = 4_096;

/// A reference lies at most so many pictures below the frame.
pub const REACH: u64 = 255;

/// How many temporal layers there are: TID has 2 bits (RFC 7741 4.2).
pub const LAYERS: u8 = 4;

/// How many indexes there are: TL0PICIDX has 8 bits (RFC 7741 4.2).
pub const INDEXES: u64 = 256;
