//! The faults of VP8 payloads, by their numbers. Both are told at the payload's end.

/// The descriptor runs past the end.
pub const SHORT: u8 = 1;

/// Nothing follows the descriptor.
pub const NO_BODY: u8 = 2;
