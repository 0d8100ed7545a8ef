//! The faults of H.264 payloads, and those of joining their parts, by their numbers.

/// A payload without an octet. Told at 0.
pub const EMPTY: u8 = 11;

/// The type of a payload, of a unit or of a fragment isn't one of those. Told at the octet that says it.
pub const KIND: u8 = 12;

/// In a STAP-A a size or a unit runs past the end, or there is no unit. Told at the size.
pub const STAP_PAST_END: u8 = 13;

/// In a STAP-A a size is 0. Told at the size.
pub const STAP_ZERO: u8 = 14;

/// An FU-A without a header. Told at the end.
pub const FU_SHORT: u8 = 15;

/// The header of an FU-A says both that its unit begins and that it ends. Told at the header.
pub const FU_BOTH: u8 = 16;

/// Joining: a later fragment comes while no unit is begun.
pub const FU_NO_START: u8 = 21;

/// Joining: anything but a later fragment comes while a unit is begun, or the parts end then.
pub const FU_NO_END: u8 = 22;

/// Joining: a later fragment is of another type than the unit that is begun.
pub const FU_MIXED: u8 = 23;
