//! The types of NAL units and of payloads (RFC 6184 5.2, table 1; H.264 7.4.1, table 7-1).

/// The greatest type of a unit as such. The least is 1.
pub const LAST_UNIT: u8 = 23;

/// A slice of an IDR picture.
pub const IDR: u8 = 5;

/// A sequence parameter set.
pub const SEQUENCE: u8 = 7;

/// An aggregate, STAP-A.
pub const STAP_A: u8 = 24;

/// A fragment of a unit, FU-A.
pub const FU_A: u8 = 28;
