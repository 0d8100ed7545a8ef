//! The three actors.

/// The actor that offers the datagrams.
pub const DATAGRAMS: u32 = 1;

/// The actor that offers the ticks.
pub const TICKS: u32 = 2;

/// The actor that offers the pulls.
pub const PULLS: u32 = 3;
