//! Reads and writes the payloads of H.264 (RFC 6184 5.2 to 5.8), and joins the units that they carry to access units.
//!
//! ```text
//!  0 1 2 3 4 5 6 7
//! +-+-+-+-+-+-+-+-+
//! |F|NRI|  Type   |   the first octet of a unit and of a payload
//! +-+-+-+-+-+-+-+-+
//! 1 to 23:  the payload is one unit
//! 24:       STAP-A: units, each after its size in two octets
//! 28:       FU-A: an octet S E R Type, and octets of a unit of that type
//! ```
//!
//! [`H264`] is the codec; [`write_stap`] and [`write_fu`] write what it reads. `specs/IsPayload.antt IsPayload` is
//! the grammar of payloads, and `specs/IsAccessUnit.antt AreUnits` that of the units which parts join to. [`faults`]
//! names the faults, [`types`] the types, and [`bits`] the bits of headers.
#![tactic(auto)]

mod aggregate;
mod append;
pub mod bits;
pub mod faults;
mod h264;
mod joining;
mod laws;
mod nal;
mod payload;
pub mod types;
mod units;
mod writing;

pub use h264::H264;
pub use laws::{aggregate_joins, fragments_join, one_access_unit, one_payload};
pub use units::{Unit, Units};
pub use writing::{WriteFault, write_fu, write_stap};

#[cfg(test)]
mod tests;
