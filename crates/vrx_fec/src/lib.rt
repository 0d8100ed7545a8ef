//! Reads and makes the payloads of FEC packets, and rebuilds lost packets from them: ULPFEC (RFC 5109 7 to 9).
//!
//! ```text
//!  0                   1                   2                   3
//!  0 1 2 3 4 5 6 7 8 9 0 1 2 3 4 5 6 7 8 9 0 1 2 3 4 5 6 7 8 9 0 1
//! +-+-+-+-+-+-+-+-+-+-+-+-+-+-+-+-+-+-+-+-+-+-+-+-+-+-+-+-+-+-+-+-+
//! |E|L|P|X|  CC   |M| PT recovery |            SN base            |
//! +-+-+-+-+-+-+-+-+-+-+-+-+-+-+-+-+-+-+-+-+-+-+-+-+-+-+-+-+-+-+-+-+
//! |                          TS recovery                          |
//! +-+-+-+-+-+-+-+-+-+-+-+-+-+-+-+-+-+-+-+-+-+-+-+-+-+-+-+-+-+-+-+-+
//! |        length recovery        |   and then each level, to the end:
//! +-+-+-+-+-+-+-+-+-+-+-+-+-+-+-+-+
//! |       protection length       |
//! +-+-+-+-+-+-+-+-+-+-+-+-+-+-+-+-+
//! :              mask             :   16 bits, or 48 if L = 1
//! +-+-+-+-+-+-+-+-+-+-+-+-+-+-+-+-+
//! :             octets            :   as many as the protection length
//! +-+-+-+-+-+-+-+-+-+-+-+-+-+-+-+-+
//! ```
//!
//! [`read_fec`] takes a payload apart. A [`Register`] of it adds up the packets that came, and gives the one that
//! didn't. A [`FecMaker`] makes the payload of a plan. `specs/Payload.antt` has the form of a payload,
//! `specs/Parity.antt` what is true, and `specs/Rebuilt.antt` what is rebuilt. [`one_payload`], [`one_rebuilt`] and
//! [`any_order`] have the laws.
#![tactic(auto)]

mod fault;
mod fec;
mod laws;
mod maker;
mod mask;
mod parity;
mod reading;
mod register;
mod span;

pub use fault::{FecFault, FecFaultKind};
pub use fec::{Fec, Level};
pub use laws::{any_order, one_payload, one_rebuilt};
pub use maker::{FecMaker, LevelPlan};
pub use parity::xor_into;
pub use reading::read_fec;
pub use register::{RecoverFault, Register};

#[cfg(test)]
mod tests;
