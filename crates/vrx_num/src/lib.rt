//! Sequence numbers of 16 bits, extended beyond them after RFC 3550 A.1.
//!
//! A packet carries the last 16 bits of its number. [`Extender`] keeps the greatest number taken so
//! far, and `extend` finds the one number that a wire number means beside it: equal modulo 65,536, and
//! nearer than 32,768. Just half of the space away no number is nearer, and `extend` gives none.
//!
//! [`Pictures`] does the same for the PictureID of VP8, of 15 bits (RFC 7741 4.2): it always has an answer, and half
//! of the space away it answers the older picture. [`next8`] and [`before8`] step an index of 8 bits.
//!
//! [`Numbers`] is a list of such numbers, and [`NoMemory`] the error of what fails only for want of memory.
//!
//! [`limits`] names the receiver's limits, each once for all crates, and [`slices`] has the front of some octets
//! and what is after it.
#![tactic(auto)]

mod extender;
mod index;
mod laws;
pub mod limits;
mod no_memory;
mod numbers;
mod pictures;
pub mod slices;

pub use extender::Extender;
pub use index::{before8, next8};
pub use laws::{extended_is_near, picture_is_near};
pub use no_memory::NoMemory;
pub use numbers::Numbers;
pub use pictures::Pictures;

#[cfg(test)]
mod tests;
