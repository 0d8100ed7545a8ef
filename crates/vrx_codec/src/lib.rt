//! What a codec is to a receiver: how a payload reads as a part of a frame, and how parts join to the frame's bytes.
//!
//! [`Codec`] has the calls, which take no memory, and the laws that each codec proves once. A caller's proof has the
//! laws at its bound, as `g.met.C.Codec.joins`.
#![tactic(auto)]

mod codec;
mod fault;
mod join;
mod octet;
mod part;
mod run;

pub use codec::Codec;
pub use fault::{JoinFault, PartFault};
pub use join::{BEGINNING, Join};
pub use octet::bit;
pub use part::{Layers, Part, Start};
pub use run::{Place, Run};
