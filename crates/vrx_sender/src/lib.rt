//! A drill: an honest sender of VP8 and a lossy network between it and a receiver, both made from a number.
//!
//! A seed draws the sizes of frames and the fates of their packets (`specs/Draws.antt`). The sender cuts its frames
//! into packets, adds a FEC packet to each frame and sends all of them in RED (`specs/Frames.antt`,
//! `specs/Packets.antt`). The network brings some in time, some late, and some again after they were lost, among
//! ticks and pulls (`specs/Drill.antt`).
//!
//! A [`Drill`] gives the events of one frame after the other, in the memory of a few frames. [`drill_capture`] gives
//! all of them as a capture, and [`drill_sender`] what was sent. [`honest_sender`] has the law that the sender is
//! honest, and [`honest_network`] the law that the network is, if there are at most [`MOST_HONEST_FRAMES`] frames.
#![tactic(auto)]

mod brought;
mod capture;
mod draws;
mod drill;
mod fec;
mod frames;
mod laws;
mod packets;
mod sender;
mod settings;
#[cfg(test)]
mod tests;

pub use capture::{Capture, DrillEvents, drill_capture};
pub use drill::{Drill, MOST_FRAMES};
pub use laws::{MOST_HONEST_FRAMES, honest_network, honest_sender};
pub use sender::{Sender, SentFrame, SentPacket, drill_sender};
pub use settings::drill_settings;
