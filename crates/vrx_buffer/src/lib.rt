//! The frame buffer of a WebRTC video receiver: the whole frames that came and were not handed out yet.
//!
//! A frame is told by its run: the packets that it has, under successive numbers. [`Frames::next`] gives the deliverable
//! run with the least first number. Whether a run is deliverable, a [`vrx_refs::Finder`] says.
#![tactic(auto)]

mod frames;
mod queue;

pub use frames::Frames;

#[cfg(test)]
mod tests;
