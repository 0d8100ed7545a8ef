//! The receiver: it takes datagrams, ticks and the decoder's pulls, each with its moment, and gives whole frames.
//!
//! It reads no clock, opens no socket and calls nobody back: time comes in as a number, and all that should
//! happen goes out in the returned value. The rules stand in `specs/machine`: `Machine` puts them together, from a
//! history of events to the reply to the next one. The first call to look at is `Engine::datagram`.
#![tactic(auto)]

mod assembler;
mod count;
mod engine;
mod event;
mod feedback_laws;
mod frame_bytes;
mod front;
mod held;
mod laws;
mod meanings;
mod original;
mod reply;
mod requests;
mod settings;
mod settings_fault;
mod text;
mod verdict;

pub use engine::Engine;
pub use event::{Event, EventBytes};
pub use feedback_laws::{
    asked_are_missing, few_requests, key_requests_apart, losses_ask, lost_stays, missing_are,
    requests_apart,
};
pub use laws::{honest_call, honest_runs, honest_taken};
pub use meanings::{
    answers_are, available_are, clock_is, none_left, none_passed, passed_exactly, passed_stays,
    pulled_rise, reasons_mean, references_pulled, texts_are,
};
pub use reply::{Frame, FrameBytes, Handled, Pulled, Reason, What};
pub use settings::{NewFault, Red, Rtx, Settings};
pub use vrx_num::limits::MOST_EVENTS;
