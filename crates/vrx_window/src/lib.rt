//! The window of a receiver: the packets held under the last 2,048 sequence numbers, and the numbers given up there.
//!
//! Numbers are sequence numbers extended beyond their 16 bits (RFC 3550 A.1). The window ends at the greatest number
//! placed, and a greater one moves it. [`Window::would`] tells what becomes of a number, [`Window::place`] puts a
//! packet under it, [`Window::give_up`] gives it up, and [`Window::held`] looks one up. Contracts see a map from
//! numbers to packets, and a set of numbers given up. [`Ring`] has a value of any type under the numbers of a window.
//! `window_means`, `contents_are`, `contents_are_few` and `sound_stays` are laws about the definitions.
#![tactic(auto)]

mod fate;
mod held;
mod laws;
mod marks;
mod placing;
mod ring;
mod slot;
mod window;

pub use held::Held;
pub use laws::{contents_are, contents_are_few, sound_stays, window_means};
pub use placing::Placing;
pub use ring::Ring;
pub use window::Window;

#[cfg(test)]
mod tests;
