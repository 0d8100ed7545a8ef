//! The frames that a frame among temporal layers refers to, as a receiver can know them (RFC 7741 4.2, 4.3).
//!
//! Pictures are PictureIDs extended beyond their 15 bits. A [`Finder`] is told which pictures packets carried and
//! which runs were pulled, and [`Finder::judge`] says for which pictures a run still waits.
#![tactic(auto)]

mod finder;
mod judged;
mod laws;
pub mod limits;
mod sight;
mod sighting;
mod walk;

pub use finder::Finder;
pub use judged::Judged;
pub use laws::{follows_references, references_are};
pub use sighting::Sighting;

#[cfg(test)]
mod tests;
