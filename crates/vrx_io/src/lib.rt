//! Sources and sinks of bytes that tell their content and count their faults.
//!
//! A caller that works over [`Source`] and [`Sink`] can say in its contract which bytes it took and
//! which it gave, and that an error of its own comes from a count of faults that rose. [`put`]
//! writes a whole text to a sink that may take it piece by piece.
//!
//! The crate opens no file, keeps no buffer, retries nothing and says nothing of why a read or a
//! write failed. Look at [`put`] first, then at the two traits.
#![tactic(auto)]

mod failed;
mod memory;
mod sink;
mod source;
mod standard;
mod sure;
#[cfg(test)]
mod tests;

pub use failed::Failed;
pub use memory::{MemSink, MemSource};
pub use sink::{Sink, put};
pub use source::Source;
pub use standard::{ReadOnce, StdSink, StdSource, WriteOnce};
pub use sure::{SureSink, SureSource};
