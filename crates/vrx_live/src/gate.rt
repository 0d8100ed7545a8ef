//! What is called before and after each call of a worker.

/// Sees the calls of the workers, in the worker's thread. A gate that waits holds its worker.
pub trait Gate {
    /// The actor is about to offer the event of this turn, which counts from 1. It doesn't have the turn of the receiver.
    fn before(&self, actor: u32, turn: u64);

    /// The actor's offer was answered, and not by `Busy`.
    fn after(&self, actor: u32, turn: u64);
}

/// The gate that does nothing.
#[derive(Clone, Copy, Debug)]
pub struct NoGate;

impl Gate for NoGate {
    fn before(&self, _actor: u32, _turn: u64) {}

    fn after(&self, _actor: u32, _turn: u64) {}
}
