//! What no clause says: there is memory for a call, frames come out of it, and the engine may go to another thread.

mod engine;
mod silent;
mod using;
