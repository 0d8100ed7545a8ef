//! What a worker keeps of each call.

/// The text of the reply to a call.
#[derive(Debug, Drop)]
pub struct Piece {
    /// The place of the call in the journal.
    pub(crate) place: u64,
    /// The number of the line of its event.
    pub(crate) k: u32,
    /// The lines of the reply.
    pub(crate) text: Vec<u8>,
}
