//! Why a FEC payload is not read.

/// What is wrong with a FEC payload, in the order in which it is tested (RFC 5109 7.3, 7.4). `ManyLevels`,
/// `LevelPastEnd` and `NotNested` are tested level by level, and the first level that has one of them gives it.
#[derive(Clone, Copy, Debug, PartialEq, Eq, thiserror::Error)]
pub enum FecFaultKind {
    /// It has fewer than the 10 octets of a FEC header. The fault is at the payload's end.
    #[error("the FEC header runs past the end")]
    Short,
    /// Octets follow the eighth level. The fault is where they begin.
    #[error("there are more than eight levels")]
    ManyLevels,
    /// A level's header or its octets run past the end. The fault is where the level begins.
    #[error("a level runs past the end")]
    LevelPastEnd,
    /// A level's mask has a bit that the mask of the level before it hasn't. The fault is where the level begins.
    #[error("a level protects what the level before it doesn't")]
    NotNested,
    /// There is no level, or level 0 protects nothing. The fault is at octet 10.
    #[error("nothing is protected")]
    NoneProtected,
    /// SN base is 32,768 or more numbers before the packet's own, or a number that it protects isn't before that. The
    /// fault is at octet 2, where SN base stands.
    #[error("a protected number isn't before the packet's own")]
    AheadOfSelf,
}

/// What is wrong with a FEC payload, and where.
#[derive(Clone, Copy, Debug, PartialEq, Eq, thiserror::Error)]
#[error("{kind}, at octet {at}")]
pub struct FecFault {
    /// What is wrong.
    pub kind: FecFaultKind,
    /// The octet, counted from 0, at which the part begins that is wrong.
    pub at: usize,
}
