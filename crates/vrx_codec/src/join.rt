//! How far joining has come.

/// What joining keeps of the parts that were joined. It begins with [`BEGINNING`].
#[derive(Clone, Copy, Debug, PartialEq, Eq)]
pub struct Join {
    /// The first octet of the unit that is open, if a codec's parts carry pieces of units.
    pub unit: Option<u8>,
    /// How many octets they have added.
    pub octets: u32,
}

/// Joining begins with no unit and no octets.
pub const BEGINNING: Join = Join {
    unit: None,
    octets: 0,
};
