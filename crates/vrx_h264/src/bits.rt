//! The bits of a unit's first octet and of a fragment's header, by their values (RFC 6184 1.3, 5.8).

/// F of a unit's first octet: the unit has errors.
pub const BIT_F: u8 = 0x80;

/// S of a fragment's header: the unit begins here.
pub const BIT_S: u8 = 0x80;

/// E of a fragment's header: the unit ends here.
pub const BIT_E: u8 = 0x40;
