//! The bits of the payload descriptor, by their values (RFC 7741 4.2).

/// X of the first octet: an octet of extension flags follows.
pub const BIT_X: u8 = 0x80;

/// S of the first octet: a partition of the frame begins here, the first one if PID is 0.
pub const BIT_S: u8 = 0x10;

/// I of the flags: PictureID comes.
pub const BIT_I: u8 = 0x80;

/// L of the flags: TL0PICIDX comes.
pub const BIT_L: u8 = 0x40;

/// T of the flags: the octet of TID, Y and KEYIDX comes, and TID says something.
pub const BIT_T: u8 = 0x20;

/// K of the flags: the octet of TID, Y and KEYIDX comes, and KEYIDX says something.
pub const BIT_K: u8 = 0x10;

/// M of PictureID: it has 15 bits, and its low eight follow in one more octet.
pub const BIT_M: u8 = 0x80;

/// Y of the octet of TID, Y and KEYIDX.
pub const BIT_Y: u8 = 0x20;
