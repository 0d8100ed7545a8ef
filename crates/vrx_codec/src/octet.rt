//! An octet's bits.

ghost use Rattle.std.specs.Prelude.{◌≡◌, ◌<◌};
ghost use Rattle.vrx_codec.specs.Octet.{bit as bit_of};

/// The bit of an octet that has this value: 128 for the highest, 1 for the lowest.
pub fn bit(octet: u8, value: u8) -> bool
    requires some { 0 < value }
    ensures value { result ≡ bit_of value octet }
{
    octet / value % 2 == 1
}
