//! Indexes of 8 bits, one step on and one back.

ghost use Rattle.std.specs.Prelude.{◌≡◌};
ghost use Rattle.vrx_num.specs.Index.{index_after, index_before};

/// The index after `i`, modulo 256, as TL0PICIDX counts (RFC 7741 4.2).
pub fn next8(i: u8) -> u8
    ensures value { result ≡ index_after i }
    ensures inverse { index_before result ≡ i }
{
    i.wrapping_add(1)
}

/// The index before `i`, modulo 256, as TL0PICIDX counts (RFC 7741 4.2).
pub fn before8(i: u8) -> u8
    ensures value { result ≡ index_before i }
    ensures inverse { index_after result ≡ i }
{
    i.wrapping_sub(1)
}
