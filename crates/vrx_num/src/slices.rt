//! The front of some octets, and what is after it.

ghost use Rattle.std.specs.Prelude.{◌≡◌, ◌≤◌, length, take, drop};

/// The octets from a place on: none if they end before it.
pub fn from(octets: &[u8], n: usize) -> &[u8]
    ensures octets { result.now ≡ drop n octets.now }
{
    if n < octets.len() { &octets[n..] } else { &[] }
}

/// The octets before a place.
pub fn upto(octets: &[u8], n: usize) -> &[u8]
    requires within { n ≤ length octets.now }
    ensures octets { result.now ≡ take n octets.now }
{
    &octets[..n]
}
