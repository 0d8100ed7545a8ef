//! The fields of the packet at the front of some octets.

ghost use Rattle.std.specs.Prelude.{◌≡◌, ◌+◌, ◌≤◌, length};
ghost use Rattle.vrx_rtcp.specs.Field.{u32_at as u32_there, u64_at as u64_there};

/// The number of 32 bits at `i`.
pub(crate) fn u32_at(octets: &[u8], i: usize) -> u32
    requires { i + 4 ≤ length octets.now }
    ensures { result ≡ u32_there octets.now i }
{
    u32::from_be_bytes([octets[i], octets[i + 1], octets[i + 2], octets[i + 3]])
}

/// The number of 64 bits at `i`.
pub(crate) fn u64_at(octets: &[u8], i: usize) -> u64
    requires { i + 8 ≤ length octets.now }
    ensures { result ≡ u64_there octets.now i }
{
    u64::from_be_bytes([
        octets[i],
        octets[i + 1],
        octets[i + 2],
        octets[i + 3],
        octets[i + 4],
        octets[i + 5],
        octets[i + 6],
        octets[i + 7],
    ])
}
