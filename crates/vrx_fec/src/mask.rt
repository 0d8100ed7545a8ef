//! The masks of levels (RFC 5109 7.4).

ghost use Rattle.std.specs.Prelude.{◌≡◌, not, nat_lt};
ghost use Rattle.std.specs.List.{list_all};
ghost use Rattle.vrx_fec.specs.Mask.{is_named, is_within, offsets, width};

/// How many bits a mask has.
pub(crate) fn width(long: bool) -> u16
    ensures { result ≡ width long }
{
    if long { 48 } else { 16 }
}

/// Whether a mask names an offset.
pub(crate) fn is_named(long: bool, mask: u64, offset: u16) -> bool
    ensures { result ≡ is_named long mask offset }
{
    let width = width(long);
    if offset < width {
        (mask >> (width - 1 - offset)) % 2 == 1
    } else {
        false
    }
}

/// Whether a mask names no offset but those that another one names.
pub(crate) fn is_within(mask: u64, other: u64) -> bool
    ensures { result ≡ is_within mask other }
{
    mask & other == mask
}

/// Whether a mask names an offset that isn't below a number.
pub(crate) fn names_from(long: bool, mask: u64, first: u16) -> bool
    ensures { result ≡ not (list_all (λ i. nat_lt i first) (offsets long mask)) }
{
    for offset in first..width(long) {
        if is_named(long, mask, offset) {
            return true;
        }
    }
    false
}
