//! Words and numbers of a line.

ghost use Rattle.std.specs.Prelude.{◌≡◌, ◌<◌, ◌≤◌, ◌^◌, ◌==◌, length, IfSome};
ghost use Rattle.std.specs.List.{position_or_len};
ghost use Rattle.std.specs.Option.{option_map};
ghost use Rattle.vrx_capture.specs.Words.{after_prefix, until_space, after_space, number_in, from_space};

use vrx_num::slices::{from, upto};

/// The place of the first such octet, or the length if there is none.
pub(crate) fn index_of(text: &[u8], octet: u8) -> usize
    ensures place { result ≡ position_or_len (λ o. o == octet) text.now }
    ensures within { result ≤ length text.now }
{
    for (i, o) in text.iter().enumerate() {
        if *o == octet {
            return i;
        }
    }
    text.len()
}

/// The octets before the first space, or all if there is none.
#[tactic(auto, unfolding(crate::specs::Words::until_space))]
pub(crate) fn until_space(text: &[u8]) -> &[u8]
    ensures { result.now ≡ until_space text.now }
{
    upto(text, index_of(text, b' '))
}

/// The octets after the first space: none if there is none.
#[tactic(auto, unfolding(crate::specs::Words::after_space))]
pub(crate) fn after_space(text: &[u8]) -> &[u8]
    ensures { result.now ≡ after_space text.now }
{
    from(text, index_of(text, b' ') + 1)
}

/// What stands after these octets, if the text begins with them.
#[tactic(auto, unfolding(crate::specs::Words::after_prefix))]
pub(crate) fn after_prefix<'a>(prefix: &[u8], text: &'a [u8]) -> Option<&'a [u8]>
    ensures { option_map (λ rest. rest.now) result ≡ after_prefix prefix.now text.now }
{
    let [p, ps @ ..] = prefix else {
        return Some(text);
    };
    let [octet, octets @ ..] = text else {
        return None;
    };
    if *octet == *p {
        after_prefix(ps, octets)
    } else {
        None
    }
}

/// The number that these digits spell in decimal, if it is at most so much.
#[tactic(auto, unfolding(crate::specs::Words::number_in, crate::specs::Words::number_from))]
pub(crate) fn number_in(most: u64, digits: &[u8]) -> Option<u64>
    requires { most < 2 ^ 60 }
    ensures value { result ≡ number_in most digits.now }
    ensures bound { IfSome result (λ n. n ≤ most) }
{
    if digits.is_empty() || (digits[0] == b'0' && digits.len() > 1) {
        return None;
    }
    let mut value = 0;
    for digit in digits {
        if !digit.is_ascii_digit() {
            return None;
        }
        let next = value * 10 + u64::from(*digit - b'0');
        if next > most {
            return None;
        }
        value = next;
    }
    Some(value)
}

/// The octets from the first space on: none if there is none.
#[tactic(auto, unfolding(crate::specs::Words::from_space))]
pub(crate) fn from_space(text: &[u8]) -> &[u8]
    ensures { result.now ≡ from_space text.now }
{
    from(text, index_of(text, b' '))
}
