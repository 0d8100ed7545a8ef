//! What is put after a text: octets, numbers in decimal, octets in hexadecimal digits.

ghost use Rattle.std.specs.Prelude.{◌≡◌, ◌+◌, ◌*◌, ◌++◌, ◌≤◌, drop, length, take, OnOk};
ghost use Rattle.std.specs.Fmt.{decimal};
ghost use Rattle.hex.specs.Hex.{encode_lower};
ghost use Rattle.vrx_text.specs.Keeps.{Keeps};

use itoa::Buffer;
use vrx_num::NoMemory;

/// Puts octets last.
#[tactic(auto, using(crate::proofs::KeepsLemmas::keeps_same, crate::proofs::KeepsLemmas::keeps_more))]
pub(crate) fn push_octets(text: &mut Vec<u8>, octets: &[u8]) -> Result<(), NoMemory>
    ensures ok { OnOk result (text.new.items ≡ text.old.items ++ octets.now) }
    ensures kept { Keeps text.old.items text.new.items }
{
    match text.extend_from_slice(octets) {
        Ok(()) => Ok(()),
        Err(_) => Err(NoMemory),
    }
}

/// Puts a number last, in decimal.
pub(crate) fn push_number(text: &mut Vec<u8>, n: u64) -> Result<(), NoMemory>
    ensures ok { OnOk result (text.new.items ≡ text.old.items ++ decimal n) }
    ensures kept { Keeps text.old.items text.new.items }
{
    let mut buffer = Buffer::new();
    push_octets(text, buffer.format(n).as_bytes())
}

/// Writes the hexadecimal digits of octets into a text from a place on, up to its end.
fn write_digits(octets: &[u8], text: &mut [u8], at: usize)
    requires { length text.old ≡ at + 2 * length octets.now }
    ensures front { take at text.new ≡ take at text.old }
    ensures digits { drop at text.new ≡ encode_lower octets.now }
{
    hex::encode_to_slice(octets, &mut text[at..]).unwrap();
}

/// Takes the memory for so many more octets.
fn make_room(text: &mut Vec<u8>, more: usize) -> Result<(), NoMemory>
    ensures same { text.new.items ≡ text.old.items }
{
    match text.reserve_exact(more) {
        Ok(()) => Ok(()),
        Err(_) => Err(NoMemory),
    }
}

/// Makes a text as long as that, with zeros.
#[tactic(auto, using(crate::proofs::KeepsLemmas::keeps_same, crate::proofs::KeepsLemmas::keeps_front))]
fn fill(text: &mut Vec<u8>, end: usize) -> Result<(), NoMemory>
    requires { length text.old.items ≤ end }
    ensures len { OnOk result (length text.new.items ≡ end) }
    ensures front { take (length text.old.items) text.new.items ≡ text.old.items }
    ensures kept { Keeps text.old.items text.new.items }
{
    match text.resize(end, 0) {
        Ok(()) => Ok(()),
        Err(_) => Err(NoMemory),
    }
}

/// Puts the hexadecimal digits of octets in the place of what a text has from a place on.
fn put_digits(text: &mut Vec<u8>, at: usize, octets: &[u8])
    requires { length text.old.items ≡ at + 2 * length octets.now }
    ensures { text.new.items ≡ take at text.old.items ++ encode_lower octets.now }
{
    write_digits(octets, text.as_mut_slice(), at);
}

/// Puts the hexadecimal digits of octets last, and takes the memory for them and one octet more once.
#[tactic(auto, using(crate::proofs::KeepsLemmas::keeps_more))]
pub(crate) fn push_digits(text: &mut Vec<u8>, octets: &[u8]) -> Result<(), NoMemory>
    ensures ok { OnOk result (text.new.items ≡ text.old.items ++ encode_lower octets.now) }
    ensures kept { Keeps text.old.items text.new.items }
{
    let start = text.len();
    let end = start
        .checked_add(octets.len())
        .and_then(|half| half.checked_add(octets.len()))
        .ok_or(NoMemory)?;
    make_room(text, end - start + 1)?;
    fill(text, end)?;
    put_digits(text, start, octets);
    Ok(())
}
