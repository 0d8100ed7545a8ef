//! Rebuilding one packet (RFC 5109 9).

ghost use Rattle.std.specs.Prelude.{◌≡◌, ◌+◌, ◌<◌, ◌≤◌, true, false, length, None, IfOk, IfSome};
ghost use Rattle.std.specs.Option.{option_map, option_and_then};
ghost use Rattle.std.specs.Result.{result_ok};
ghost use Rattle.vrx_num.specs.declared.limits.TheConstants.{MOST_OCTETS};
ghost use Rattle.vrx_fec.specs.Mask.{width};
ghost use Rattle.vrx_fec.specs.Payload.{protected};
ghost use Rattle.vrx_fec.specs.Rebuilt.{rebuilt};
ghost use Rattle.vrx_fec.specs.View.{view};
ghost use Rattle.vrx_repair.specs.Seen.{AreNumbers, ArePackets, HasAdded, others_from, packets_by};
ghost use Rattle.vrx_repair.specs.Step.{others_of, texts_at};

use crate::offsets::{protects, width};
use crate::seen::{Seen, Sight, look};
use std::alloc::Global;
use vrx_fec::{Fec, Register};
use vrx_num::NoMemory;

/// Adds the text under an offset, if level 0 names the offset and it isn't the missing one. The answer is `false` if
/// what stands there is no media.
fn add_other(
    register: &mut Register,
    seen: &Seen<'_>,
    base: u64,
    fec: &Fec<'_>,
    missing: u8,
    offset: u8,
) -> bool
    requires numbers { AreNumbers base (view fec.now) }
    requires packets { ArePackets (packets_by seen.now) }
    requires within { offset < width (view fec.now).long }
    requires later { HasAdded (packets_by seen.now) base (view fec.now) missing (offset + 1) register.old }
    ensures added { result ≡ true → HasAdded (packets_by seen.now) base (view fec.now) missing offset register.new }
    ensures lost { result ≡ false →
        texts_at (packets_by seen.now) base (others_from (view fec.now) missing offset) ≡ None }
{
    if offset == missing || !protects(fec, offset) {
        return true;
    }
    match look(seen, base + u64::from(offset)) {
        Sight::Media(text) => {
            register.add(fec, offset, text);
            true
        }
        Sight::Nothing => false,
        Sight::Fec(_) => false,
        Sight::Empty => false,
    }
}

/// The text that a FEC payload rebuilds under one of its offsets, if the others are media, and the rebuilt length is
/// neither too great nor more than is covered.
pub(crate) fn rebuild(
    alloc: Global,
    seen: &Seen<'_>,
    base: u64,
    fec: &Fec<'_>,
    missing: u8,
    ssrc: u32,
) -> Result<Option<Vec<u8>>, NoMemory>
    requires numbers { AreNumbers base (view fec.now) }
    requires packets { ArePackets (packets_by seen.now) }
    ensures text { IfOk result (λ text. option_map (λ t. t.items) text ≡ option_and_then
        (λ others. result_ok (rebuilt (view fec.now) others missing ssrc))
        (texts_at (packets_by seen.now) base (others_of missing (protected (view fec.now))))) }
    ensures size { IfOk result (λ text. IfSome text (λ t. length t.items ≤ MOST_OCTETS)) }
{
    let mut register = Register::start(alloc, fec)?;
    let bits = width(fec.long);
    for k in 0..bits {
        let offset = bits - 1 - k;
        if !add_other(&mut register, seen, base, fec, missing, offset) {
            return Ok(None);
        }
    }
    match register.finish(fec, missing, ssrc) {
        Ok(text) => Ok(Some(text)),
        Err(_) => Ok(None),
    }
}
