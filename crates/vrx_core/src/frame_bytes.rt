//! The bytes of a frame: what the parts of its packets join to (RFC 7741 4.1, RFC 6184 5.2).

ghost use Rattle.std.specs.Prelude.{◌≡◌, Ok, IfOk};
ghost use Rattle.vrx_window.specs.Content.{contents};
ghost use Rattle.vrx_core.specs.inside.Joins.{IsJoinable, join_of};

use std::alloc::Global;
use vrx_codec::{BEGINNING, Codec, Run};
use vrx_frames::part_at;
use vrx_num::NoMemory;
use vrx_window::Window;

/// What the packets of a run join to. Each is read once.
pub(crate) fn frame_bytes<C: Codec>(
    alloc: Global,
    window: &Window,
    run: Run,
) -> Result<Vec<u8>, NoMemory>
    requires joinable { IsJoinable C.meaning window.now.packets run }
    ensures joined { IfOk result (λ out. join_of C.meaning (contents window.now.packets) run.first run.last ≡ Ok out.items) }
{
    let mut out = Vec::with_capacity(alloc, run.octets as usize)?;
    let mut state = BEGINNING;
    let count = run.last + 1 - run.first;
    for k in 0..count {
        let part = part_at::<C>(window, run.first + k);
        let Ok(next) = C::step(state, &part) else {
            unreachable!()
        };
        C::append(state, &part, &mut out);
        state = next;
    }
    Ok(out)
}
