//! Makes the plan of what a packet rebuilds.

ghost use Rattle.std.specs.Prelude.{◌≡◌, ℕ, false, All, IfOk};
ghost use Rattle.vrx_window.specs.Content.{is_fec, is_fec_held};
ghost use Rattle.vrx_window.specs.Sound.{AreSound, IsSound};
ghost use Rattle.vrx_window.specs.Window.{at, would_of};
ghost use Rattle.vrx_window.specs.declared.placing.Placing.TheVariants.{Fresh};
ghost use Rattle.vrx_repair.specs.Plan.{IsPlan, SaysItsText, entries_of, numbers_of, placed, repairs_in};
ghost use Rattle.vrx_repair.specs.Source.{source_of};

use crate::planned::Plan;
use crate::reading::Reading;
use crate::repair::Repair;
use crate::seen::Seen;
use crate::step::first_step;
use std::alloc::Global;
use vrx_codec::Codec;
use vrx_num::limits::WINDOW;
use vrx_num::{NoMemory, Numbers};
use vrx_window::{Held, Window};

/// Whether a FEC packet is held in the window, or is the one to be placed. Without one nothing is rebuilt.
fn is_fec_there(window: &Window, held: &Held) -> bool
    ensures placed { result ≡ false → is_fec held.now ≡ false }
    ensures held { result ≡ false → (k : ℕ) → is_fec_held (at k window.now.packets) ≡ false }
{
    // Called for its contract: what always holds of a window.
    let _newest = window.newest();
    held.is_fec() || window.next_fec(0).is_some()
}

/// The plan of a packet whose number is fresh. It changes nothing, and takes all the memory that [`Plan::commit`]
/// needs.
#[inline(always)]
pub fn plan<C: Codec>(
    alloc: Global,
    window: &Window,
    n: u64,
    held: &Held,
    reading: &Reading<C>,
) -> Result<Plan, NoMemory>
    requires fresh { would_of window.now n ≡ Fresh }
    requires sound { AreSound C.meaning window.now.packets }
    requires says { IsSound C.meaning held.now }
    ensures plan { let source = source_of C.meaning reading.now.media_ssrc reading.now.media_type in
        IfOk result (λ plan. IsPlan source n held.now window.now plan) }
{
    // Called for its contract: what always holds of a window.
    let _newest = window.newest();
    if !is_fec_there(window, held) {
        return Ok(Plan {
            repairs: Vec::new(alloc),
            numbers: Numbers::new(alloc),
        });
    }
    let repairs = repairs_of::<C>(alloc, window, n, held, reading)?;
    let numbers = numbers_of(alloc, repairs.as_slice())?;
    Ok(Plan { repairs, numbers })
}

/// The repairs: step after step, always that of the least number, until none is left.
#[inline(never)]
fn repairs_of<C: Codec>(
    alloc: Global,
    window: &Window,
    n: u64,
    held: &Held,
    reading: &Reading<C>,
) -> Result<Vec<Repair>, NoMemory>
    requires fresh { would_of window.now n ≡ Fresh }
    requires sound { AreSound C.meaning window.now.packets }
    requires says { IsSound C.meaning held.now }
    ensures entries { let source = source_of C.meaning reading.now.media_ssrc reading.now.media_type in
        IfOk result (λ made. entries_of made.items ≡ repairs_in source (placed n held.now window.now)) }
    ensures sound { IfOk result (λ made. All (SaysItsText C.meaning) made.items) }
{
    // Called for its contract: what always holds of a window.
    let _newest = window.newest();
    let mut made = Vec::new(alloc);
    for _ in 0..WINDOW {
        let seen = Seen {
            window,
            number: n,
            held,
            made: made.as_slice(),
        };
        match first_step::<C>(alloc, &seen, reading)? {
            None => return Ok(made),
            Some(repair) => made.push(repair)?,
        }
    }
    Ok(made)
}

/// The numbers of repairs.
fn numbers_of(alloc: Global, repairs: &[Repair]) -> Result<Numbers, NoMemory>
    ensures { IfOk result (λ numbers. numbers ≡ numbers_of repairs.now) }
{
    let mut numbers = Numbers::new(alloc);
    for repair in repairs {
        numbers.push(repair.number)?;
    }
    Ok(numbers)
}
