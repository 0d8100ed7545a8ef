//! The window of packets.

ghost use Rattle.std.specs.Prelude.{◌≡◌, true, IfOk};
ghost use Rattle.std.specs.Option.{option_copied};
ghost use Rattle.vrx_window.specs.Content.{is_fec_held, next_fec};
ghost use Rattle.vrx_window.specs.IsWindow.{IsWindow};
ghost use Rattle.vrx_window.specs.Window.{at, after_giving_up, is_inside, nothing, after_placing, would_of};
ghost use Rattle.vrx_window.specs.declared.placing.Placing.TheVariants.{Fresh};

use crate::fate::Fate;
use crate::held::Held;
use crate::marks::{WORDS, mark, next_marked};
use crate::placing::Placing;
use crate::ring::{Ring, is_too_old};
use std::alloc::Global;
use std::marker::Model;
use vrx_num::NoMemory;
use vrx_num::limits::WINDOW;

/// The packets held under the last 2,048 numbers up to the greatest one placed, and the numbers given up there.
///
/// Contracts see the greatest number placed, the first one placed, the packets as a map from numbers, and the numbers
/// given up as a set. What the window has left is gone from both. Its memory is taken once: 2,048 slots. A packet
/// that the window has left gives its memory back when its slot is taken again, or with the window.
#[derive(Drop)]
pub struct Window {
    first: Option<u64>,
    ring: Ring<Fate>,
    marks: [u64; WORDS],
    has_fec: bool,
}

impl Model for Window {
    ghost use Rattle.vrx_window.specs.Window.{Contents};
    ghost use Rattle.vrx_window.specs.declared.held.Held.{Held};

    ghost Value = { Contents Held };

    ghost use Rattle.vrx_window.specs.Fates.{window_of};
    ghost use Rattle.vrx_window.specs.Marks.{IsMarked};

    ghost view = { λ a. window_of a.first a.ring };

    ghost invariant = { λ a. IsMarked a.ring a.marks a.has_fec };
}

impl Window {
    /// A window in which nothing was placed yet. Only this call takes memory.
    pub fn new(alloc: Global) -> Result<Window, NoMemory>
        ensures nothing { IfOk result (λ window. window ≡ nothing) }
    {
        let ring = Ring::new(alloc)?;
        Ok(Window {
            first: None,
            ring,
            marks: [0; WORDS],
            has_fec: false,
        })
    }

    /// The greatest number placed. Its contract also says what always holds of a window.
    pub fn newest(&self) -> Option<u64>
        ensures newest { result ≡ self.now.newest }
        ensures sound { IsWindow self.now }
    {
        self.ring.newest()
    }

    /// The first number placed.
    pub fn first(&self) -> Option<u64>
        ensures first { result ≡ self.now.first }
    {
        self.first
    }

    /// The packet held under a number, if the number is in the window and has one.
    pub fn held(&self, n: u64) -> Option<&Held>
        ensures held { option_copied result ≡ at n self.now.packets }
    {
        match self.ring.get(n) {
            Some(Fate::Taken(held)) => Some(held),
            Some(Fate::GivenUp) => None,
            None => None,
        }
    }

    /// The least number from one on under which a FEC packet is held.
    pub fn next_fec(&self, from: u64) -> Option<u64>
        ensures next { result ≡ next_fec from self.now.packets }
    {
        let newest = self.newest()?;
        if !self.has_fec {
            return None;
        }
        let mut n = from.max(newest.saturating_sub(WINDOW - 1));
        while n <= newest {
            n = next_marked(&self.marks, n, newest);
            if self.is_fec(n) {
                return Some(n);
            }
            if n == newest {
                return None;
            }
            n += 1;
        }
        None
    }

    /// Whether a FEC packet is held under a number.
    fn is_fec(&self, n: u64) -> bool
        ensures { result ≡ is_fec_held (at n self.now.packets) }
    {
        match self.held(n) {
            Some(held) => held.is_fec(),
            None => false,
        }
    }

    /// Whether a packet can be placed under a number, and if not, why.
    pub fn would(&self, n: u64) -> Placing
        ensures would { result ≡ would_of self.now n }
    {
        if is_too_old(self.ring.newest(), n) {
            return Placing::TooOld;
        }
        match self.ring.get(n) {
            Some(Fate::GivenUp) => Placing::Dead,
            Some(Fate::Taken(_)) => Placing::Repeat,
            None => Placing::Fresh,
        }
    }

    /// Places a packet under a number of which `would` says that it is fresh. A number greater than the newest moves
    /// the window, and what the window leaves is gone. It takes no memory.
    pub fn place(&mut self, n: u64, held: Held)
        requires fresh { would_of self.old n ≡ Fresh }
        ensures placed { self.new ≡ after_placing n held self.old }
    {
        let marked = held.is_fec();
        self.ring.place(n, Fate::Taken(held));
        mark(&mut self.marks, n, marked);
        self.has_fec = self.has_fec | marked;
        self.first = Some(self.first.unwrap_or(n));
    }

    /// Gives up a number of the window that isn't held and wasn't given up yet. It takes no memory.
    pub fn give_up(&mut self, n: u64)
        requires inside { is_inside self.old.newest n ≡ true }
        requires fresh { would_of self.old n ≡ Fresh }
        ensures given_up { self.new ≡ after_giving_up n self.old }
    {
        self.ring.place(n, Fate::GivenUp);
    }
}
