//! A ring of slots, in which something stands under the numbers of a window.

ghost use Rattle.std.specs.Prelude.{◌≡◌, ◌%◌, false, Some, IfOk};
ghost use Rattle.std.specs.Option.{option_copied};
ghost use Rattle.vrx_num.specs.declared.limits.TheConstants.{WINDOW};
ghost use Rattle.vrx_window.specs.Numbered.{empty, IsNumbered};
ghost use Rattle.vrx_window.specs.Window.{at, is_too_old, entries_in, newest_with, entries_with};

use crate::slot::Slot;
use std::alloc::Global;
use std::marker::Model;
use vrx_num::NoMemory;
use vrx_num::limits::WINDOW;

/// What stands under the numbers of a window: the last 2,048 numbers up to the newest. A greater number moves the
/// window, and what the window has left is gone.
///
/// Contracts see the newest number, and a map from the numbers of the window. There are 2,048 slots, taken once, and
/// nothing moves when the window does: a value that the window has left gives its memory back when its slot is taken
/// again, or with the ring.
#[derive(Drop)]
pub struct Ring<T> {
    newest: Option<u64>,
    slots: Vec<Slot<T>>,
}

impl<T> Model for Ring<T> {
    ghost use Rattle.vrx_window.specs.Numbered.{Numbered, numbered_code};

    ghost Value = { Numbered T };

    ghost coded = { numbered_code T.code };

    ghost use Rattle.vrx_window.specs.Ring.{IsRing, numbered_of};

    ghost view = { λ a. numbered_of a.newest a.slots.items };

    ghost invariant = { λ a. IsRing a.newest a.slots.items };
}

impl<T> Ring<T> {
    /// The newest number: the greatest that was given to `place` or to `move_to`. Its contract also says what always
    /// holds of a ring.
    pub fn newest(&self) -> Option<u64>
        ensures newest { result ≡ self.now.newest }
        ensures sound { IsNumbered self.now }
    {
        self.newest
    }

    /// What stands under a number, if the number is in the window and has something.
    pub fn get(&self, n: u64) -> Option<&T>
        ensures value { option_copied result ≡ at n self.now.entries }
    {
        if is_too_old(self.newest, n) {
            return None;
        }
        self.slots[slot_of(n)].value(n)
    }
}

impl<T: Drop> Ring<T> {
    /// A ring in which nothing stands. Only this call takes memory.
    pub fn new(alloc: Global) -> Result<Ring<T>, NoMemory>
        ensures empty { IfOk result (λ ring. ring ≡ empty) }
    {
        let mut slots = Vec::with_capacity(alloc, WINDOW as usize)?;
        for _ in 0..WINDOW {
            slots.push(Slot::Free)?;
        }
        Ok(Ring {
            newest: None,
            slots,
        })
    }

    /// Puts a value under a number that isn't too old, in place of what stood there. A number greater than the newest
    /// moves the window, and what the window leaves is gone.
    pub fn place(&mut self, n: u64, value: T)
        requires young { is_too_old self.old.newest n ≡ false }
        ensures newest { self.new.newest ≡ Some (newest_with self.old.newest n) }
        ensures entries { self.new.entries ≡ entries_with (newest_with self.old.newest n) n value self.old.entries }
        ensures sound { IsNumbered self.new }
    {
        self.slots[slot_of(n)] = Slot::Taken { number: n, value };
        self.newest = Some(newest_with(self.newest, n));
    }

    /// Moves the window to a number, if that is greater than the newest. What the window leaves is gone.
    pub fn move_to(&mut self, n: u64)
        ensures newest { self.new.newest ≡ Some (newest_with self.old.newest n) }
        ensures entries { self.new.entries ≡ entries_in (newest_with self.old.newest n) self.old.entries }
        ensures sound { IsNumbered self.new }
    {
        self.newest = Some(newest_with(self.newest, n));
    }
}

/// Whether a number is at most the newest one minus 2,048.
pub(crate) fn is_too_old(newest: Option<u64>, n: u64) -> bool
    ensures { result ≡ is_too_old newest n }
{
    match newest {
        Some(newest) => newest >= n && newest - n >= WINDOW,
        None => false,
    }
}

/// The newest number once `n` is placed.
fn newest_with(newest: Option<u64>, n: u64) -> u64
    ensures { result ≡ newest_with newest n }
{
    match newest {
        Some(newest) => newest.max(n),
        None => n,
    }
}

/// The slot of a number.
fn slot_of(n: u64) -> usize
    ensures { result ≡ n % WINDOW }
{
    (n % WINDOW) as usize
}
