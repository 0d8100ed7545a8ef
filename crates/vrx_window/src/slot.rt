//! A slot of the ring.

ghost use Rattle.std.specs.Prelude.{◌≡◌};
ghost use Rattle.std.specs.Option.{option_copied};
ghost use Rattle.vrx_window.specs.Ring.{value_of};

/// What a slot remembers. The slot of a number is shared with each number that lies a whole window below or above it,
/// so it remembers which one it speaks of.
#[derive(Debug, Drop)]
pub(crate) enum Slot<T> {
    /// Nothing yet.
    Free,
    /// A number, and what stands under it.
    Taken { number: u64, value: T },
}

impl<T> Slot<T> {
    /// What it has under a number.
    pub(crate) fn value(&self, n: u64) -> Option<&T>
        ensures { option_copied result ≡ value_of n self.now }
    {
        match self {
            Slot::Taken { number, value } if *number == n => Some(value),
            _ => None,
        }
    }
}
