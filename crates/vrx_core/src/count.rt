//! What every event changes: the count of events and the clock.

ghost use Rattle.std.specs.Prelude.{◌≡◌, ◌+◌, ◌<◌, max};

use vrx_num::limits::MOST_EVENTS;

/// How many events came, and the clock.
#[derive(Clone, Copy, Debug, PartialEq, Eq)]
pub(crate) struct Count {
    /// How many events came.
    pub(crate) events: u32,
    /// The greatest of their moments, in milliseconds: 0 before the first.
    pub(crate) clock: u64,
}

impl Count {
    /// Counts an event, which moves the clock on to its moment. The clock doesn't go back.
    pub(crate) fn count(&mut self, moment: u64)
        requires room { self.old.events < MOST_EVENTS }
        ensures events { self.new.events ≡ self.old.events + 1 }
        ensures clock { self.new.clock ≡ max self.old.clock moment }
    {
        self.events += 1;
        self.clock = self.clock.max(moment);
    }
}
