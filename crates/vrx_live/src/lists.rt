//! What the workers offer.

ghost use Rattle.std.specs.Prelude.{◌≡◌, [], ◌∷◌, ◌++◌, OnOk, OnErr};

use std::alloc::Global;
use std::marker::Model;
use vrx_core::Event;
use vrx_num::NoMemory;

/// Events of a capture, each with the number of its line.
///
/// Contracts see them as the list of these pairs.
#[derive(Debug, Drop)]
pub struct LineEvents {
    lines: Vec<(u32, Event)>,
}

impl Model for LineEvents {
    ghost use Rattle.std.specs.Prelude.{List, ℕ};
    ghost use Rattle.vrx_core.specs.declared.event.Event.{Event};

    ghost Value = { List (ℕ × Event) };

    ghost view = { λ a. a.lines.items };
}

impl LineEvents {
    /// No events yet. It takes no memory.
    pub fn new(alloc: Global) -> LineEvents
        ensures { result ≡ [] }
    {
        LineEvents {
            lines: Vec::new(alloc),
        }
    }

    /// Puts the event of line `k` last. After `NoMemory` the events are as before.
    pub fn push(&mut self, k: u32, event: Event) -> Result<(), NoMemory>
        ensures ok { OnOk result (self.new ≡ self.old ++ (k, event) ∷ []) }
        ensures err { OnErr result (self.new ≡ self.old) }
    {
        Ok(self.lines.push((k, event))?)
    }

    /// The events in order.
    pub fn as_slice(&self) -> &[(u32, Event)]
        ensures { result.now ≡ self.now }
    {
        self.lines.as_slice()
    }
}

/// The events of the three actors.
#[derive(Debug, Drop)]
pub struct Lists {
    pub datagrams: LineEvents,
    pub ticks: LineEvents,
    pub pulls: LineEvents,
}
