//! A whole drill, as a capture.

ghost use Rattle.std.specs.Prelude.{◌≡◌, ◌≤◌, ◌+◌, ◌++◌, ◌∷◌, [], IfOk};
ghost use Rattle.vrx_sender.specs.Drill.{drill_events, lines_from};
ghost use Rattle.vrx_sender.specs.Packets.{settings};
ghost use Rattle.vrx_sender.specs.declared.drill.TheConstants.{MOST_FRAMES};

use crate::drill::Drill;
use crate::settings::drill_settings;
use std::alloc::Global;
use std::marker::Model;
use vrx_core::{Event, Settings};
use vrx_num::NoMemory;

/// The line of a capture's first event: before it stands the settings line.
const FIRST_LINE: u32 = 2;

/// Events in order, each with the number of its line.
///
/// Contracts see the list of these pairs.
#[derive(Debug, Drop)]
pub struct DrillEvents {
    lines: Vec<(u32, Event)>,
}

impl Model for DrillEvents {
    ghost use Rattle.std.specs.Prelude.{List, ℕ};
    ghost use Rattle.vrx_core.specs.declared.event.Event.{Event};

    ghost Value = { List (ℕ × Event) };

    ghost view = { λ a. a.lines.items };
}

impl DrillEvents {
    /// The pairs, in order.
    pub fn as_slice(&self) -> &[(u32, Event)]
        ensures { result.now ≡ self.now }
    {
        self.lines.as_slice()
    }
}

/// What a capture says.
#[derive(Debug, Drop)]
pub struct Capture {
    /// The settings line.
    pub settings: Settings,
    /// The events.
    pub events: DrillEvents,
}

/// The capture of a drill of so many frames, by its seed.
pub fn drill_capture(alloc: Global, seed: u64, frames: u32) -> Result<Capture, NoMemory>
    requires frames { (1 ≤ frames) × (frames ≤ MOST_FRAMES) }
    ensures settings { IfOk result (λ capture. capture.settings ≡ settings) }
    ensures events { IfOk result (λ capture. capture.events ≡ lines_from 2 (drill_events seed frames)) }
{
    let mut drill = Drill::new(alloc, seed, frames);
    let mut lines = Vec::new(alloc);
    let mut k = FIRST_LINE;
    while let Some(event) = drill.next_event()? {
        lines.push((k, event))?;
        k += 1;
    }
    Ok(Capture {
        settings: drill_settings(),
        events: DrillEvents { lines },
    })
}
