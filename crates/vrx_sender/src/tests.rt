//! Drills against another program's counts of them.

ghost use Rattle.std.specs.Prelude.{◌≤◌};
ghost use Rattle.vrx_sender.specs.declared.drill.TheConstants.{MOST_FRAMES};

use crate::{MOST_FRAMES, drill_capture, drill_sender};
use std::alloc::Global;
use std::test::Fail;
use vrx_core::Event;

/// How many datagrams the network brings.
fn datagrams(alloc: Global, seed: u64, frames: u32) -> Result<usize, Fail>
    requires { (1 ≤ frames) × (frames ≤ MOST_FRAMES) }
{
    let capture = drill_capture(alloc, seed, frames)?;
    let mut count: usize = 0;
    for (_, event) in capture.events.as_slice() {
        if let Event::Datagram { .. } = event {
            count = count.saturating_add(1);
        }
    }
    Ok(count)
}

/// How many octets the frames have that were sent.
fn octets(alloc: Global, seed: u64, frames: u32) -> Result<usize, Fail>
    requires { (1 ≤ frames) × (frames ≤ MOST_FRAMES) }
{
    let sender = drill_sender(alloc, seed, frames)?;
    let mut count: usize = 0;
    for frame in sender.frames() {
        count = count.saturating_add(frame.bytes().len());
    }
    Ok(count)
}

#[test]
fn counts(rt: HostRuntime) -> Result<(), Fail> {
    let rows = [
        (1, 1, 11, 9_574),
        (2, 30, 103, 57_800),
        (18_446_744_073_709_551_615, 5, 22, 13_874),
    ];
    for (seed, frames, brought, sent) in rows {
        assert!(rt; 1 <= frames && frames <= MOST_FRAMES);
        assert_eq!(rt; datagrams(rt.alloc(), seed, frames)?, brought, "{seed}");
        assert_eq!(rt; octets(rt.alloc(), seed, frames)?, sent, "{seed}");
    }
    Ok(())
}
