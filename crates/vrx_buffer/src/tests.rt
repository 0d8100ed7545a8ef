// What no clause says: that memory is there, and that the runs are the ones meant. Frame i is a single packet of number
// 65,536 + i, and has picture 32,768 + i if it has layers.

ghost use Rattle.std.specs.Prelude.{◌≡◌, ◌+◌, ◌<◌, ◌≤◌, true, length};
ghost use Rattle.vrx_refs.specs.References.{has_layer};

use super::*;
use vrx_codec::{Place, Run};
use vrx_num::NoMemory;
use vrx_refs::Finder;

#[test]
fn layers_0_2_1_2(rt: HostRuntime) -> Result<(), NoMemory> {
    // frame 1 was pulled, frame 2 is lost but for one packet, and frame 5 is key
    let mut finder = Finder::new(rt.alloc())?;
    let mut frames = Frames::new(rt.alloc())?;
    finder.seen(32_769, 0);
    finder.pulled(&frame(1, 0, true));
    finder.seen(32_770, 2);
    finder.seen(32_771, 1);
    put(&mut frames, frame(5, 0, true));
    put(&mut frames, frame(4, 2, false));
    put(&mut frames, frame(3, 1, false));
    assert_eq!(rt; frames.greatest_key(), Some(65_541));
    assert_eq!(rt; next(&frames, &finder), Some(65_539));
    finder.pulled(&frame(3, 1, false));
    frames.take(65_539);
    assert_eq!(rt; next(&frames, &finder), Some(65_541));
    frames.drop_below(65_542);
    assert_eq!(rt; next(&frames, &finder), None);
    assert_eq!(rt; frames.greatest_key(), None);
    Ok(())
}

/// Adds a run where there is room.
fn put(frames: &mut Frames, run: Run)
    requires few { length frames.old < 10 }
    requires layer { has_layer run.layers ≡ true }
    ensures few { length frames.new ≤ length frames.old + 1 }
{
    frames.add(run);
}

/// The first number of the next run, with the numbers up to frame 1 passed.
fn next(frames: &Frames, finder: &Finder) -> Option<u64> {
    match frames.next(finder, Some(65_537)) {
        Some(run) => Some(run.first),
        None => None,
    }
}

/// A frame among layers, of index 5.
fn frame(i: u64, tid: u8, key: bool) -> Run
    requires few { i < 1000 }
    requires layer { tid < 4 }
    ensures { has_layer result.layers ≡ true }
{
    Run {
        first: 65_536 + i,
        last: 65_536 + i,
        ts: 0,
        key,
        layers: Some(Place {
            picture: 32_768 + i,
            tl0: 5,
            tid,
            sync: false,
        }),
        octets: 1,
    }
}

fn is_send<T: Send>() {}

#[test]
fn it_may_go_to_another_thread() {
    is_send::<Frames>();
}
