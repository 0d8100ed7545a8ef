// What no clause says: that memory is there, and that the pictures and indexes are the ones meant. The values were
// worked out by hand. Frame i has number 65,536 + i and picture 32,768 + i, and frame 1 is key.

ghost use Rattle.std.specs.Prelude.{◌≡◌, ◌<◌, true};
ghost use Rattle.vrx_refs.specs.References.{has_layer};

use super::*;
use vrx_codec::{Place, Run};
use vrx_num::NoMemory;

#[test]
fn layers_0_2_1_2(rt: HostRuntime) -> Result<(), NoMemory> {
    // frames 1 and 3 are there, and 1 was pulled; then frame 2 comes, with another TID in a second packet
    let mut finder = Finder::new(rt.alloc())?;
    finder.seen(32_769, 0);
    assert!(rt; matches!(finder.judge(&frame(1, 5, 0, false), None), Judged::Key));
    finder.pulled(&frame(1, 5, 0, false));
    finder.seen(32_771, 1);
    assert_eq!(rt; waits_for(&finder, &frame(3, 5, 1, false)), None);
    assert_eq!(rt; waits_for(&finder, &frame(3, 5, 1, true)), Some(0));
    finder.seen(32_770, 2);
    finder.seen(32_770, 0);
    assert_eq!(rt; waits_for(&finder, &frame(3, 5, 1, false)), Some(0));
    assert_eq!(rt; waits_for(&finder, &frame(4, 5, 2, false)), Some(2));
    finder.pulled(&frame(3, 5, 1, false));
    assert_eq!(rt; waits_for(&finder, &frame(4, 5, 2, false)), Some(1));
    Ok(())
}

#[test]
fn bases(rt: HostRuntime) -> Result<(), NoMemory> {
    // frame 1 of index 0 was pulled: it is the base of frames of index 1, up to frame 256
    let mut finder = Finder::new(rt.alloc())?;
    finder.seen(32_769, 0);
    finder.pulled(&frame(1, 0, 0, false));
    for (i, tl0, known) in [
        (2, 1, true),
        (2, 0, false),
        (2, 2, false),
        (256, 1, true),
        (257, 1, false),
        (258, 1, false),
    ] {
        let waiting = waits_for(&finder, &frame(i, tl0, 0, false));
        assert_eq!(rt; waiting, if known { Some(0) } else { None }, "{i}, {tl0}");
    }
    Ok(())
}

/// A frame of one packet, among layers.
fn frame(i: u64, tl0: u8, tid: u8, sync: bool) -> Run
    requires few { i < 1000 }
    requires layer { tid < 4 }
    ensures { has_layer result.layers ≡ true }
{
    Run {
        first: 65_536 + i,
        last: 65_536 + i,
        ts: 0,
        key: i == 1,
        layers: Some(Place {
            picture: 32_768 + i,
            tl0,
            tid,
            sync,
        }),
        octets: 1,
    }
}

/// How many pictures a frame waits for, if these are known.
fn waits_for(finder: &Finder, run: &Run) -> Option<usize>
    requires { has_layer run.now.layers ≡ true }
{
    match finder.judge(run, Some(65_537)) {
        Judged::Needs(pictures) => Some(pictures.len()),
        _ => None,
    }
}

fn is_send<T: Send>() {}

#[test]
fn it_may_go_to_another_thread() {
    is_send::<Finder>();
    is_send::<Judged>();
}
