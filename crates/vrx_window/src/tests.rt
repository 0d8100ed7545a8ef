// What no clause says: that memory is there, and that the numbers are the ones meant. The values were worked out by
// hand: the window after newest holds newest - 2,047 to newest.

use super::*;
use vrx_codec::Run;
use vrx_num::NoMemory;

// a run of one packet
fn run(first: u64) -> Run {
    Run {
        first,
        last: first,
        ts: 0,
        key: false,
        layers: None,
        octets: 1,
    }
}

// places a packet if its number is fresh, and tells what was said of the number
fn offer(window: &mut Window, n: u64) -> Placing {
    let said = window.would(n);
    if let Placing::Fresh = said {
        window.place(n, Held::Empty { marker: true });
    }
    said
}

#[test]
fn tells_the_window_s_edges(rt: HostRuntime) -> Result<(), NoMemory> {
    for (placed, n, want) in [
        (70_000, 70_000, Placing::Repeat),
        (70_000, 70_001, Placing::Fresh), // above the newest
        (70_000, 67_953, Placing::Fresh), // 2,047 below: the lowest of the window
        (70_000, 67_952, Placing::TooOld), // 2,048 below: the same slot as the newest
        (70_000, 72_048, Placing::Fresh), // 2,048 above: the same slot again
        (2_047, 0, Placing::Fresh), // below 2,048 the window begins at 0
        (2_048, 0, Placing::TooOld),
    ] {
        let mut window = Window::new(rt.alloc())?;
        assert_eq!(rt; offer(&mut window, placed), Placing::Fresh, "{placed}");
        assert_eq!(rt; window.would(n), want, "{n} after {placed}");
        assert_eq!(rt; window.held(n).is_some(), n == placed, "{n} after {placed}");
        assert_eq!(rt; window.newest(), Some(placed), "{n} after {placed}");
        assert_eq!(rt; window.first(), Some(placed), "{n} after {placed}");
    }
    Ok(())
}

#[test]
fn is_dead_and_then_too_old(rt: HostRuntime) -> Result<(), NoMemory> {
    for (later, want) in [
        (65_541, Placing::Dead),
        (67_585, Placing::Dead), // 65,538 is the lowest of the window
        (67_586, Placing::TooOld), // in the same slot
    ] {
        let mut window = Window::new(rt.alloc())?;
        window.place(65_540, Held::Empty { marker: true });
        window.give_up(65_538);
        assert_eq!(rt; offer(&mut window, later), Placing::Fresh, "{later}");
        assert_eq!(rt; window.would(65_538), want, "after {later}");
        assert_eq!(rt; window.first(), Some(65_540), "after {later}");
    }
    Ok(())
}

#[test]
fn a_ring_holds_any_type(rt: HostRuntime) -> Result<(), NoMemory> {
    for (n, stands) in [
        (70_000, true),
        (67_953, true), // 2,047 below: the lowest of the window
        (67_952, false), // 2,048 below: the same slot as the newest
    ] {
        let mut ring = Ring::new(rt.alloc())?;
        ring.place(n, run(n));
        ring.move_to(70_000);
        assert_eq!(rt; ring.newest(), Some(70_000), "{n}");
        assert_eq!(rt; ring.get(n).is_some(), stands, "{n}");
        assert!(rt; ring.get(72_048).is_none(), "{n}");
    }
    Ok(())
}
