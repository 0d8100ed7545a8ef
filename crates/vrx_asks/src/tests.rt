// What no clause says: that memory is there, and that the moments and numbers are the ones meant. The values were
// worked out by hand, for an interval of 100 milliseconds.

ghost use Rattle.std.specs.Prelude.{◌≡◌, [], IfOk};
ghost use Rattle.vrx_asks.specs.Asks.{with_missing};

use super::*;
use std::alloc::Global;
use vrx_num::NoMemory;

#[test]
fn asks_ten_times(rt: HostRuntime) -> Result<(), NoMemory> {
    let mut asks = Asks::new(rt.alloc())?;
    asks.noticed(65_538, 0);
    for (now, asked, given_up) in [
        (99, 0, 0),
        (100, 1, 0),
        (200, 1, 0),
        (300, 1, 0),
        (400, 1, 0),
        (500, 1, 0),
        (600, 1, 0),
        (700, 1, 0),
        (800, 1, 0),
        (900, 1, 0), // the tenth request: the first was made when it was noticed
        (999, 0, 0),
        (1_000, 0, 1),
        (1_100, 0, 0),
    ] {
        assert_eq!(rt; asks.is_empty(), now > 1_000, "{now}");
        let due = asks.due(now, 100);
        assert_eq!(rt; due.ask.len(), asked, "{now}");
        assert_eq!(rt; due.give_up.len(), given_up, "{now}");
        assert!(rt; due.ask.as_slice().iter().all(|n| *n == 65_538), "{now}");
        assert!(rt;
            due.give_up.as_slice().iter().all(|n| *n == 65_538),
            "{now}"
        );
    }
    Ok(())
}

#[test]
fn a_moment_may_be_before_the_last(rt: HostRuntime) -> Result<(), NoMemory> {
    let mut asks = Asks::new(rt.alloc())?;
    asks.noticed(65_538, 500);
    for (now, asked) in [(100, 0), (599, 0), (600, 1)] {
        assert_eq!(rt; asks.due(now, 100).ask.len(), asked, "{now}");
    }
    Ok(())
}

#[test]
fn numbers_arrive_or_pass(rt: HostRuntime) -> Result<(), NoMemory> {
    // 10, 12 and 13 are missing: how many are left once a number arrives, or passes
    for (n, arrived, passed) in [
        (9, 3, 3),
        (10, 2, 2),
        (11, 3, 2),
        (12, 2, 1),
        (13, 2, 0),
        (14, 3, 0),
    ] {
        let mut asks = three(rt.alloc())?;
        asks.arrived(n);
        assert_eq!(rt; asks.due(100, 100).ask.len(), arrived, "{n} arrived");
        let mut asks = three(rt.alloc())?;
        asks.passed(n);
        assert_eq!(rt; asks.due(100, 100).ask.len(), passed, "{n} passed");
    }
    Ok(())
}

fn three(alloc: Global) -> Result<Asks, NoMemory>
    ensures { IfOk result (λ asks. asks ≡ with_missing 13 0 (with_missing 12 0 (with_missing 10 0 []))) }
{
    let mut asks = Asks::new(alloc)?;
    asks.noticed(10, 0);
    asks.noticed(12, 0);
    asks.noticed(13, 0);
    Ok(asks)
}

#[test]
fn a_keyframe_is_asked_for_again_after_the_wait(rt: HostRuntime) {
    let mut key = KeyAsk::new();
    for (now, need, request) in [
        (900, false, false),
        (1_000, true, true),
        (1_200, true, false),
        (1_299, true, false),
        (1_300, false, false),
        (1_300, true, true),
        (1_000, true, false), // a moment may be before the last
    ] {
        assert_eq!(rt; key.decide(now, need), request, "{now}");
    }
    key.completed();
    assert!(rt; key.decide(1_301, true));
}

fn is_send<T: Send>() {}

#[test]
fn they_may_go_to_another_thread() {
    is_send::<Asks>();
    is_send::<KeyAsk>();
    is_send::<Due>();
}
