// What no clause says: three threads run at once, and there is memory. The texts were worked out by hand.

ghost use Rattle.std.specs.Prelude.{◌≡◌};

use super::*;
use std::alloc::Global;
use std::sync::Wait;
use std::sync::atomic::{AtomicU64, Ordering};
use std::test::Fail;
use std::thread::{Threads, sleep};
use std::time::{Clock, Duration};
use vrx_core::{Event, EventBytes, Settings};
use vrx_lock::Receiver;
use vrx_vp8::Vp8;

const SETTINGS: Settings = Settings {
    media_ssrc: 10,
    media_type: 96,
    red: None,
    rtx: None,
    from_ssrc: 11,
    interval: 100,
};

// A keyframe of one packet, number 1.
const KEY: [u8; 15] = [
    0x80, 0xe0, 0, 1, 0, 0, 0, 0, 0, 0, 0, 0x0a, 0x10, 0x00, 0xaa,
];

// A frame of one packet after it, number 2.
const NEXT: [u8; 15] = [
    0x80, 0xe0, 0, 2, 0, 0, 0x0b, 0xb8, 0, 0, 0, 0x0a, 0x10, 0x01, 0xbb,
];

// How often a held call looks again, a millisecond after the last time.
const TURNS: u64 = 10_000;

// Lets the calls go in one order: datagram, pull, datagram, pull. None goes before the first calls of both actors were
// about to be made.
#[derive(Drop)]
struct Order<'a, R: Clock> {
    rt: &'a R,
    entered: AtomicU64,
    answered: AtomicU64,
    late: AtomicU64,
}

impl<'a, R: Clock> Order<'a, R> {
    // Waits until a count is so high.
    fn wait(&self, count: &AtomicU64, least: u64) {
        for _ in 0..TURNS {
            if count.load(Ordering::SeqCst) >= least {
                return;
            }
            sleep(self.rt, Duration::from_millis(1));
        }
        self.late.fetch_add(1, Ordering::SeqCst);
    }
}

// How many calls are answered before this one.
fn place_of(actor: u32, turn: u64) -> u64 {
    let pull = if actor == actors::PULLS { 1 } else { 0 };
    turn.saturating_sub(1)
        .saturating_mul(2)
        .saturating_add(pull)
}

impl<'a, R: Clock> Gate for Order<'a, R> {
    fn before(&self, actor: u32, turn: u64) {
        if turn == 1 {
            self.entered.fetch_add(1, Ordering::SeqCst);
            self.wait(&self.entered, 2);
        }
        self.wait(&self.answered, place_of(actor, turn));
    }

    fn after(&self, _actor: u32, _turn: u64) {
        self.answered.fetch_add(1, Ordering::SeqCst);
    }
}

// A datagram.
fn datagram(alloc: Global, moment: u64, octets: &[u8]) -> Result<Event, Fail> {
    let bytes = EventBytes::from_vec(octets.to_vec(alloc)?);
    Ok(Event::Datagram { moment, bytes })
}

// No events.
fn no_lists(alloc: Global) -> Lists {
    Lists {
        datagrams: LineEvents::new(alloc),
        ticks: LineEvents::new(alloc),
        pulls: LineEvents::new(alloc),
    }
}

// All texts, in order.
fn whole(alloc: Global, printed: &Printed) -> Result<Vec<u8>, Fail> {
    let mut text = Vec::new(alloc);
    for place in 0..printed.len() {
        text.extend_from_slice(printed.text(place))?;
    }
    Ok(text)
}

// The texts of a run with a receiver that has room for just the events, of which there are four at most.
fn played<R: Threads + Wait + Sync, G: Gate + Sync>(
    rt: &R,
    alloc: Global,
    lists: Lists,
    gate: &G,
) -> Result<Vec<u8>, Fail> {
    let datagrams = lists.datagrams.as_slice().len();
    let ticks = lists.ticks.as_slice().len();
    let pulls = lists.pulls.as_slice().len();
    if datagrams > 4 || ticks > 4 || pulls > 4 {
        return Err("too many events")?;
    }
    let count = datagrams + ticks + pulls;
    let (receiver, mut seat) = Receiver::<Vp8>::new(alloc, SETTINGS, count as u32)?;
    let printed = run_workers(rt, alloc, &receiver, &mut seat, lists, gate)?;
    let text = whole(alloc, &printed)?;
    if receiver.close(seat).entries().len() != count {
        return Err("other entries")?;
    }
    Ok(text)
}

#[test]
fn three_threads_at_once(rt: HostRuntime) -> Result<(), Fail> {
    let alloc = rt.alloc();
    let mut lists = no_lists(alloc);
    lists.datagrams.push(2, datagram(alloc, 0, &KEY)?)?;
    lists.datagrams.push(3, datagram(alloc, 33, &NEXT)?)?;
    lists.pulls.push(4, Event::Pull { moment: 34 })?;
    lists.pulls.push(5, Event::Pull { moment: 67 })?;
    let gate = Order {
        rt: &rt,
        entered: AtomicU64::new(0),
        answered: AtomicU64::new(0),
        late: AtomicU64::new(0),
    };
    let text = played(&rt, alloc, lists, &gate)?;
    assert!(rt; gate.late.load(Ordering::SeqCst) == 0);
    let wanted =
        "2 media 65537\n4 frame 65537 65537 key 0 00aa\n3 media 65538\n5 frame 65538 65538 delta 3000 01bb\n";
    assert!(rt; text.as_slice() == wanted.as_bytes());
    Ok(())
}

#[test]
fn a_keyframe_and_a_pull_in_either_order(rt: HostRuntime) -> Result<(), Fail> {
    let alloc = rt.alloc();
    let mut lists = no_lists(alloc);
    lists.datagrams.push(2, datagram(alloc, 0, &KEY)?)?;
    lists.pulls.push(3, Event::Pull { moment: 1 })?;
    let text = played(&rt, alloc, lists, &NoGate)?;
    let first = "2 media 65537\n3 frame 65537 65537 key 0 00aa\n";
    let last = "3 notready\n2 media 65537\n";
    assert!(rt; text.as_slice() == first.as_bytes() || text.as_slice() == last.as_bytes());
    Ok(())
}
