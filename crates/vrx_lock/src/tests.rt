// What no clause says: there is memory for a call, and threads that share a receiver close it with all their entries.
// Each payload of the codec is a whole keyframe, and its own body. The values were worked out by hand.

ghost use Rattle.std.specs.Prelude.{◌≡◌, ◌+◌, true, refl, length, None, Ok};
ghost use Rattle.std.proofs.Common.{rules};
ghost use Rattle.vrx_codec.specs.Joining.{beginning, join_from};
ghost use Rattle.vrx_codec.specs.declared.part.Start.TheVariants.{Yes};
ghost use Rattle.vrx_lock.specs.Shares.{IsWhole};

use super::*;
use std::alloc::Global;
use std::test::Fail;
use std::thread::{Threads, join, yield_now};
use vrx_codec::{Codec, Join, JoinFault, Part, PartFault, Start};
use vrx_core::{Event, NewFault, Pulled, Settings, What};

struct Whole;

impl Codec for Whole {
    ghost meaning = { record {
      read = λ payload. Ok (record { start = Yes; key = true; layers = None; body = payload });
      join = λ parts. join_from (record {
        step = λ state part. Ok (record { unit = None; octets = state.octets + length part.body });
        end = λ state. Ok state.octets;
        adds = λ state part. part.body;
      }) parts beginning;
    } };

    ghost joining = { record {
      step = λ state part. Ok (record { unit = None; octets = state.octets + length part.body });
      end = λ state. Ok state.octets;
      adds = λ state part. part.body;
    } };

    fn read_part(payload: &[u8]) -> Result<Part<'_>, PartFault> {
        Ok(Part {
            start: Start::Yes,
            key: true,
            layers: None,
            body: payload,
        })
    }

    fn step(state: Join, part: &Part<'_>) -> Result<Join, JoinFault> {
        Ok(Join {
            unit: None,
            octets: state.octets + part.body.len() as u32,
        })
    }

    fn end(state: Join) -> Result<u32, JoinFault> {
        Ok(state.octets)
    }

    fn append(_state: Join, part: &Part<'_>, out: &mut Vec<u8>) {
        let Ok(()) = out.extend_from_slice(part.body) else {
            unreachable!()
        };
    }

    ghost within = { Prim.search rules };

    ghost joins = { λ parts. refl };

    ghost counted = { Prim.search rules };

    ghost raises = { Prim.search rules };
}

const SETTINGS: Settings = Settings {
    media_ssrc: 10,
    media_type: 96,
    red: None,
    rtx: None,
    from_ssrc: 11,
    interval: 100,
};

// A packet of number 1 with the marker and one octet of payload, which is a keyframe.
const KEY: [u8; 13] = [0x80, 0xe0, 0, 1, 0, 0, 0, 0, 0, 0, 0, 0x0a, 0xaa];

#[test]
fn a_journal_takes_as_many_entries_as_it_has_room_for(rt: HostRuntime) -> Result<(), Fail> {
    let (receiver, mut seat) = Receiver::<Whole>::new(rt.alloc(), SETTINGS, 2)?;
    let first = receiver.offer_datagram(&mut seat, 0, &KEY)?;
    assert!(rt; first.place == 0 && first.reply.what == What::Media(65_537));
    let second = receiver.offer_pull(&mut seat, 1)?;
    assert!(rt; second.place == 1 && matches!(second.reply, Pulled::Frame(_)));
    let Err(fault) = receiver.offer_tick(&mut seat, 2) else {
        return Err("the journal isn't full")?;
    };
    assert!(rt; fault == TickFault::JournalFull);
    assert!(rt; receiver.glance(&mut seat) == 2);
    let journal = receiver.close(seat);
    let [datagram, pull] = journal.entries() else {
        return Err("other entries")?;
    };
    assert!(rt; datagram.actor == 0 && datagram.turn == 1 && pull.actor == 0 && pull.turn == 2);
    assert!(rt; matches!(pull.event, Event::Pull { moment: 1 }));
    match &datagram.event {
        Event::Datagram { moment, bytes } => {
            assert!(rt; *moment == 0 && bytes.as_slice() == KEY.as_slice());
        }
        _ => return Err("another event")?,
    }
    Ok(())
}

#[test]
fn two_seats_make_one_journal(rt: HostRuntime) -> Result<(), Fail> {
    let (receiver, mut seat) = Receiver::<Whole>::new(rt.alloc(), SETTINGS, 10)?;
    let mut network = receiver.split(&mut seat, 1);
    let mut decoder = receiver.split(&mut seat, 2);
    let first = receiver.offer_datagram(&mut network, 0, &KEY)?;
    let second = receiver.offer_pull(&mut decoder, 1)?;
    assert!(rt; first.place == 0 && second.place == 1);
    assert!(rt; matches!(second.reply, Pulled::Frame(_)));
    receiver.join(&mut seat, network);
    receiver.join(&mut seat, decoder);
    let journal = receiver.close(seat);
    let [datagram, pull] = journal.entries() else {
        return Err("other entries")?;
    };
    assert!(rt; datagram.actor == 1 && datagram.turn == 1 && pull.actor == 2 && pull.turn == 1);
    assert!(rt; matches!(datagram.event, Event::Datagram { .. }));
    assert!(rt; matches!(pull.event, Event::Pull { moment: 1 }));
    Ok(())
}

#[test]
fn refuses_settings_before_the_room(rt: HostRuntime) -> Result<(), Fail> {
    let bad = Settings {
        interval: 0,
        ..SETTINGS
    };
    for (settings, room, fault) in [
        (bad, 0, ReceiverFault::Settings(NewFault::BadInterval)),
        (SETTINGS, 0, ReceiverFault::BadRoom),
        (SETTINGS, 65_537, ReceiverFault::BadRoom),
    ] {
        let Err(found) = Receiver::<Whole>::new(rt.alloc(), settings, room) else {
            return Err("a receiver")?;
        };
        assert!(rt; found == fault);
    }
    assert!(rt; Receiver::<Whole>::new(rt.alloc(), SETTINGS, 65_536).is_ok());
    Ok(())
}

// How many events an actor offers, and how often it tries at most.
const EVENTS: u64 = 200;

const TRIES: u64 = 10_000_000;

// Offers ticks until enough were taken, and gives the seat back with the number taken.
fn offer_all(receiver: &Receiver<Whole>, mut seat: Seat) -> (Seat, u64)
    requires { seat.table ≡ receiver.now.table }
    ensures { (result.0.table ≡ seat.table) × (result.0.known.share ≡ seat.known.share) }
{
    let mut taken = 0;
    for _ in 0..TRIES {
        if taken >= EVENTS {
            break;
        }
        match receiver.offer_tick(&mut seat, taken) {
            Ok(_) => taken += 1,
            Err(_) => yield_now(),
        }
    }
    (seat, taken)
}

// Two actors at once.
fn offer_both<R: Threads>(
    rt: &R,
    receiver: &Receiver<Whole>,
    one: Seat,
    two: Seat,
) -> ((Seat, u64), (Seat, u64))
    requires { (one.table ≡ receiver.now.table) × (two.table ≡ receiver.now.table) }
    ensures one { (result.0.0.table ≡ one.table) × (result.0.0.known.share ≡ one.known.share) }
    ensures two { (result.1.0.table ≡ two.table) × (result.1.0.known.share ≡ two.known.share) }
{
    join(
        rt,
        move || -> (Seat, u64)
            requires { one.table ≡ receiver.now.table }
            ensures { (result.0.table ≡ one.table) × (result.0.known.share ≡ one.known.share) }
        { offer_all(receiver, one) },
        move || -> (Seat, u64)
            requires { two.table ≡ receiver.now.table }
            ensures { (result.0.table ≡ two.table) × (result.0.known.share ≡ two.known.share) }
        { offer_all(receiver, two) },
    )
}

// What two actors have at the end: their seats, and how many events of each were taken.
type Ends = ((Seat, u64), (Seat, u64));

// Four actors at once.
fn offer_four<R: Threads + Sync>(
    rt: &R,
    receiver: &Receiver<Whole>,
    one: Seat,
    two: Seat,
    three: Seat,
    four: Seat,
) -> (Ends, Ends)
    requires first { (one.table ≡ receiver.now.table) × (two.table ≡ receiver.now.table) }
    requires last { (three.table ≡ receiver.now.table) × (four.table ≡ receiver.now.table) }
    ensures one { (result.0.0.0.table ≡ one.table) × (result.0.0.0.known.share ≡ one.known.share) }
    ensures two { (result.0.1.0.table ≡ two.table) × (result.0.1.0.known.share ≡ two.known.share) }
    ensures three { (result.1.0.0.table ≡ three.table) × (result.1.0.0.known.share ≡ three.known.share) }
    ensures four { (result.1.1.0.table ≡ four.table) × (result.1.1.0.known.share ≡ four.known.share) }
{
    join(
        rt,
        move || -> Ends
            requires { (one.table ≡ receiver.now.table) × (two.table ≡ receiver.now.table) }
            ensures { (result.0.0.table ≡ one.table) × (result.0.0.known.share ≡ one.known.share) × (result.1.0.table ≡ two.table) × (result.1.0.known.share ≡ two.known.share) }
        { offer_both(rt, receiver, one, two) },
        move || -> Ends
            requires { (three.table ≡ receiver.now.table) × (four.table ≡ receiver.now.table) }
            ensures { (result.0.0.table ≡ three.table) × (result.0.0.known.share ≡ three.known.share) × (result.1.0.table ≡ four.table) × (result.1.0.known.share ≡ four.known.share) }
        { offer_both(rt, receiver, three, four) },
    )
}

// Whether the entries are those of four actors, each with its turns in order, and how many there are.
fn are_in_order(entries: &[Entry]) -> bool {
    let mut turns = [0; 4];
    for entry in entries {
        let Some(turn) = turns.get_mut(entry.actor as usize) else {
            return false;
        };
        if *turn >= EVENTS {
            return false;
        }
        *turn += 1;
        if entry.turn != *turn {
            return false;
        }
    }
    turns == [EVENTS; 4]
}

#[test]
fn four_actors_close_with_all_entries(rt: HostRuntime) -> Result<(), Fail> {
    let (receiver, mut seat) = Receiver::<Whole>::new(rt.alloc(), SETTINGS, 10_000)?;
    let one = receiver.split(&mut seat, 1);
    let two = receiver.split(&mut seat, 2);
    let three = receiver.split(&mut seat, 3);
    let ends = offer_four(&rt, &receiver, seat, one, two, three);
    let (((mut seat, zeroth), (one, first)), ((two, second), (three, third))) = ends;
    receiver.join(&mut seat, one);
    receiver.join(&mut seat, two);
    receiver.join(&mut seat, three);
    assert!(rt; [zeroth, first, second, third] == [EVENTS; 4]);
    assert!(rt; receiver.glance(&mut seat) == 4 * EVENTS);
    let journal = receiver.close(seat);
    assert!(rt; are_in_order(journal.entries()));
    Ok(())
}
