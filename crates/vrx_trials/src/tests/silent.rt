//! The engine over a codec whose payloads don't say where a frame begins: the packet before decides. The values were
//! worked out by hand.

ghost use Rattle.std.specs.Prelude.{◌+◌, ◌==◌, if◌then◌else◌, nat_lt, refl, length, None, Ok, Err};
ghost use Rattle.std.proofs.Common.{rules};
ghost use Rattle.vrx_codec.specs.Joining.{beginning, join_from};
ghost use Rattle.vrx_codec.specs.declared.part.Start.TheVariants.{ByNeighbour};

use std::alloc::Global;
use std::test::Fail;
use vrx_codec::{Codec, Join, JoinFault, Part, PartFault, Start};
use vrx_core::{Engine, EventBytes, FrameBytes, MOST_EVENTS, Pulled, Settings};

// Each payload is a part, and its own body. It says a keyframe if it has two octets or more, and doesn't join if it
// has three.
struct Silent;

impl Codec for Silent {
    ghost meaning = { record {
      read = λ payload. Ok (record { start = ByNeighbour; key = nat_lt 1 (length payload); layers = None; body = payload });
      join = λ parts. join_from (record {
        step = λ state part. if length part.body == 3 then Err (record { code = 7 })
            else Ok (record { unit = None; octets = state.octets + length part.body });
        end = λ state. Ok state.octets;
        adds = λ state part. part.body;
      }) parts beginning;
    } };

    ghost joining = { record {
      step = λ state part. if length part.body == 3 then Err (record { code = 7 })
          else Ok (record { unit = None; octets = state.octets + length part.body });
      end = λ state. Ok state.octets;
      adds = λ state part. part.body;
    } };

    fn read_part(payload: &[u8]) -> Result<Part<'_>, PartFault> {
        Ok(Part {
            start: Start::ByNeighbour,
            key: payload.len() > 1,
            layers: None,
            body: payload,
        })
    }

    fn step(state: Join, part: &Part<'_>) -> Result<Join, JoinFault> {
        if part.body.len() == 3 {
            return Err(JoinFault { code: 7 });
        }
        Ok(Join {
            unit: None,
            octets: state.octets + part.body.len() as u32,
        })
    }

    fn end(state: Join) -> Result<u32, JoinFault> {
        Ok(state.octets)
    }

    fn append(_state: Join, part: &Part<'_>, out: &mut Vec<u8>) {
        let Ok(()) = out.extend_from_slice(part.body) else {
            unreachable!()
        };
    }

    ghost within = { Prim.search rules };

    ghost joins = { λ parts. refl };

    ghost counted = { Prim.search rules };

    ghost raises = { Prim.search rules };
}

const SETTINGS: Settings = Settings {
    media_ssrc: 10,
    media_type: 96,
    red: None,
    rtx: None,
    from_ssrc: 11,
    interval: 100,
};

// A packet's wire number, whether it has the marker, and its payload; or a pull, with the first and the last number of
// the frame that it gives, if it gives one.
#[derive(Clone, Copy)]
enum Row {
    Sent(u16, bool, &'static [u8]),
    Pull(Option<(u64, u64)>),
}

use Row::{Pull, Sent};

const ROWS: [Row; 12] = [
    Pull(None),
    Sent(1, true, &[1, 1]),
    // nothing is known of what came before the first
    Pull(None),
    // a keyframe of one packet, after the end of a frame
    Sent(2, true, &[2, 2]),
    Pull(Some((65_538, 65_538))),
    // two packets, none of which says a keyframe, after an empty one that isn't there yet
    Sent(5, true, &[8]),
    Sent(4, false, &[7]),
    Pull(None),
    Sent(3, false, &[]),
    Pull(Some((65_540, 65_541))),
    // no frame comes twice
    Sent(5, true, &[8]),
    Pull(None),
];

/// The octets of a packet.
fn octets_of(alloc: Global, wire: u16, marker: bool, payload: &[u8]) -> Result<Vec<u8>, Fail> {
    let [high, low] = wire.to_be_bytes();
    let second = if marker { 0xe0 } else { 0x60 };
    let mut bytes = [0x80, second, high, low, 0, 0, 0, 0, 0, 0, 0, 0x0a].to_vec(alloc)?;
    bytes.extend_from_slice(payload)?;
    Ok(bytes)
}

/// Hands a packet to the engine.
fn take(engine: &mut Engine<Silent>, bytes: &[u8]) -> Result<(), Fail> {
    if engine.events() >= MOST_EVENTS {
        return Err("no event is left")?;
    }
    engine.datagram(0, bytes)?;
    Ok(())
}

/// The numbers of the frame that a pull gives, if it gives one.
fn pull(engine: &mut Engine<Silent>) -> Result<Option<(u64, u64)>, Fail> {
    if engine.events() >= MOST_EVENTS {
        return Err("no event is left")?;
    }
    match engine.pull(0)? {
        Pulled::NotReady => Ok(None),
        Pulled::Frame(frame) => Ok(Some((frame.first, frame.last))),
    }
}

/// Whether the engine does what a row says.
fn follows(alloc: Global, engine: &mut Engine<Silent>, row: Row) -> Result<bool, Fail> {
    match row {
        Sent(wire, marker, payload) => {
            let bytes = octets_of(alloc, wire, marker, payload)?;
            take(engine, bytes.as_slice())?;
            Ok(true)
        }
        Pull(want) => Ok(pull(engine)? == want),
    }
}

/// How many rows the engine follows, from the first on.
fn followed(alloc: Global, engine: &mut Engine<Silent>, rows: &[Row]) -> Result<usize, Fail> {
    let mut count = 0;
    for row in rows {
        if !follows(alloc, engine, *row)? {
            return Ok(count);
        }
        count = count.saturating_add(1);
    }
    Ok(count)
}

/// How far the clock and the count of events are after a tick.
fn ticked(engine: &mut Engine<Silent>, moment: u64) -> Result<(u64, u32), Fail> {
    if engine.events() >= MOST_EVENTS {
        return Err("no event is left")?;
    }
    engine.tick(moment);
    Ok((engine.now(), engine.events()))
}

#[test]
fn frames_come_out(rt: HostRuntime) -> Result<(), Fail> {
    let mut engine = Engine::<Silent>::new(rt.alloc(), SETTINGS)?;
    let rows: &[Row] = &ROWS;
    assert_eq!(rt; followed(rt.alloc(), &mut engine, rows)?, 12);
    assert_eq!(rt; ticked(&mut engine, 7)?, (7, 13));
    Ok(())
}

#[test]
fn octets_are_kept(rt: HostRuntime) -> Result<(), Fail> {
    let mut event = EventBytes::new(rt.alloc());
    event.push(7)?;
    assert_eq!(rt; event.as_slice(), [7].as_slice());
    let mut frame = FrameBytes::new(rt.alloc());
    frame.push(8)?;
    assert_eq!(rt; frame.as_slice(), [8].as_slice());
    Ok(())
}

fn is_send<T: Send>() {}

#[test]
fn an_engine_may_go_to_another_thread() {
    is_send::<Engine<Silent>>();
}
