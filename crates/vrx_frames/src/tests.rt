// What no clause says: that memory is there, and that a frame is found. The values were worked out by hand.

ghost use Rattle.std.specs.Prelude.{◌≡◌, ◌+◌, ◌==◌, if◌then◌else◌, slice_index, refl, length, None, Ok, IfSome};
ghost use Rattle.std.proofs.Common.{rules};
ghost use Rattle.vrx_codec.specs.Joining.{beginning, join_from};
ghost use Rattle.vrx_codec.specs.declared.part.Start.TheVariants.{Yes, ByNeighbour};
ghost use Rattle.vrx_window.specs.Sound.{IsSound, SaysItsText};

use super::*;
use arrayvec::ArrayVec;
use bytes::Bytes;
use std::alloc::Global;
use std::test::Fail;
use vrx_codec::{Codec, Join, JoinFault, Part, PartFault, Run, Start};
use vrx_num::limits::MOST_OCTETS;
use vrx_rtp::read;
use vrx_window::{Held, Window, sound_stays};

// Each payload is a part, and its own body. A first octet of 1 begins a frame, any other leaves it open.
struct Said;

impl Codec for Said {
    ghost meaning = { record {
      read = λ payload. Ok (record { start = (if slice_index payload 0 == 1 then Yes else ByNeighbour); key = slice_index payload 0 == 1; layers = None; body = payload });
      join = λ parts. join_from (record {
        step = λ state part. Ok (record { unit = None; octets = state.octets + length part.body });
        end = λ state. Ok state.octets;
        adds = λ state part. part.body;
      }) parts beginning;
    } };

    ghost joining = { record {
      step = λ state part. Ok (record { unit = None; octets = state.octets + length part.body });
      end = λ state. Ok state.octets;
      adds = λ state part. part.body;
    } };

    fn read_part(payload: &[u8]) -> Result<Part<'_>, PartFault> {
        let first = payload.first().copied().unwrap_or(0);
        Ok(Part {
            start: if first == 1 {
                Start::Yes
            } else {
                Start::ByNeighbour
            },
            key: first == 1,
            layers: None,
            body: payload,
        })
    }

    fn step(state: Join, part: &Part<'_>) -> Result<Join, JoinFault> {
        Ok(Join {
            unit: None,
            octets: state.octets + part.body.len() as u32,
        })
    }

    fn end(state: Join) -> Result<u32, JoinFault> {
        Ok(state.octets)
    }

    fn append(_state: Join, part: &Part<'_>, out: &mut Vec<u8>) {
        let Ok(()) = out.extend_from_slice(part.body) else {
            unreachable!()
        };
    }

    ghost within = { Prim.search rules };

    ghost joins = { λ parts. refl };

    ghost counted = { Prim.search rules };

    ghost raises = { Prim.search rules };
}

// The marker, the timestamp, the start and the key that a text says, if it is a media packet without layers.
fn said_by<C: Codec>(text: &[u8]) -> Option<(bool, u32, Start, bool)>
    ensures { IfSome result (λ said. SaysItsText C.meaning text.now said.0 said.1 said.2 said.3 None) }
{
    if text.len() > MOST_OCTETS {
        return None;
    }
    match read(text) {
        Err(_) => None,
        Ok(packet) => {
            if packet.padding != 0 || packet.payload.is_empty() {
                return None;
            }
            match C::read_part(packet.payload) {
                Err(_) => None,
                Ok(part) => match part.layers {
                    Some(_) => None,
                    None => Some((packet.marker, packet.ts, part.start, part.key)),
                },
            }
        }
    }
}

// A media packet with this text, if it is one without layers.
fn held_of<C: Codec>(text: Bytes) -> Option<Held>
    ensures { IfSome result (λ held. IsSound C.meaning held) }
{
    match said_by::<C>(text.as_slice()) {
        None => None,
        Some((marker, ts, start, key)) => Some(Held::Media {
            text,
            marker,
            ts,
            start,
            key,
            layers: None,
        }),
    }
}

// What the first packet that comes completes, with the front of the passed numbers.
fn first_run(
    alloc: Global,
    n: u64,
    text: &'static [u8],
    passed: Option<u64>,
) -> Result<ArrayVec<Run, 2>, Fail> {
    let mut window = Window::new(alloc)?;
    let mut runs = Runs::<Said>::new(alloc)?;
    // The law cited here: a window of sound packets stays one.
    sound_stays();
    match held_of::<Said>(Bytes::from_static(text)) {
        None => Err("no packet")?,
        Some(held) => {
            window.place(n, held);
            Ok(runs.completed(&window, n, passed))
        }
    }
}

// A packet with the marker and timestamp 7, and one without the marker.
static WHOLE: [u8; 14] = [0x80, 0xe0, 0, 1, 0, 0, 0, 7, 0, 0, 0, 10, 1, 5];

static OPEN: [u8; 14] = [0x80, 0xe0, 0, 1, 0, 0, 0, 7, 0, 0, 0, 10, 0, 5];

static FIRST: [u8; 14] = [0x80, 0x60, 0, 1, 0, 0, 0, 7, 0, 0, 0, 10, 1, 5];

#[test]
fn completes_a_frame_of_one_packet(rt: HostRuntime) -> Result<(), Fail> {
    let want = Run {
        first: 70_000,
        last: 70_000,
        ts: 7,
        key: true,
        layers: None,
        octets: 2,
    };
    let runs = first_run(rt.alloc(), 70_000, &WHOLE, None)?;
    assert!(rt; runs.as_slice() == [want].as_slice());
    Ok(())
}

#[test]
fn begins_after_what_is_passed(rt: HostRuntime) -> Result<(), Fail> {
    for (passed, want) in [
        (None, 0),
        (Some(69_998), 0),
        (Some(69_999), 1),
        (Some(70_000), 0),
    ] {
        let runs = first_run(rt.alloc(), 70_000, &OPEN, passed)?;
        assert_eq!(rt; runs.len(), want, "{passed:?}");
    }
    Ok(())
}

#[test]
fn waits_for_the_marker(rt: HostRuntime) -> Result<(), Fail> {
    let runs = first_run(rt.alloc(), 70_000, &FIRST, None)?;
    assert_eq!(rt; runs.len(), 0);
    Ok(())
}
