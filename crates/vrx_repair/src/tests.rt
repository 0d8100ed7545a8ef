// What no clause says: that memory is there, and that a packet is rebuilt. The octets were worked out by hand.

ghost use Rattle.std.specs.Prelude.{◌+◌, ◌==◌, slice_index, refl, length, None, Ok};
ghost use Rattle.std.proofs.Common.{rules};
ghost use Rattle.vrx_codec.specs.Joining.{beginning, join_from};
ghost use Rattle.vrx_codec.specs.declared.part.Start.TheVariants.{Yes};

use super::*;
use bytes::Bytes;
use std::marker::PhantomData;
use std::test::Fail;
use vrx_codec::{Codec, Join, JoinFault, Part, PartFault, Start};
use vrx_num::Pictures;
use vrx_window::{Held, Window};

// Each payload is a part, and its own body.
struct Said;

impl Codec for Said {
    ghost meaning = { record {
      read = λ payload. Ok (record { start = Yes; key = slice_index payload 0 == 1; layers = None; body = payload });
      join = λ parts. join_from (record {
        step = λ state part. Ok (record { unit = None; octets = state.octets + length part.body });
        end = λ state. Ok state.octets;
        adds = λ state part. part.body;
      }) parts beginning;
    } };

    ghost joining = { record {
      step = λ state part. Ok (record { unit = None; octets = state.octets + length part.body });
      end = λ state. Ok state.octets;
      adds = λ state part. part.body;
    } };

    fn read_part(payload: &[u8]) -> Result<Part<'_>, PartFault> {
        Ok(Part {
            start: Start::Yes,
            key: payload.first().copied().unwrap_or(0) == 1,
            layers: None,
            body: payload,
        })
    }

    fn step(state: Join, part: &Part<'_>) -> Result<Join, JoinFault> {
        Ok(Join {
            unit: None,
            octets: state.octets + part.body.len() as u32,
        })
    }

    fn end(state: Join) -> Result<u32, JoinFault> {
        Ok(state.octets)
    }

    fn append(_state: Join, part: &Part<'_>, out: &mut Vec<u8>) {
        let Ok(()) = out.extend_from_slice(part.body) else {
            unreachable!()
        };
    }

    ghost within = { Prim.search rules };

    ghost joins = { λ parts. refl };

    ghost counted = { Prim.search rules };

    ghost raises = { Prim.search rules };
}

const READING: Reading<Said> = Reading {
    media_ssrc: 10,
    media_type: 96,
    codec: PhantomData,
};

// FEC 49 over 48 alone, by bit 47 of a long mask
static FEC49: [u8; 21] = [
    64, 224, 0, 1, 0, 0, 11, 184, 0, 3, 0, 3, 0, 0, 0, 0, 0, 1, 16, 1, 187,
];

#[test]
fn rebuilds_by_parity_of_one_packet(rt: HostRuntime) -> Result<(), Fail> {
    let mut window = Window::new(rt.alloc())?;
    let held = Held::Fec {
        text: Bytes::from_static(&FEC49),
    };
    let plan = plan::<Said>(rt.alloc(), &window, 65_585, &held, &READING)?;
    assert_eq!(rt; plan.numbers(), &[65_584][..]);
    let mut pictures = Pictures::new();
    let numbers = plan.commit(&mut window, &mut pictures, 65_585, held);
    assert_eq!(rt; numbers.as_slice(), &[65_584][..]);
    assert!(rt; window.held(65_584).is_some());
    assert!(rt; window.held(65_583).is_none());
    Ok(())
}
