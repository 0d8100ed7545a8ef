ghost use Rattle.std.specs.Prelude.{◌≤◌, ◌^◌, length};

use super::*;
use std::alloc::Global;
use std::test::Fail;
use vrx_codec::{Codec, Join, Layers, Part, PartFault, Start};
use vrx_num::NoMemory;

/// The part of a payload, by any codec.
fn part_of<C: Codec>(payload: &[u8]) -> Result<Part<'_>, PartFault> {
    C::read_part(payload)
}

/// What the one part of a payload makes of a state, the octets then, and those that it adds, by any codec.
fn joined<C: Codec>(
    alloc: Global,
    state: Join,
    payload: &[u8],
) -> Result<Option<(Join, u32, Vec<u8>)>, NoMemory>
    requires octets { state.octets ≤ 2 ^ 30 }
    requires short { length payload.now ≤ 1000 }
{
    let mut out = Vec::with_capacity(alloc, 5 * payload.len())?;
    let Ok(part) = C::read_part(payload) else {
        return Ok(None);
    };
    let Ok(next) = C::step(state, &part) else {
        return Ok(None);
    };
    C::append(state, &part, &mut out);
    let Ok(octets) = C::end(next) else {
        return Ok(None);
    };
    Ok(Some((next, octets, out)))
}

/// A start without layers that says a keyframe, of one octet.
const PLAIN: Part<'static> = Part {
    start: Start::Yes,
    key: true,
    layers: None,
    body: &[0],
};

/// The same of a part that isn't a start.
const INNER: Part<'static> = Part {
    start: Start::No,
    key: false,
    ..PLAIN
};

#[test]
fn reads_descriptors_without_layers(rt: HostRuntime) {
    let cases: [(&[u8], Part<'_>); 18] = [
        (&[0x10, 0], PLAIN),
        (
            &[0x10, 0, 0xaa],
            Part {
                body: &[0, 0xaa],
                ..PLAIN
            },
        ),
        // bit P of the frame's first octet is 1
        (
            &[0x10, 1, 0xaa],
            Part {
                key: false,
                body: &[1, 0xaa],
                ..PLAIN
            },
        ),
        // S = 0; S = 1 with PID 1, and with PID 4
        (&[0x00, 0], INNER),
        (&[0x11, 0], INNER),
        (&[0x14, 0], INNER),
        // N; both bits R
        (&[0x30, 0], PLAIN),
        (&[0x58, 0], PLAIN),
        // X with no flag, and with the four bits RSV
        (&[0x90, 0x00, 0], PLAIN),
        (&[0x90, 0x0f, 0], PLAIN),
        // I: a PictureID of 7 bits, and of 15
        (&[0x90, 0x80, 0x11, 0], PLAIN),
        (&[0x90, 0x80, 0x81, 0x02, 0], PLAIN),
        // L; T; K
        (&[0x90, 0x40, 0x07, 0], PLAIN),
        (&[0x90, 0x20, 0xa0, 0], PLAIN),
        (&[0x90, 0x10, 0x1f, 0], PLAIN),
        // 15 bits, L and K without T; 15 bits and T without L; 7 bits, L and T
        (&[0x90, 0xd0, 0x81, 0x02, 0x07, 0xff, 0], PLAIN),
        (&[0x90, 0xa0, 0x81, 0x02, 0xa0, 0], PLAIN),
        (&[0x90, 0xe0, 0x11, 0x07, 0xa0, 0], PLAIN),
    ];
    for (payload, want) in cases {
        assert_eq!(rt; part_of::<Vp8>(payload), Ok(want), "{payload:?}");
    }
}

#[test]
fn reads_layers(rt: HostRuntime) {
    let second = Layers {
        picture: 258,
        tl0: 7,
        tid: 1,
        sync: false,
    };
    let cases: [(&[u8], Part<'_>, Layers); 5] = [
        (
            &[0x90, 0xe0, 0x80, 0x01, 0x05, 0x00, 0, 0xaa],
            Part {
                body: &[0, 0xaa],
                ..PLAIN
            },
            Layers {
                picture: 1,
                tl0: 5,
                tid: 0,
                ..second
            },
        ),
        // a0: TID 2, Y
        (
            &[0x90, 0xe0, 0x81, 0x02, 0x07, 0xa0, 0],
            PLAIN,
            Layers {
                tid: 2,
                sync: true,
                ..second
            },
        ),
        // 5f: TID 1, KEYIDX 31, which K says; and a part that isn't a start
        (&[0x80, 0xf0, 0x81, 0x02, 0x07, 0x5f, 0], INNER, second),
        // the greatest of each; df: TID 3, KEYIDX 31
        (
            &[0x90, 0xe0, 0xff, 0xff, 0xff, 0xdf, 0],
            PLAIN,
            Layers {
                picture: 32_767,
                tl0: 255,
                tid: 3,
                sync: false,
            },
        ),
        // the least of each, with the bits RSV; 20: TID 0, Y
        (
            &[0x90, 0xef, 0x80, 0x00, 0x00, 0x20, 0],
            PLAIN,
            Layers {
                picture: 0,
                tl0: 0,
                tid: 0,
                sync: true,
            },
        ),
    ];
    for (payload, part, layers) in cases {
        let want = Part {
            layers: Some(layers),
            ..part
        };
        assert_eq!(rt; part_of::<Vp8>(payload), Ok(want), "{payload:?}");
    }
}

#[test]
fn tells_where_a_payload_ends_too_early(rt: HostRuntime) {
    // 1: the descriptor runs past the end; 2: nothing follows it
    let cases: [(&[u8], u8); 25] = [
        // the longest descriptor, cut at each octet
        (&[], 1),
        (&[0x90], 1),
        (&[0x90, 0xf0], 1),
        (&[0x90, 0xf0, 0x81], 1),
        (&[0x90, 0xf0, 0x81, 0x02], 1),
        (&[0x90, 0xf0, 0x81, 0x02, 0x07], 1),
        (&[0x90, 0xf0, 0x81, 0x02, 0x07, 0xa0], 2),
        // one octet, and two
        (&[0x80], 1),
        (&[0x00], 2),
        (&[0x10], 2),
        (&[0x80, 0x00], 2),
        // I with 7 bits, and with 15; L; T; K; L and T; L and K
        (&[0x80, 0x80], 1),
        (&[0x80, 0x80, 0x11], 2),
        (&[0x80, 0x80, 0x81], 1),
        (&[0x80, 0x80, 0x81, 0x02], 2),
        (&[0x80, 0x40], 1),
        (&[0x80, 0x40, 0x07], 2),
        (&[0x80, 0x20], 1),
        (&[0x80, 0x20, 0xa0], 2),
        (&[0x80, 0x10], 1),
        (&[0x80, 0x10, 0x1f], 2),
        (&[0x80, 0x60, 0x07], 1),
        (&[0x80, 0x60, 0x07, 0xa0], 2),
        (&[0x80, 0x50, 0x07], 1),
        // a start with layers
        (&[0x90, 0xe0, 0x80, 0x01, 0x05, 0x00], 2),
    ];
    for (payload, code) in cases {
        let at = payload.len();
        assert_eq!(rt;
            part_of::<Vp8>(payload),
            Err(PartFault { code, at }),
            "{payload:?}"
        );
    }
}

#[test]
fn joins_bodies(rt: HostRuntime) -> Result<(), Fail> {
    let state = |octets: u32| Join { unit: None, octets };
    let Some((next, octets, out)) = joined::<Vp8>(rt.alloc(), state(0), &[0x10, 0, 0xaa])? else {
        panic!(rt; "it joins");
    };
    assert_eq!(rt; next, state(2));
    assert_eq!(rt; octets, 2);
    assert_eq!(rt; out.as_slice(), [0, 0xaa].as_slice());
    let Some((next, octets, out)) = joined::<Vp8>(rt.alloc(), state(2), &[0x00, 0xbb])? else {
        panic!(rt; "it joins");
    };
    assert_eq!(rt; next, state(3));
    assert_eq!(rt; octets, 3);
    assert_eq!(rt; out.as_slice(), [0xbb].as_slice());
    Ok(())
}

#[test]
fn writes_parts(rt: HostRuntime) -> Result<(), Fail> {
    let layers = |picture: u16, tid: u8, sync: bool| Layers {
        picture,
        tl0: 5,
        tid,
        sync,
    };
    let plain = write_part(rt.alloc(), true, None, &[0, 0xaa])?;
    assert_eq!(rt; plain.as_slice(), [0x10, 0, 0xaa].as_slice());
    let inner = write_part(rt.alloc(), false, None, &[0xbb])?;
    assert_eq!(rt; inner.as_slice(), [0x00, 0xbb].as_slice());
    let first = write_part(rt.alloc(), true, Some(layers(1, 0, false)), &[0, 0xaa])?;
    assert_eq!(rt;
        first.as_slice(),
        [0x90, 0xe0, 0x80, 0x01, 0x05, 0x00, 0, 0xaa].as_slice()
    );
    let second = write_part(rt.alloc(), true, Some(layers(3, 1, false)), &[1, 0xcc])?;
    assert_eq!(rt;
        second.as_slice(),
        [0x90, 0xe0, 0x80, 0x03, 0x05, 0x40, 1, 0xcc].as_slice()
    );
    let third = write_part(rt.alloc(), true, Some(layers(2, 2, true)), &[1, 0xbb])?;
    assert_eq!(rt;
        third.as_slice(),
        [0x90, 0xe0, 0x80, 0x02, 0x05, 0xa0, 1, 0xbb].as_slice()
    );
    let inside = write_part(rt.alloc(), false, Some(layers(32_767, 3, true)), &[0xdd])?;
    assert_eq!(rt;
        inside.as_slice(),
        [0x80, 0xe0, 0xff, 0xff, 0x05, 0xe0, 0xdd].as_slice()
    );
    Ok(())
}
