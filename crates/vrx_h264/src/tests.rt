ghost use Rattle.std.specs.Prelude.{◌≤◌, ◌≢◌, ◌^◌, [], length, IsTrue};
ghost use Rattle.std.specs.List.{AllByRecursion};
ghost use Rattle.vrx_h264.specs.IsPayload.{IsUnit};

use super::*;
use std::alloc::Global;
use std::test::Fail;
use vrx_codec::{Codec, Join, JoinFault, Part, PartFault, Start};
use vrx_num::NoMemory;

/// The part of a payload, by any codec.
fn part_of<C: Codec>(payload: &[u8]) -> Result<Part<'_>, PartFault> {
    C::read_part(payload)
}

/// What the one part of a payload makes of a state, and the octets that it adds, by any codec. None if it is no
/// part.
fn one_joined<C: Codec>(
    alloc: Global,
    state: Join,
    payload: &[u8],
) -> Result<Option<Result<(Join, Vec<u8>), JoinFault>>, NoMemory>
    requires octets { state.octets ≤ 2 ^ 30 }
    requires short { length payload.now ≤ 1000 }
{
    let mut out = Vec::with_capacity(alloc, 5 * payload.len())?;
    let Ok(part) = C::read_part(payload) else {
        return Ok(None);
    };
    match C::step(state, &part) {
        Ok(next) => {
            C::append(state, &part, &mut out);
            Ok(Some(Ok((next, out))))
        }
        Err(fault) => Ok(Some(Err(fault))),
    }
}

/// How joining ends, by any codec.
fn ended<C: Codec>(state: Join) -> Result<u32, JoinFault> {
    C::end(state)
}

/// The bytes that short payloads join to. None if one is no part.
fn joined(
    alloc: Global,
    payloads: &[&[u8]],
) -> Result<Option<Result<Vec<u8>, JoinFault>>, NoMemory> {
    let mut bytes = Vec::new(alloc);
    let mut state = Join {
        unit: None,
        octets: 0,
    };
    for payload in payloads {
        if payload.len() > 1000 || state.octets > 1_000_000 {
            return Ok(None);
        }
        match one_joined::<H264>(alloc, state, payload)? {
            None => return Ok(None),
            Some(Err(fault)) => return Ok(Some(Err(fault))),
            Some(Ok((next, added))) => {
                bytes.extend_from_slice(added.as_slice())?;
                state = next;
            }
        }
    }
    match ended::<H264>(state) {
        Ok(_) => Ok(Some(Ok(bytes))),
        Err(fault) => Ok(Some(Err(fault))),
    }
}

#[test]
fn reads_parts(rt: HostRuntime) {
    // what the payload says of start and key
    let cases: [(&[u8], Start, bool); 16] = [
        // single units: a slice, a slice of an IDR picture, and both sets; 41 and 01 have other NRI, e5 has F
        (&[0x41, 0x9a], Start::ByNeighbour, false),
        (&[0x01], Start::ByNeighbour, false),
        (&[0x65, 0x88], Start::ByNeighbour, true),
        (&[0xe5], Start::ByNeighbour, true),
        (&[0x67, 0x42], Start::Yes, false),
        (&[0x68, 0xce], Start::ByNeighbour, false),
        // the greatest type of a unit as such
        (&[0x17], Start::ByNeighbour, false),
        // STAP-A: both sets; the same with an IDR slice after them; a picture parameter set before the other
        (
            &[0x78, 0, 2, 0x67, 0x42, 0, 2, 0x68, 0xce],
            Start::Yes,
            false,
        ),
        (
            &[0x78, 0, 2, 0x67, 0x42, 0, 1, 0x68, 0, 1, 0x65],
            Start::Yes,
            true,
        ),
        (
            &[0x78, 0, 1, 0x68, 0, 2, 0x67, 0x42],
            Start::ByNeighbour,
            false,
        ),
        // one unit
        (&[0x78, 0, 1, 0x65], Start::ByNeighbour, true),
        // FU-A: the first, one inside, the last and one without octets of an IDR slice
        (&[0x7c, 0x85, 0xb1], Start::ByNeighbour, true),
        (&[0x7c, 0x05, 0xb1], Start::ByNeighbour, true),
        (&[0x7c, 0x45], Start::ByNeighbour, true),
        // of a sequence parameter set the first, and one inside
        (&[0x7c, 0x87, 0x42], Start::Yes, false),
        (&[0x7c, 0x07, 0x42], Start::ByNeighbour, false),
    ];
    for (payload, start, key) in cases {
        assert_eq!(rt;
            part_of::<H264>(payload),
            Ok(Part {
                start,
                key,
                layers: None,
                body: payload,
            }),
            "{payload:?}"
        );
    }
}

#[test]
fn tells_what_is_wrong_first(rt: HostRuntime) {
    let cases: [(&[u8], u8, usize); 25] = [
        (&[], 11, 0),
        // types 0, 25 to 27, 29 and 31
        (&[0x00], 12, 0),
        (&[0x79], 12, 0),
        (&[0x1b, 0x85], 12, 0),
        (&[0x1d, 0x85], 12, 0),
        (&[0xff], 12, 0),
        // STAP-A: nothing, half of a size, a size past the end by all of it and by one octet
        (&[0x78], 13, 1),
        (&[0x78, 0], 13, 1),
        (&[0x78, 0, 1], 13, 1),
        (&[0x78, 0, 3, 0x67, 0x42], 13, 1),
        (&[0x78, 1, 0, 0x67, 0x42], 13, 1),
        // the same after a unit
        (&[0x78, 0, 1, 0x67, 0], 13, 4),
        (&[0x78, 0, 1, 0x67, 0, 2, 0x68], 13, 4),
        // a size of 0 at once, and after units
        (&[0x78, 0, 0], 14, 1),
        (&[0x78, 0, 1, 0x67, 0, 0], 14, 4),
        (&[0x78, 0, 2, 0x67, 0x42, 0, 1, 0x68, 0, 0, 0xaa], 14, 8),
        // a unit of type 0; a STAP-A in a STAP-A; an FU-A in it, after a unit
        (&[0x78, 0, 1, 0x60], 12, 3),
        (&[0x78, 0, 4, 0x78, 0, 1, 0x67], 12, 3),
        (&[0x78, 0, 1, 0x67, 0, 2, 0x7c, 0x85], 12, 6),
        // FU-A: no header; S and E, also with a type that isn't a unit's; types 28, 0 and 24
        (&[0x7c], 15, 1),
        (&[0x7c, 0xc5], 16, 1),
        (&[0x7c, 0xdc], 16, 1),
        (&[0x7c, 0x9c], 12, 1),
        (&[0x7c, 0x80], 12, 1),
        (&[0x7c, 0x58, 0xaa], 12, 1),
    ];
    for (payload, code, at) in cases {
        assert_eq!(rt;
            part_of::<H264>(payload),
            Err(PartFault { code, at }),
            "{payload:?}"
        );
    }
}

#[test]
fn joins_units(rt: HostRuntime) -> Result<(), Fail> {
    let cases: [(&[&[u8]], &[u8]); 8] = [
        (&[&[0x65, 0xb1]], &[0, 0, 0, 1, 0x65, 0xb1]),
        (
            &[&[0x67], &[0x68], &[0x65, 0xb1]],
            &[0, 0, 0, 1, 0x67, 0, 0, 0, 1, 0x68, 0, 0, 0, 1, 0x65, 0xb1],
        ),
        (
            &[&[0x78, 0, 2, 0x67, 0x42, 0, 2, 0x68, 0xce]],
            &[0, 0, 0, 1, 0x67, 0x42, 0, 0, 0, 1, 0x68, 0xce],
        ),
        (
            &[&[0x7c, 0x85, 0xb1], &[0x7c, 0x45, 0xb2]],
            &[0, 0, 0, 1, 0x65, 0xb1, 0xb2],
        ),
        // without octets in the first, with one inside; F and NRI are the first fragment's: fc has F, 3c NRI 1
        (
            &[&[0xfc, 0x81], &[0x3c, 0x01, 0xb1], &[0x1c, 0x41, 0xb2]],
            &[0, 0, 0, 1, 0xe1, 0xb1, 0xb2],
        ),
        // bit R says nothing
        (
            &[&[0x7c, 0xa5, 0xb1], &[0x7c, 0x65, 0xb2]],
            &[0, 0, 0, 1, 0x65, 0xb1, 0xb2],
        ),
        // one fragmented unit after another, and whole units between them
        (
            &[
                &[0x7c, 0x85],
                &[0x7c, 0x45],
                &[0x7c, 0x85, 0xb1],
                &[0x7c, 0x45],
            ],
            &[0, 0, 0, 1, 0x65, 0, 0, 0, 1, 0x65, 0xb1],
        ),
        (
            &[
                &[0x7c, 0x87],
                &[0x7c, 0x47, 0x42],
                &[0x68],
                &[0x78, 0, 1, 0x06],
                &[0x7c, 0x85],
                &[0x7c, 0x45, 0xb1],
            ],
            &[
                0, 0, 0, 1, 0x67, 0x42, 0, 0, 0, 1, 0x68, 0, 0, 0, 1, 0x06, 0, 0, 0, 1, 0x65, 0xb1,
            ],
        ),
    ];
    for (payloads, want) in cases {
        let Some(Ok(bytes)) = joined(rt.alloc(), payloads)? else {
            panic!(rt; "they join: {payloads:?}");
        };
        assert_eq!(rt; bytes.as_slice(), want, "{payloads:?}");
    }
    Ok(())
}

#[test]
fn tells_why_units_do_not_join(rt: HostRuntime) -> Result<(), Fail> {
    let cases: [(&[&[u8]], u8); 12] = [
        // a later fragment at once, after a whole unit, after the last of another
        (&[&[0x7c, 0x05]], 21),
        (&[&[0x7c, 0x45]], 21),
        (&[&[0x67], &[0x7c, 0x05]], 21),
        (&[&[0x7c, 0x85], &[0x7c, 0x45], &[0x7c, 0x45]], 21),
        // no end, after the first and after one inside; a single unit, an aggregate and a first fragment in its
        // place
        (&[&[0x7c, 0x85]], 22),
        (&[&[0x7c, 0x85], &[0x7c, 0x05]], 22),
        (&[&[0x7c, 0x85], &[0x65]], 22),
        (&[&[0x7c, 0x85], &[0x78, 0, 1, 0x65]], 22),
        (&[&[0x7c, 0x85], &[0x7c, 0x85]], 22),
        // another type inside, and at the end; a first fragment of another type is no later one
        (&[&[0x7c, 0x85], &[0x7c, 0x01]], 23),
        (&[&[0x7c, 0x85], &[0x7c, 0x41]], 23),
        (&[&[0x7c, 0x85], &[0x7c, 0x81]], 22),
    ];
    for (payloads, code) in cases {
        let Some(Err(fault)) = joined(rt.alloc(), payloads)? else {
            panic!(rt; "they don't join: {payloads:?}");
        };
        assert_eq!(rt; fault, JoinFault { code }, "{payloads:?}");
    }
    Ok(())
}

/// A unit of these octets.
fn unit_of(alloc: Global, octets: &[u8]) -> Result<Unit, NoMemory> {
    let mut unit = Unit::new(alloc);
    for octet in octets {
        unit.push(*octet)?;
    }
    Ok(unit)
}

/// Whether octets are a unit as such.
fn is_unit(octets: &[u8]) -> bool
    ensures { IsTrue result → IsUnit octets.now }
{
    match octets {
        [head, ..] => *head % 32 > 0 && *head % 32 < 24,
        [] => false,
    }
}

/// Whether these are units as such, at least one.
fn are_units(units: &[Unit]) -> bool
    ensures some { IsTrue result → units.now ≢ [] }
    ensures units { IsTrue result → AllByRecursion IsUnit units.now }
{
    match units {
        [] => false,
        [unit] => is_unit(unit.as_slice()),
        [unit, rest @ ..] => is_unit(unit.as_slice()) && are_units(rest),
    }
}

/// What is written for units. None if one isn't one as such, or there is none.
fn stap(alloc: Global, lists: &[&[u8]]) -> Result<Option<Result<Vec<u8>, WriteFault>>, NoMemory> {
    let mut units = Units::new(alloc);
    for octets in lists {
        units.push(unit_of(alloc, octets)?)?;
    }
    if !are_units(units.as_slice()) {
        return Ok(None);
    }
    Ok(Some(write_stap(alloc, &units)))
}

/// What is written for a stretch of a unit. None if that may not be written.
fn fu(alloc: Global, unit: &[u8], at: usize, len: usize) -> Result<Option<Vec<u8>>, NoMemory> {
    let right = is_unit(unit);
    if right && 1 <= at && at <= unit.len() && len <= unit.len() - at && len + 1 < unit.len() {
        Ok(Some(write_fu(alloc, unit, at, len)?))
    } else {
        Ok(None)
    }
}

#[test]
fn keeps_units_in_order(rt: HostRuntime) -> Result<(), Fail> {
    let mut units = Units::new(rt.alloc());
    assert!(rt; units.as_slice().is_empty());
    units.push(unit_of(rt.alloc(), &[0x67, 0x42])?)?;
    units.push(unit_of(rt.alloc(), &[0x68])?)?;
    let [first, second] = units.as_slice() else {
        panic!(rt; "two were put in");
    };
    assert_eq!(rt; first.as_slice(), [0x67, 0x42].as_slice());
    assert_eq!(rt; second.as_slice(), [0x68].as_slice());
    Ok(())
}

#[test]
fn writes_aggregates(rt: HostRuntime) -> Result<(), Fail> {
    let cases: [(&[&[u8]], &[u8]); 5] = [
        (
            &[&[0x67, 0x42], &[0x68, 0xce]],
            &[0x78, 0, 2, 0x67, 0x42, 0, 2, 0x68, 0xce],
        ),
        (&[&[0x65]], &[0x78, 0, 1, 0x65]),
        // only NRI 0; 1 and 2; F of one unit, and the NRI of the other
        (&[&[0x06]], &[0x18, 0, 1, 0x06]),
        (
            &[&[0x41], &[0x21, 0x9a]],
            &[0x58, 0, 1, 0x41, 0, 2, 0x21, 0x9a],
        ),
        (&[&[0x81], &[0x61]], &[0xf8, 0, 1, 0x81, 0, 1, 0x61]),
    ];
    for (units, want) in cases {
        let Some(Ok(payload)) = stap(rt.alloc(), units)? else {
            panic!(rt; "they are written: {units:?}");
        };
        assert_eq!(rt; payload.as_slice(), want, "{units:?}");
    }
    Ok(())
}

#[test]
fn writes_no_unit_whose_size_is_too_long(rt: HostRuntime) -> Result<(), Fail> {
    let octets = vec![in rt.alloc(); 0x65u8; 65_536]?;
    let long = octets.as_slice();
    let Some(Err(fault)) = stap(rt.alloc(), &[&[0x67], long])? else {
        panic!(rt; "it is too long");
    };
    assert_eq!(rt; fault, WriteFault::SizeTooLong);
    let Some(Ok(payload)) = stap(rt.alloc(), &[long.split_at(1).1])? else {
        panic!(rt; "it fits");
    };
    assert_eq!(rt; payload.len(), 65_538);
    let front = payload.as_slice().split_at(4).0;
    assert_eq!(rt; front, [0x78, 0xff, 0xff, 0x65].as_slice());
    Ok(())
}

#[test]
fn writes_fragments(rt: HostRuntime) -> Result<(), Fail> {
    let unit: &[u8] = &[0x65, 0xb1, 0xb2];
    let cases: [(&[u8], usize, usize, &[u8]); 8] = [
        (unit, 1, 1, &[0x7c, 0x85, 0xb1]),
        (unit, 2, 1, &[0x7c, 0x45, 0xb2]),
        // without octets: at the beginning, inside and at the end
        (unit, 1, 0, &[0x7c, 0x85]),
        (unit, 2, 0, &[0x7c, 0x05]),
        (unit, 3, 0, &[0x7c, 0x45]),
        // inside; F and NRI 1, type 1; the greatest type
        (
            &[0x65, 0xb1, 0xb2, 0xb3, 0xb4],
            2,
            2,
            &[0x7c, 0x05, 0xb2, 0xb3],
        ),
        (&[0xa1, 0xb1, 0xb2], 1, 1, &[0xbc, 0x81, 0xb1]),
        (&[0x17, 0xb1, 0xb2], 2, 1, &[0x1c, 0x57, 0xb2]),
    ];
    for (unit, at, len, want) in cases {
        let Some(payload) = fu(rt.alloc(), unit, at, len)? else {
            panic!(rt; "it is written: {want:?}");
        };
        assert_eq!(rt; payload.as_slice(), want, "{want:?}");
    }
    Ok(())
}

#[test]
fn joins_what_was_cut(rt: HostRuntime) -> Result<(), Fail> {
    let unit: &[u8] = &[0x65, 0xb1, 0xb2, 0xb3];
    let (Some(first), Some(inner), Some(last)) = (
        fu(rt.alloc(), unit, 1, 1)?,
        fu(rt.alloc(), unit, 2, 1)?,
        fu(rt.alloc(), unit, 3, 1)?,
    ) else {
        panic!(rt; "they are written");
    };
    let payloads = [first.as_slice(), inner.as_slice(), last.as_slice()];
    let Some(Ok(bytes)) = joined(rt.alloc(), &payloads)? else {
        panic!(rt; "they join");
    };
    assert_eq!(rt;
        bytes.as_slice(),
        [0, 0, 0, 1, 0x65, 0xb1, 0xb2, 0xb3].as_slice()
    );
    Ok(())
}
