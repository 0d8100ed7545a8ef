// What no clause says: that memory is there, and that the octets are those of the RFC's figures. They were worked out
// by hand.
use super::*;
use std::alloc::Global;
use std::test::Fail;

// E 0, L 0, no recovery bit; SN base 2; timestamp 0; length 1. Level 0: three octets of 2 and 3.
const FEC5: &[u8] = &[0, 0, 0, 2, 0, 0, 0, 0, 0, 1, 0, 3, 0xc0, 0, 0, 0x77, 0xcd];

// The same of 3 and 4, of which one has the marker.
const FEC6: &[u8] = &[
    0, 0x80, 0, 3, 0, 0, 0, 0, 0, 1, 0, 3, 0xc0, 0, 0, 0x11, 0xcd,
];

// L 1; SN base 1; timestamp 3,000; length 3. Level 0: three octets of the number 48, by bit 47 of the mask.
const FEC49: &[u8] = &[
    0x40, 0xe0, 0, 1, 0, 0, 0x0b, 0xb8, 0, 3, 0, 3, 0, 0, 0, 0, 0, 1, 0x10, 1, 0xbb,
];

// SN base 1; length 0. Level 0: two octets of 1 and 2. Level 1: three octets of 1.
const FEC3: &[u8] = &[
    0, 0x80, 0, 1, 0, 0, 0, 0, 0, 0, 0, 2, 0xc0, 0, 0x10, 0xb1, 0, 3, 0x80, 0, 0xa1, 0xa2, 0xa3,
];

// SN base 2; length 9,205. Level 0: one octet of 2.
const FEC4: &[u8] = &[0, 0, 0, 2, 0, 0, 0, 0, 0x23, 0xf5, 0, 1, 0x80, 0, 0xaa];

// L 1; SN base 1; length 5. Level 0: one octet of 1, by bit 0 of the mask.
const MADE49: &[u8] = &[
    0x40, 0x60, 0, 1, 0, 0, 0, 0, 0, 5, 0, 1, 0x80, 0, 0, 0, 0, 0, 0x10,
];

// Texts of the source 10 with timestamp 0 and of type 96; 4 and the second one of the number 2 have the marker.
const TEXT2: &[u8] = &[0x80, 0x60, 0, 2, 0, 0, 0, 0, 0, 0, 0, 10, 0, 0xbb];

const TEXT3: &[u8] = &[0x80, 0x60, 0, 3, 0, 0, 0, 0, 0, 0, 0, 10, 0, 0xcc, 0xcd];

const TEXT4: &[u8] = &[0x80, 0xe0, 0, 4, 0, 0, 0, 0, 0, 0, 0, 10, 0, 0xdd];

const LONG1: &[u8] = &[
    0x80, 0x60, 0, 1, 0, 0, 0, 0, 0, 0, 0, 10, 0x10, 0, 0xa1, 0xa2, 0xa3,
];

const LONG2: &[u8] = &[
    0x80, 0xe0, 0, 2, 0, 0, 0, 0, 0, 0, 0, 10, 0, 0xb1, 0xb2, 0xb3, 0xb4,
];

const TEXT48: &[u8] = &[
    0x80, 0xe0, 0, 48, 0, 0, 0x0b, 0xb8, 0, 0, 0, 10, 0x10, 1, 0xbb,
];

/// What is rebuilt of a payload, once this text was added, if it can be one.
fn rebuilt(
    alloc: Global,
    payload: &[u8],
    own: u16,
    offset: u8,
    text: &[u8],
    missing: u8,
) -> Result<Result<Vec<u8>, RecoverFault>, Fail> {
    let fec = read_fec(payload, own)?;
    let mut register = Register::start(alloc, &fec)?;
    if text.len() >= 12 && text.len() <= 65_547 {
        register.add(&fec, offset, text);
    }
    Ok(register.finish(&fec, missing, 10))
}

#[test]
fn rebuilds(rt: HostRuntime) -> Result<(), Fail> {
    let cases: [(&[u8], u16, u8, &[u8], u8, Result<&[u8], RecoverFault>); 7] = [
        (FEC5, 5, 0, TEXT2, 1, Ok(TEXT3)),
        (FEC5, 5, 1, TEXT3, 0, Ok(TEXT2)),
        (FEC6, 6, 0, TEXT3, 1, Ok(TEXT4)),
        (FEC49, 49, 0, &[], 47, Ok(TEXT48)),
        (FEC3, 3, 1, LONG2, 0, Ok(LONG1)),
        (FEC3, 3, 0, LONG1, 1, Err(RecoverFault::NotCovered)),
        (FEC4, 5, 0, &[], 0, Err(RecoverFault::BadLength)),
    ];
    for (payload, own, offset, text, missing, want) in cases {
        match (
            rebuilt(rt.alloc(), payload, own, offset, text, missing)?,
            want,
        ) {
            (Ok(text), Ok(wanted)) => assert_eq!(rt; text.as_slice(), wanted, "{own} {missing}"),
            (Err(fault), Err(wanted)) => assert_eq!(rt; fault, wanted, "{own} {missing}"),
            _ => assert!(rt; false, "{own} {missing}"),
        }
    }
    Ok(())
}

#[test]
fn refuses(rt: HostRuntime) {
    let cases: [(&[u8], u16, FecFaultKind, usize); 5] = [
        (&[0], 1, FecFaultKind::Short, 1),
        (&FEC49[..20], 50, FecFaultKind::LevelPastEnd, 10),
        (&FEC5[..10], 5, FecFaultKind::NoneProtected, 10),
        (FEC5, 3, FecFaultKind::AheadOfSelf, 2),
        (FEC5, 32_770, FecFaultKind::AheadOfSelf, 2),
    ];
    for (payload, own, kind, at) in cases {
        assert_eq!(rt;
            read_fec(payload, own).err(),
            Some(FecFault { kind, at }),
            "{own}"
        );
    }
}

#[test]
fn makes(rt: HostRuntime) -> Result<(), Fail> {
    let mut maker = FecMaker::start(
        rt.alloc(),
        1,
        false,
        &[
            LevelPlan {
                mask: 0xc000,
                length: 2,
            },
            LevelPlan {
                mask: 0x8000,
                length: 3,
            },
        ],
    )?;
    maker.add(1, LONG2);
    maker.add(0, LONG1);
    assert_eq!(rt; maker.finish().as_slice(), FEC3);

    // the mask 800000000000, whose bit 0 names 1
    let plan = [LevelPlan {
        mask: 0x8000_0000_0000,
        length: 1,
    }];
    let mut maker = FecMaker::start(rt.alloc(), 1, true, &plan)?;
    maker.add(0, LONG1);
    assert_eq!(rt; maker.finish().as_slice(), MADE49);
    Ok(())
}

#[test]
fn xors(rt: HostRuntime) {
    let mut octets = [0x0f, 0xff, 0x01];
    xor_into(&mut octets, &[0xff, 0x0f]);
    assert_eq!(rt; octets, [0xf0, 0xf0, 0x01]);
    xor_into(&mut octets, &[1, 1, 1, 1]);
    assert_eq!(rt; octets, [0xf1, 0xf1, 0]);
}

fn is_send<T: Send>() {}

#[test]
fn they_may_go_to_another_thread() {
    is_send::<Register>();
    is_send::<FecMaker>();
}
