use super::*;
use arrayvec::ArrayVec;
use std::test::Fail;
use vrx_rtp::{Extension, RtpView, read, write};

/// A packet of type 96 with the marker, as number 1 of the source 10.
const MEDIA: RtpView<'static> = RtpView {
    marker: true,
    pt: 96,
    seq: 1,
    ts: 0,
    ssrc: 10,
    csrc: &[],
    extension: None,
    payload: &[0x10, 0x00, 0xaa],
    padding: 0,
};

/// The same with a timestamp, one contributing source, an extension of one word, and padding; number 65,534.
const WHOLE: RtpView<'static> = RtpView {
    marker: false,
    pt: 98,
    seq: 65_534,
    ts: 50_595_078,
    ssrc: 10,
    csrc: &[0x0b, 0x0c, 0x0d, 0x0e],
    extension: Some(Extension {
        profile: 0xbede,
        words: &[0x51, 0xaa, 0x00, 0x00],
    }),
    payload: &[0xf0],
    padding: 3,
};

// 80: version 2. e4: marker 1, type 100. Number 1, timestamp 0, source 10. 60: F 0, type 96. The block.
const RED_OCTETS: &[u8] = &[
    0x80, 0xe4, 0, 1, 0, 0, 0, 0, 0, 0, 0, 0x0a, 0x60, 0x10, 0, 0xaa,
];

// 80: version 2. e1: marker 1, type 97. Number 7, timestamp 0, source 12. Number 1. The payload.
const RTX_OCTETS: &[u8] = &[
    0x80, 0xe1, 0, 7, 0, 0, 0, 0, 0, 0, 0, 0x0c, 0, 1, 0x10, 0, 0xaa,
];

// 91: version 2, X, one contributing source. 63: marker 0, type 99. Number 8, timestamp 0x03040506, source 12. The
// contributing source. Profile 0xbede, one word. Number 65,534. The payload. No padding.
const WHOLE_OCTETS: &[u8] = &[
    0x91, 0x63, 0, 8, 3, 4, 5, 6, 0, 0, 0, 0x0c, 0x0b, 0x0c, 0x0d, 0x0e, 0xbe, 0xde, 0, 1, 0x51,
    0xaa, 0, 0, 0xff, 0xfe, 0xf0,
];

/// 97 stands for 96 and 99 for 98, of the source 10.
fn apt() -> Apt {
    let mut pairs = ArrayVec::new();
    pairs.push((97, 96));
    pairs.push((99, 98));
    Apt {
        pairs,
        media_ssrc: 10,
    }
}

#[test]
fn reads_red(rt: HostRuntime) -> Result<(), Fail> {
    let cases: [(&[u8], Result<Block<'_>, RedFault>); 5] = [
        (
            read(RED_OCTETS)?.payload,
            Ok(Block {
                pt: 96,
                rest: &[0x10, 0, 0xaa],
            }),
        ),
        // the greatest type, and a block without an octet
        (&[0x7f], Ok(Block { pt: 127, rest: &[] })),
        (&[], Err(RedFault::Empty)),
        (&[0xe0, 0], Err(RedFault::MoreBlocks)),
        (&[0x80], Err(RedFault::MoreBlocks)),
    ];
    for (payload, want) in cases {
        assert_eq!(rt; red_read(payload), want, "{payload:?}");
    }
    Ok(())
}

#[test]
fn reads_rtx(rt: HostRuntime) -> Result<(), Fail> {
    let apt = apt();
    let cases: [(&[u8], Result<RtpView<'_>, RtxFault>); 5] = [
        (RTX_OCTETS, Ok(MEDIA)),
        (
            WHOLE_OCTETS,
            Ok(RtpView {
                padding: 0,
                ..WHOLE
            }),
        ),
        // type 97 with no octet, and with one
        (
            &[0x80, 0x61, 0, 8, 0, 0, 0, 0, 0, 0, 0, 0x0c],
            Err(RtxFault::RtxEmpty),
        ),
        (
            &[0x80, 0x61, 0, 9, 0, 0, 0, 0, 0, 0, 0, 0x0c, 0],
            Err(RtxFault::RtxEmpty),
        ),
        // type 96
        (
            &[
                0x80, 0x60, 0, 9, 0, 0, 0, 0, 0, 0, 0, 0x0c, 0, 1, 0x10, 0, 0xaa,
            ],
            Err(RtxFault::NoApt),
        ),
    ];
    for (datagram, want) in cases {
        assert_eq!(rt; rtx_read(&read(datagram)?, &apt), want, "{datagram:?}");
    }
    Ok(())
}

#[test]
fn wraps(rt: HostRuntime) -> Result<(), Fail> {
    let payload = red_wrap(rt.alloc(), 96, MEDIA.payload)?;
    let red = RtpView {
        pt: 100,
        payload: payload.as_slice(),
        ..MEDIA
    };
    assert_eq!(rt; write(rt.alloc(), &red)?.as_slice(), RED_OCTETS);
    assert_eq!(rt;
        rtx_wrap(rt.alloc(), &MEDIA, 97, 12, 7)?.as_slice(),
        RTX_OCTETS
    );
    assert_eq!(rt;
        rtx_wrap(rt.alloc(), &WHOLE, 99, 12, 8)?.as_slice(),
        WHOLE_OCTETS
    );
    Ok(())
}
