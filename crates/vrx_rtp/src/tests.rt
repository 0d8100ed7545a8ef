use super::*;
use std::test::Fail;

/// A packet with nothing but its payload.
const PLAIN: RtpView<'static> = RtpView {
    marker: true,
    pt: 96,
    seq: 1,
    ts: 0,
    ssrc: 10,
    csrc: &[],
    extension: None,
    payload: &[0x10, 0x00, 0xaa],
    padding: 0,
};

/// One contributing source, an extension of one word, and three padding octets.
const WHOLE: RtpView<'static> = RtpView {
    marker: false,
    pt: 111,
    seq: 258,
    ts: 50_595_078,
    ssrc: 117_967_114,
    csrc: &[0x0b, 0x0c, 0x0d, 0x0e],
    extension: Some(Extension {
        profile: 0xbede,
        words: &[0x51, 0xaa, 0x00, 0x00],
    }),
    payload: &[0xf0],
    padding: 3,
};

/// An extension of no words, and no payload.
const BARE: RtpView<'static> = RtpView {
    marker: false,
    pt: 127,
    seq: 65_535,
    ts: 4_294_967_295,
    ssrc: 2_147_483_648,
    csrc: &[],
    extension: Some(Extension {
        profile: 0x1000,
        words: &[],
    }),
    payload: &[],
    padding: 1,
};

// 80: version 2. e0: marker 1, type 96. Number 1, timestamp 0, source 10. Payload.
const PLAIN_OCTETS: &[u8] = &[0x80, 0xe0, 0, 1, 0, 0, 0, 0, 0, 0, 0, 0x0a, 0x10, 0, 0xaa];

// b1: version 2, P, X, one contributing source. 6f: marker 0, type 111. Number 0x0102, timestamp 0x03040506, source
// 0x0708090a. The contributing source. Profile 0xbede, one word. Payload. Padding.
const WHOLE_OCTETS: &[u8] = &[
    0xb1, 0x6f, 1, 2, 3, 4, 5, 6, 7, 8, 9, 0x0a, 0x0b, 0x0c, 0x0d, 0x0e, 0xbe, 0xde, 0, 1, 0x51,
    0xaa, 0, 0, 0xf0, 0, 0, 3,
];

// b0: version 2, P, X. 7f: marker 0, type 127. Profile 0x1000, no words. One padding octet.
const BARE_OCTETS: &[u8] = &[
    0xb0, 0x7f, 0xff, 0xff, 0xff, 0xff, 0xff, 0xff, 0x80, 0, 0, 0, 0x10, 0, 0, 0, 1,
];

/// The sources 1 to 15.
const SOURCES: &[u8] = &[
    0, 0, 0, 1, 0, 0, 0, 2, 0, 0, 0, 3, 0, 0, 0, 4, 0, 0, 0, 5, 0, 0, 0, 6, 0, 0, 0, 7, 0, 0, 0, 8,
    0, 0, 0, 9, 0, 0, 0, 10, 0, 0, 0, 11, 0, 0, 0, 12, 0, 0, 0, 13, 0, 0, 0, 14, 0, 0, 0, 15,
];

// 8f: version 2, 15 contributing sources. 60: marker 0, type 96. Number 1, timestamp 0, source 10. One octet of
// payload.
const CROWDED_OCTETS: &[u8] = &[
    0x8f, 0x60, 0, 1, 0, 0, 0, 0, 0, 0, 0, 0x0a, 0, 0, 0, 1, 0, 0, 0, 2, 0, 0, 0, 3, 0, 0, 0, 4, 0,
    0, 0, 5, 0, 0, 0, 6, 0, 0, 0, 7, 0, 0, 0, 8, 0, 0, 0, 9, 0, 0, 0, 10, 0, 0, 0, 11, 0, 0, 0, 12,
    0, 0, 0, 13, 0, 0, 0, 14, 0, 0, 0, 15, 0xbb,
];

#[test]
fn reads_packets(rt: HostRuntime) {
    // as PLAIN, without the marker and the payload
    let empty = RtpView {
        marker: false,
        payload: &[],
        ..PLAIN
    };
    let cases: [(&[u8], RtpView<'_>); 7] = [
        (PLAIN_OCTETS, PLAIN),
        (WHOLE_OCTETS, WHOLE),
        (BARE_OCTETS, BARE),
        (
            CROWDED_OCTETS,
            RtpView {
                csrc: SOURCES,
                payload: &[0xbb],
                ..empty
            },
        ),
        (&[0x80, 0x60, 0, 1, 0, 0, 0, 0, 0, 0, 0, 0x0a], empty),
        // four padding octets, and no payload
        (
            &[0xa0, 0x60, 0, 1, 0, 0, 0, 0, 0, 0, 0, 0x0a, 0, 0, 0, 4],
            RtpView {
                padding: 4,
                ..empty
            },
        ),
        // the padding octets but the last aren't kept
        (
            &[0xa0, 0x60, 0, 1, 0, 0, 0, 0, 0, 0, 0, 0x0a, 0xcc, 9, 2],
            RtpView {
                payload: &[0xcc],
                padding: 2,
                ..empty
            },
        ),
    ];
    for (datagram, want) in cases {
        assert_eq!(rt; read(datagram), Ok(want), "{datagram:?}");
    }
}

#[test]
fn tells_the_first_fault(rt: HostRuntime) {
    use RtpFaultKind::{CsrcPastEnd, ExtensionPastEnd, PaddingPastEnd, Short, Version};
    let cases: [(&[u8], RtpFaultKind, usize); 17] = [
        (&[], Short, 0),
        (&[0x80], Short, 1),
        // eleven octets of version 1: too short comes first
        (&[0x40, 0x60, 0, 1, 0, 0, 0, 0, 0, 0, 0], Short, 11),
        // versions 0, 1 and 3
        (&[0x00, 0x60, 0, 1, 0, 0, 0, 0, 0, 0, 0, 0x0a], Version, 0),
        (&[0x40, 0x60, 0, 1, 0, 0, 0, 0, 0, 0, 0, 0x0a], Version, 0),
        (&[0xff, 0x60, 0, 1, 0, 0, 0, 0, 0, 0, 0, 0x0a], Version, 0),
        // 15 contributing sources, and none; one, and three of its octets
        (
            &[0x8f, 0x60, 0, 1, 0, 0, 0, 0, 0, 0, 0, 0x0a],
            CsrcPastEnd,
            12,
        ),
        (
            &[0xb1, 0x60, 0, 1, 0, 0, 0, 0, 0, 0, 0, 0x0a, 0, 0, 0],
            CsrcPastEnd,
            12,
        ),
        // an extension without an octet; with three of its four octets; with one word, and none of it
        (
            &[0x90, 0x60, 0, 1, 0, 0, 0, 0, 0, 0, 0, 0x0a],
            ExtensionPastEnd,
            12,
        ),
        (
            &[0x90, 0x60, 0, 1, 0, 0, 0, 0, 0, 0, 0, 0x0a, 0xbe, 0xde, 0],
            ExtensionPastEnd,
            12,
        ),
        (
            &[
                0x90, 0x60, 0, 1, 0, 0, 0, 0, 0, 0, 0, 0x0a, 0xbe, 0xde, 0, 1,
            ],
            ExtensionPastEnd,
            12,
        ),
        // after one contributing source, with three octets of its word, which P = 1 doesn't change
        (
            &[
                0xb1, 0x60, 0, 1, 0, 0, 0, 0, 0, 0, 0, 0x0a, 0, 0, 0, 1, 0xbe, 0xde, 0, 1, 0, 0, 0,
            ],
            ExtensionPastEnd,
            16,
        ),
        // nothing follows the header, though its last octet is 10; or 0
        (
            &[0xa0, 0x60, 0, 1, 0, 0, 0, 0, 0, 0, 0, 0x0a],
            PaddingPastEnd,
            11,
        ),
        (
            &[0xa0, 0x60, 0, 1, 0, 0, 0, 0, 0, 0, 0, 0],
            PaddingPastEnd,
            11,
        ),
        // no padding octet is counted; or one more than follows the header; or one of the header's
        (
            &[0xa0, 0x60, 0, 1, 0, 0, 0, 0, 0, 0, 0, 0x0a, 0],
            PaddingPastEnd,
            12,
        ),
        (
            &[0xa0, 0x60, 0, 1, 0, 0, 0, 0, 0, 0, 0, 0x0a, 0, 3],
            PaddingPastEnd,
            13,
        ),
        (
            &[
                0xb0, 0x60, 0, 1, 0, 0, 0, 0, 0, 0, 0, 0x0a, 0xbe, 0xde, 0, 0, 2,
            ],
            PaddingPastEnd,
            16,
        ),
    ];
    for (datagram, kind, at) in cases {
        assert_eq!(rt; read(datagram), Err(RtpFault { kind, at }), "{datagram:?}");
    }
}

#[test]
fn writes_packets(rt: HostRuntime) -> Result<(), Fail> {
    assert_eq!(rt; write(rt.alloc(), &PLAIN)?.as_slice(), PLAIN_OCTETS);
    assert_eq!(rt; write(rt.alloc(), &WHOLE)?.as_slice(), WHOLE_OCTETS);
    assert_eq!(rt; write(rt.alloc(), &BARE)?.as_slice(), BARE_OCTETS);
    Ok(())
}

#[test]
fn tells_rtcp(rt: HostRuntime) {
    let cases: [(&[u8], bool); 9] = [
        (&[], false),
        (&[0xc8], false),
        // a sender report, which is 200; the least and the greatest type; and those beside them
        (&[0x80, 200, 0, 6], true),
        (&[0x80, 192], true),
        (&[0x80, 223], true),
        (&[0x80, 191], false),
        (&[0x80, 224], false),
        // RTP of type 96, without and with the marker
        (&[0x80, 0x60, 0, 1], false),
        (&[0x80, 0xe0, 0, 1], false),
    ];
    for (datagram, want) in cases {
        assert_eq!(rt; is_rtcp(datagram), want, "{datagram:?}");
    }
}
