ghost use Rattle.std.specs.Prelude.{◌≡◌, ◌+◌, true, IfOk, length, vec_len};
ghost use Rattle.std.specs.List.Sorted.{IsStrictlyIncreasing};

use super::*;
use arrayvec::ArrayVec;
use std::alloc::AllocError;
use types::NACK_SPAN;

/// The two report blocks of the sender report below (RFC 3550 6.4.1).
const BLOCKS: [u8; 48] = [
    // SSRC 0x0b, fraction lost 1/4, 3 packets lost, highest number 0x0001_0005, jitter 7, LSR, DLSR
    0, 0, 0, 0x0b, 0x40, 0, 0, 3, 0, 1, 0, 5, 0, 0, 0, 7, 0x45, 0x67, 0x80, 0, 0, 0, 0x80, 0,
    // SSRC 0x0c, nothing lost, highest number 0x0000_ffff, jitter 0, no sender report seen
    0, 0, 0, 0x0c, 0, 0, 0, 0, 0, 0, 0xff, 0xff, 0, 0, 0, 0, 0, 0, 0, 0, 0, 0, 0, 0,
];

/// A sender report with two blocks: 7 words and 2 times 6, so 18 stands in the length.
const SENDER: [u8; 76] = [
    0x82, 0xc8, 0, 18, // version 2, two blocks, type 200
    0, 0, 0, 0x0a, // SSRC
    0xe1, 0x23, 0x45, 0x67, 0x80, 0, 0, 0, // NTP seconds, and half of one
    0, 0, 0x03, 0xe8, // RTP time 1,000
    0, 0, 0, 5, // 5 packets
    0, 0, 0x13, 0x88, // 5,000 octets
    0, 0, 0, 0x0b, 0x40, 0, 0, 3, 0, 1, 0, 5, 0, 0, 0, 7, 0x45, 0x67, 0x80, 0, 0, 0, 0x80, 0, 0, 0,
    0, 0x0c, 0, 0, 0, 0, 0, 0, 0xff, 0xff, 0, 0, 0, 0, 0, 0, 0, 0, 0, 0, 0, 0,
];

/// An empty receiver report (RFC 3550 6.4.2).
const REPORT: [u8; 8] = [0x80, 0xc9, 0, 1, 0, 0, 0, 0x0b];

/// A source description with the one item CNAME, `a@b` (RFC 3550 6.5).
const DESCRIPTION: [u8; 16] = [
    0x81, 0xca, 0, 3, 0, 0, 0, 0x0a, 1, 3, b'a', b'@', b'b', 0, 0, 0,
];

/// A picture loss indication (RFC 4585 6.3.1).
const LOSS: [u8; 12] = [0x81, 0xce, 0, 2, 0, 0, 0, 0x0b, 0, 0, 0, 0x0a];

/// What the sender report says.
const SENDER_SAYS: Body<'_> = Body::Sender(SenderReport {
    ssrc: 10,
    ntp: 0xe123_4567_8000_0000,
    rtp_time: 1_000,
    packets: 5,
    octets: 5_000,
    blocks: &BLOCKS,
});

/// The octets after an empty receiver report, which is a packet of 8 octets.
fn behind_a_report(rt: &HostRuntime, octets: &[u8]) -> Result<Vec<u8>, AllocError>
    ensures { IfOk result (λ v. vec_len v ≡ 8 + length octets.now) }
{
    let mut joined = Vec::from_slice(rt.alloc(), &REPORT)?;
    joined.extend_from_slice(octets)?;
    Ok(joined)
}

#[test]
fn reads_packets(rt: HostRuntime) -> Result<(), AllocError> {
    let cases: [(&[u8], Body<'_>); 16] = [
        (&SENDER, SENDER_SAYS),
        (
            &REPORT,
            Body::Report(ReceiverReport {
                ssrc: 11,
                blocks: &[],
            }),
        ),
        // a goodbye of one source, with the reason "gone" of four octets, filled up to a word
        (
            &[
                0x81, 0xcb, 0, 3, 0, 0, 0, 0x0a, 4, b'g', b'o', b'n', b'e', 0, 0, 0,
            ],
            Body::Bye(Bye {
                sources: &[0, 0, 0, 0x0a],
            }),
        ),
        // a goodbye of nobody
        (&[0x80, 0xcb, 0, 0], Body::Bye(Bye { sources: &[] })),
        // missing: 5 with 6 and 7 after it, and 256 with 272
        (
            &[
                0x81, 0xcd, 0, 4, 0, 0, 0, 0x0b, 0, 0, 0, 0x0a, 0, 5, 0, 3, 1, 0, 0x80, 0,
            ],
            Body::Nack(Nack {
                sender: 11,
                media: 10,
                items: &[0, 5, 0, 3, 1, 0, 0x80, 0],
            }),
        ),
        (
            &LOSS,
            Body::Pli(Pli {
                sender: 11,
                media: 10,
            }),
        ),
        (&DESCRIPTION, Body::Other { kind: 202 }),
        // an application's packet of the name "name" (RFC 3550 6.7)
        (
            &[0x80, 0xcc, 0, 2, 0, 0, 0, 0x0a, b'n', b'a', b'm', b'e'],
            Body::Other { kind: 204 },
        ),
        // feedback of the format 15, on the transport and on the payload
        (
            &[0x8f, 0xcd, 0, 2, 0, 0, 0, 0x0b, 0, 0, 0, 0x0a],
            Body::Other { kind: 205 },
        ),
        (
            &[0x8f, 0xce, 0, 2, 0, 0, 0, 0x0b, 0, 0, 0, 0x0a],
            Body::Other { kind: 206 },
        ),
        // a type that no standard names, with only a header
        (&[0x80, 0xd2, 0, 0], Body::Other { kind: 210 }),
        // an extension of a receiver report isn't a block
        (
            &[0x80, 0xc9, 0, 2, 0, 0, 0, 0x0b, 9, 9, 9, 9],
            Body::Report(ReceiverReport {
                ssrc: 11,
                blocks: &[],
            }),
        ),
        // padding of 4 and of 8 octets, the last of which tells their number
        (
            &[0xa0, 0xc9, 0, 2, 0, 0, 0, 0x0b, 0, 0, 0, 4],
            Body::Report(ReceiverReport {
                ssrc: 11,
                blocks: &[],
            }),
        ),
        (
            &[0xa0, 0xd2, 0, 2, 0, 0, 0, 0, 0, 0, 0, 8],
            Body::Other { kind: 210 },
        ),
        (
            &[
                0xa1, 0xcd, 0, 4, 0, 0, 0, 0x0b, 0, 0, 0, 0x0a, 0, 5, 0, 3, 0, 0, 0, 4,
            ],
            Body::Nack(Nack {
                sender: 11,
                media: 10,
                items: &[0, 5, 0, 3],
            }),
        ),
        // an SSRC of all ones
        (
            &[0x80, 0xc9, 0, 1, 255, 255, 255, 255],
            Body::Report(ReceiverReport {
                ssrc: 4_294_967_295,
                blocks: &[],
            }),
        ),
    ];
    for (octets, body) in cases {
        let next = octets.len();
        assert_eq!(rt;
            read_packet(octets, 0),
            Ok(Packet { body, next }),
            "{octets:?}"
        );
        let later = behind_a_report(&rt, octets)?;
        let next = later.len();
        assert_eq!(rt;
            read_packet(&later, 8),
            Ok(Packet { body, next }),
            "{octets:?} later"
        );
        assert_eq!(rt; read_compound(&later), Ok(2), "{octets:?} later");
    }
    Ok(())
}

#[test]
fn refuses_with_the_first_fault(rt: HostRuntime) -> Result<(), AllocError> {
    let cases: [(&[u8], RtcpFaultKind); 24] = [
        // one octet, and one fewer than a header
        (&[0x80], RtcpFaultKind::Short),
        (&[0x40, 0xc9, 0], RtcpFaultKind::Short),
        // the versions 1 and 3, also if the length runs past the end
        (&[0x40, 0xc9, 0, 1, 0, 0, 0, 0x0b], RtcpFaultKind::Version),
        (&[0xc0, 0xc9, 0, 1, 0, 0, 0, 0x0b], RtcpFaultKind::Version),
        (&[0x60, 0xc9, 0, 9], RtcpFaultKind::Version),
        // one octet fewer than the length says, and the greatest length
        (&[0x80, 0xc9, 0, 1, 0, 0, 0], RtcpFaultKind::PastEnd),
        (
            &[0x80, 0xc9, 0xff, 0xff, 0, 0, 0, 0x0b],
            RtcpFaultKind::PastEnd,
        ),
        // if the last octet that is there would be no padding, and the body too short
        (&[0xa0, 0xc9, 0, 2, 0, 0, 0, 3], RtcpFaultKind::PastEnd),
        (&[0x81, 0xc9, 0, 2, 0, 0, 0, 0x0b], RtcpFaultKind::PastEnd),
        // padding of 0, of 3, of 5, and of more than lies after the header; only a header
        (
            &[0xa0, 0xc9, 0, 2, 0, 0, 0, 0x0b, 0, 0, 0, 0],
            RtcpFaultKind::Padding,
        ),
        (
            &[0xa0, 0xc9, 0, 2, 0, 0, 0, 0x0b, 0, 0, 0, 3],
            RtcpFaultKind::Padding,
        ),
        (
            &[0xa0, 0xc9, 0, 2, 0, 0, 0, 0x0b, 0, 0, 0, 5],
            RtcpFaultKind::Padding,
        ),
        (
            &[0xa0, 0xd2, 0, 2, 0, 0, 0, 0, 0, 0, 0, 12],
            RtcpFaultKind::Padding,
        ),
        (&[0xa0, 0xc9, 0, 0], RtcpFaultKind::Padding),
        // a sender report of 24 octets, and of one block without its last word
        (
            &[
                0x80, 0xc8, 0, 5, 0, 0, 0, 0, 0, 0, 0, 0, 0, 0, 0, 0, 0, 0, 0, 0, 0, 0, 0, 0,
            ],
            RtcpFaultKind::Body,
        ),
        (
            &[
                0x81, 0xc8, 0, 11, 0, 0, 0, 0, 0, 0, 0, 0, 0, 0, 0, 0, 0, 0, 0, 0, 0, 0, 0, 0, 0,
                0, 0, 0, 0, 0, 0, 0, 0, 0, 0, 0, 0, 0, 0, 0, 0, 0, 0, 0, 0, 0, 0, 0,
            ],
            RtcpFaultKind::Body,
        ),
        // a receiver report of only a header, and one whose padding leaves a header
        (&[0x80, 0xc9, 0, 0], RtcpFaultKind::Body),
        (&[0xa0, 0xc9, 0, 1, 0, 0, 0, 4], RtcpFaultKind::Body),
        // a receiver report of one block without it
        (&[0x81, 0xc9, 0, 1, 0, 0, 0, 0x0b], RtcpFaultKind::Body),
        // a goodbye of two sources with one
        (&[0x82, 0xcb, 0, 1, 0, 0, 0, 0x0a], RtcpFaultKind::Body),
        // feedback of one SSRC, also of another format
        (&[0x81, 0xcd, 0, 1, 0, 0, 0, 0x0b], RtcpFaultKind::Body),
        (&[0x8f, 0xcd, 0, 1, 0, 0, 0, 0x0b], RtcpFaultKind::Body),
        (&[0x81, 0xce, 0, 1, 0, 0, 0, 0x0b], RtcpFaultKind::Body),
        (
            &[0xa1, 0xce, 0, 2, 0, 0, 0, 0x0b, 0, 0, 0, 4],
            RtcpFaultKind::Body,
        ),
    ];
    for (octets, kind) in cases {
        assert_eq!(rt;
            read_packet(octets, 0),
            Err(RtcpFault { kind, at: 0 }),
            "{octets:?}"
        );
        let later = behind_a_report(&rt, octets)?;
        assert_eq!(rt;
            read_packet(&later, 8),
            Err(RtcpFault { kind, at: 8 }),
            "{octets:?} later"
        );
        assert_eq!(rt;
            read_compound(&later),
            Err(RtcpFault { kind, at: 8 }),
            "{octets:?} later"
        );
    }
    Ok(())
}

#[test]
fn reads_compounds(rt: HostRuntime) -> Result<(), AllocError> {
    let mut datagram = Vec::from_slice(rt.alloc(), &SENDER)?;
    datagram.extend_from_slice(&DESCRIPTION)?;
    datagram.extend_from_slice(&LOSS)?;
    assert_eq!(rt; read_compound(&datagram), Ok(3));
    // each of them at its place: 76 octets, and 16 after them
    assert_eq!(rt;
        read_packet(&datagram, 0),
        Ok(Packet {
            body: SENDER_SAYS,
            next: 76
        })
    );
    assert_eq!(rt;
        read_packet(&datagram, 76),
        Ok(Packet {
            body: Body::Other { kind: 202 },
            next: 92
        })
    );
    let pli = Body::Pli(Pli {
        sender: 11,
        media: 10,
    });
    assert_eq!(rt;
        read_packet(&datagram, 92),
        Ok(Packet {
            body: pli,
            next: 104
        })
    );
    // at the end nothing is left
    let short = RtcpFault {
        kind: RtcpFaultKind::Short,
        at: 104,
    };
    assert_eq!(rt; read_packet(&datagram, 104), Err(short));
    // without its last octet
    datagram.truncate(103);
    let past_end = RtcpFault {
        kind: RtcpFaultKind::PastEnd,
        at: 92,
    };
    assert_eq!(rt; read_compound(&datagram), Err(past_end));
    // by itself, and with a fault in the first packet
    assert_eq!(rt; read_compound(&LOSS), Ok(1));
    let version = RtcpFault {
        kind: RtcpFaultKind::Version,
        at: 0,
    };
    assert_eq!(rt; read_compound(&[0x41, 0xce, 0, 2]), Err(version));
    Ok(())
}

/// Whether each number is above the one before it.
fn rise(numbers: &[u64]) -> bool
    ensures { result ≡ true → IsStrictlyIncreasing numbers.now }
{
    for i in 1..numbers.len() {
        if numbers[i] <= numbers[i - 1] {
            return false;
        }
    }
    true
}

/// The octets of a NACK from 11, on the media 10, if one NACK takes the numbers.
fn written(numbers: &[u64]) -> Option<ArrayVec<u8, 496>> {
    if numbers.is_empty() || !rise(numbers) {
        return None;
    }
    if numbers[numbers.len() - 1].saturating_sub(numbers[0]) > NACK_SPAN {
        return None;
    }
    Some(nack_of(11, 10, numbers))
}

#[test]
fn writes_feedback(rt: HostRuntime) {
    // the octets after the length and the SSRCs, worked by hand from the figure of RFC 4585 6.2.1
    let cases: [(&[u64], &[u8]); 7] = [
        (&[65_536], &[0, 0, 0, 0]),
        (&[65_538], &[0, 2, 0, 0]),
        (&[65_538, 65_539], &[0, 2, 0, 1]),
        (&[65_538, 65_540], &[0, 2, 0, 2]),
        // 16 beyond the first, and 17
        (&[65_538, 65_554], &[0, 2, 0x80, 0]),
        (&[65_538, 65_555], &[0, 2, 0, 0, 0, 19, 0, 0]),
        // over the wrap
        (&[131_071, 131_072], &[255, 255, 0, 1]),
    ];
    for (numbers, items) in cases {
        let octets = written(numbers).expect(&rt, "one NACK takes them");
        let nack = Nack {
            sender: 11,
            media: 10,
            items,
        };
        let next = octets.len();
        assert_eq!(rt;
            read_packet(&octets, 0),
            Ok(Packet {
                body: Body::Nack(nack),
                next
            }),
            "{numbers:?}"
        );
    }
    let octets = written(&[65_538]).expect(&rt, "one NACK takes it");
    let want: [u8; 16] = [0x81, 0xcd, 0, 3, 0, 0, 0, 11, 0, 0, 0, 10, 0, 2, 0, 0];
    assert_eq!(rt; octets.as_slice(), want.as_slice());
    let feedback = Feedback {
        nack: Some(octets),
        pli: Some(pli(11, 10)),
    };
    assert_eq!(rt; feedback.nack.is_some(), true);
    assert_eq!(rt; feedback.pli, Some(LOSS));
}

#[test]
fn writes_the_longest_nack(rt: HostRuntime) -> Result<(), AllocError> {
    let mut numbers = Vec::new(rt.alloc());
    for n in 96_257..98_304 {
        numbers.push(n)?;
    }
    let head: [u8; 12] = [0x81, 0xcd, 0, 0x7b, 0, 0, 0, 11, 0, 0, 0, 10];
    let mut want = Vec::from_slice(rt.alloc(), &head)?;
    for i in 0..120u16 {
        let pid = (0x7801 + 17 * i).to_be_bytes();
        want.extend_from_slice(&[pid[0], pid[1], 0xff, 0xff])?;
    }
    want.extend_from_slice(&[0x7f, 0xf9, 0, 0x3f])?;
    let octets = written(&numbers).expect(&rt, "one NACK takes them");
    assert_eq!(rt; octets.as_slice(), want.as_slice());
    Ok(())
}

#[test]
fn prints_faults(rt: HostRuntime) -> Result<(), AllocError> {
    for (kind, want) in [
        (
            RtcpFaultKind::Short,
            "fewer than four octets remain, in the packet at octet 8",
        ),
        (
            RtcpFaultKind::Padding,
            "the padding is wrong, in the packet at octet 8",
        ),
    ] {
        let fault = RtcpFault { kind, at: 8 };
        let text = format!(in rt.alloc(); "{fault}")?;
        assert_eq!(rt; text.as_str(), want);
    }
    Ok(())
}
