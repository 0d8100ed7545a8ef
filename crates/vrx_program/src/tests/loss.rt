//! A packet that is lost, asked for, and comes late.

use crate::Status;
use crate::tests::{HEAD, SURE, outcome};
use std::test::Fail;

/// The lines after the settings, with what `replay` writes of each. The lost packet has the sequence number 0, after
/// 65,535 (RFC 3550 5.1): the datagram after it makes its number 131,072 missing, and asks for it.
const LINES: [(&str, &str); 9] = [
    ("d 0 80e0fffe000000000000000a1000aa\n", "2 media 131070\n"),
    ("d 33 80e0ffff00000bb80000000a1001bb\n", "3 media 131071\n"),
    (
        "d 99 80e00001000023280000000a1001dd\n",
        "4 media 131073\n4 nack 81cd00030000000b0000000a00000000\n",
    ),
    ("p 100\n", "5 frame 131070 131070 key 0 00aa\n"),
    ("p 100\n", "6 frame 131071 131071 delta 3000 01bb\n"),
    ("p 100\n", "7 notready\n"),
    ("d 120 80e00000000017700000000a1001cc\n", "8 media 131072\n"),
    ("p 121\n", "9 frame 131072 131072 delta 6000 01cc\n"),
    ("p 121\n", "10 frame 131073 131073 delta 9000 01dd\n"),
];

#[test]
fn a_lost_packet_is_asked_for_over_the_wrap(rt: HostRuntime) -> Result<(), Fail> {
    let mut capture = HEAD.as_bytes().to_vec(rt.alloc())?;
    let mut told = Vec::new(rt.alloc());
    for (line, replayed) in LINES {
        capture.extend_from_slice(line.as_bytes())?;
        told.extend_from_slice(replayed.as_bytes())?;
    }
    let (status, text) = outcome(rt.alloc(), "replay", capture.as_slice(), SURE)?;
    assert_eq!(rt; status, Status::Done);
    assert_eq!(rt; text.as_slice(), told.as_slice());
    Ok(())
}
