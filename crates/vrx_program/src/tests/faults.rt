//! Reads and writes that fail, and reads and writes of one octet.

use crate::Status;
use crate::tests::{HEAD, Pipes, SURE, outcome};
use std::alloc::Global;
use std::test::Fail;

/// The lines of a capture, with what `replay` and `inspect` write of each. The last line has no line feed. Of its 174
/// octets a reader takes five at a time in 34 reads, and the last four in one more.
const LINES: [(&str, &str, &str); 9] = [
    (HEAD, "", ""),
    (
        "d 0 80e00003000000000000000a00cc\n",
        "2 media 65539\n",
        "2 rtp pt=96 seq=3 ts=0 ssrc=0000000a m=1 csrc=0 ext=- pad=0 payload=2\n",
    ),
    ("# parts\n", "", ""),
    (
        "d 0 80600001000000000000000a1000aa\n",
        "4 media 65537\n",
        "4 rtp pt=96 seq=1 ts=0 ssrc=0000000a m=0 csrc=0 ext=- pad=0 payload=3\n",
    ),
    ("\n", "", ""),
    (
        "d 0 80600002000000000000000a00bb\n",
        "6 media 65538\n",
        "6 rtp pt=96 seq=2 ts=0 ssrc=0000000a m=0 csrc=0 ext=- pad=0 payload=2\n",
    ),
    ("p 1\n", "7 frame 65537 65539 key 0 00aabbcc\n", ""),
    ("d 2 80\n", "8 drop NotRtp\n", "8 bad rtp Short 1\n"),
    ("p 2", "9 notready\n", ""),
];

/// The capture, and what a word writes of the lines that lie in so many octets from its front, their line feeds with
/// them; the last line has none, and is given once the end was found.
fn told_of(alloc: Global, word: &str, read: usize, end: bool) -> Result<(Vec<u8>, Vec<u8>), Fail> {
    let mut capture = Vec::new(alloc);
    let mut text = Vec::new(alloc);
    for (line, replayed, inspected) in LINES {
        capture.extend_from_slice(line.as_bytes())?;
        if capture.len() > read || (line == "p 2" && !end) {
            continue;
        }
        if word == "replay" {
            text.extend_from_slice(replayed.as_bytes())?;
        } else {
            text.extend_from_slice(inspected.as_bytes())?;
        }
    }
    Ok((capture, text))
}

// Read 35 gives the last octets, and read 36 finds the end. It may fail, too: the last line is in hand then, but its
// end isn't known. There is no read 37.
#[test]
fn a_failed_read_leaves_the_text_of_the_whole_lines(rt: HostRuntime) -> Result<(), Fail> {
    for word in ["replay", "inspect"] {
        for before in 0..37_u8 {
            let end = before == 36;
            let (capture, told) = told_of(rt.alloc(), word, 5 * usize::from(before), end)?;
            let pipes = Pipes {
                most: 5,
                bad_read: u64::from(before) + 1,
                ..SURE
            };
            let (status, text) = outcome(rt.alloc(), word, capture.as_slice(), pipes)?;
            let wanted = if end { Status::Done } else { Status::ReadFault };
            assert_eq!(rt; status, wanted, "{before}");
            assert_eq!(rt; text.as_slice(), told.as_slice(), "{before}");
        }
    }
    Ok(())
}

// A settings line that isn't whole may be right up to there or not.
#[test]
fn the_first_fault_ends_the_run(rt: HostRuntime) -> Result<(), Fail> {
    for (word, lines, bad_read, bad_write, wanted, told) in [
        ("replay", CALL, 1, 0, Status::ReadFault, ""),
        // the text of an event is one piece
        ("replay", CALL, 0, 2, Status::WriteFault, "2 media 65537\n"),
        // a bad line in hand is reported before the next read
        (
            "replay",
            "t 1\nx\np 0\n",
            2,
            0,
            Status::BadCapture,
            "2 tick\nerror line 3 kind\n",
        ),
        (
            "replay",
            "p 0\nx\np 0\n",
            2,
            0,
            Status::BadCapture,
            "2 notready\nerror line 3 kind\n",
        ),
        (
            "inspect",
            "t 1\nx\np 0\n",
            2,
            0,
            Status::BadCapture,
            "error line 3 kind\n",
        ),
    ] {
        let pipes = Pipes {
            bad_read,
            bad_write,
            ..SURE
        };
        let capture = format!(in rt.alloc(); "{HEAD}{lines}")?;
        let (status, text) = outcome(rt.alloc(), word, capture.as_bytes(), pipes)?;
        assert_eq!(rt; status, wanted, "{lines}");
        assert_eq!(rt; text.as_slice(), told.as_bytes(), "{lines}");
    }
    for (capture, bad_read) in [("", 1), ("vrx 1 codec=vp9", 2), (HEAD.trim_end(), 2)] {
        for word in ["replay", "inspect"] {
            let pipes = Pipes { bad_read, ..SURE };
            let (status, text) = outcome(rt.alloc(), word, capture.as_bytes(), pipes)?;
            assert_eq!(rt; status, Status::ReadFault, "{capture}");
            assert_eq!(rt; text.len(), 0, "{capture}");
        }
    }
    Ok(())
}

/// A keyframe and its pull.
const CALL: &str = "d 0 80e00001000000000000000a1000aa\np 1\n";

/// The word, the lines after the settings, the status, and the text, an event or an error line last.
const WRITES: [(&str, &str, Status, &str); 4] = [
    (
        "replay",
        "d 0 80e00001000000000000000a1000aa\np 1\n",
        Status::Done,
        "2 media 65537\n3 frame 65537 65537 key 0 00aa\n",
    ),
    (
        "replay",
        "p 1\nd 0 8\n",
        Status::BadCapture,
        "2 notready\nerror line 3 hex\n",
    ),
    (
        "inspect",
        "d 0 81ce00020000000b0000000a\np 1\nd 0 80\n",
        Status::Done,
        "2 rtcp pli\n4 bad rtp Short 1\n",
    ),
    (
        "inspect",
        "d 0 80\nt 01\n",
        Status::BadCapture,
        "2 bad rtp Short 1\nerror line 3 moment\n",
    ),
];

// Of a text of n octets each part from the front is taken once: by a sink whose room is used up there, and by one that
// takes one octet a write, of which the next fails. With enough room, and without a fault, all of it is.
#[test]
fn a_failed_write_leaves_what_the_sink_took(rt: HostRuntime) -> Result<(), Fail> {
    for (word, lines, ends, told) in WRITES {
        let capture = format!(in rt.alloc(); "{HEAD}{lines}")?;
        let whole = told.as_bytes().len();
        for (most, piece, room) in [
            (1, 1, whole),
            (1, 100, whole),
            (100, 1, whole),
            (100, 100, 100),
        ] {
            let pipes = Pipes {
                most,
                room,
                piece,
                ..SURE
            };
            let (status, text) = outcome(rt.alloc(), word, capture.as_bytes(), pipes)?;
            assert_eq!(rt; status, ends, "{told}");
            assert_eq!(rt; text.as_slice(), told.as_bytes(), "{told}");
        }
        for (room, _) in told.as_bytes().iter().enumerate() {
            let next = (room as u64).saturating_add(1);
            for (room_left, piece, bad_write) in [(room, 100, 0), (100, 1, next)] {
                let pipes = Pipes {
                    room: room_left,
                    piece,
                    bad_write,
                    ..SURE
                };
                let (status, text) = outcome(rt.alloc(), word, capture.as_bytes(), pipes)?;
                assert_eq!(rt; status, Status::WriteFault, "{told} {room}");
                assert_eq!(rt; text.len(), room, "{told} {room}");
                assert!(rt;
                    told.as_bytes().starts_with(text.as_slice()),
                    "{told} {room}"
                );
            }
        }
    }
    Ok(())
}
