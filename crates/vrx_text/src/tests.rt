//! Each text once, also of replies that a capture seldom brings. Expected values were worked out by hand.

use crate::{
    ErrorReason, inspect_text, text_of_error, text_of_handled, text_of_pulled, text_of_tick,
    write_handled, write_pulled, write_tick,
};
use arrayvec::ArrayVec;
use std::alloc::Global;
use std::test::Fail;
use vrx_core::{Frame, FrameBytes, Handled, Pulled, Reason, What};
use vrx_num::Numbers;
use vrx_rtcp::Feedback;

/// A generic NACK of one item, the number 1 by itself (RFC 4585 6.2.1): two words and one, so 3 stands in the length.
const NACK: [u8; 16] = [
    0x81, 0xcd, 0, 3, 0x12, 0x34, 0x56, 0x78, 0, 0xc0, 0xff, 0xee, 0, 1, 0, 0,
];

/// A picture loss indication (RFC 4585 6.3.1).
const PLI: [u8; 12] = [
    0x81, 0xce, 0, 2, 0x12, 0x34, 0x56, 0x78, 0, 0xc0, 0xff, 0xee,
];

/// The feedback with or without the NACK, and with or without the PLI.
fn feedback(nack: bool, pli: bool) -> Feedback {
    let mut octets = ArrayVec::new();
    let _ = octets.try_extend_from_slice(&NACK);
    Feedback {
        nack: if nack { Some(octets) } else { None },
        pli: if pli { Some(PLI) } else { None },
    }
}

/// A reply to a datagram that repairs nothing and sends no feedback.
fn plain(alloc: Global, what: What) -> Handled {
    Handled {
        what,
        repaired: Numbers::new(alloc),
        feedback: feedback(false, false),
    }
}

#[test]
fn texts_are_written(rt: HostRuntime) -> Result<(), Fail> {
    for (what, want) in [
        (What::Media(65_537), "9 media 65537\n"),
        (What::Fec(65_538), "9 fec 65538\n"),
        (What::Empty(65_539), "9 empty 65539\n"),
        (What::Rtcp, "9 rtcp\n"),
        (What::Dropped(Reason::NoApt), "9 drop NoApt\n"),
        (What::Dropped(Reason::RtxEmpty), "9 drop RtxEmpty\n"),
        (What::Dropped(Reason::MoreBlocks), "9 drop MoreBlocks\n"),
        (What::Dropped(Reason::BadRed), "9 drop BadRed\n"),
        (What::Dropped(Reason::BadFec), "9 drop BadFec\n"),
        (What::Dropped(Reason::Dead), "9 drop Dead\n"),
        (
            What::Dropped(Reason::BadPart { code: 0 }),
            "9 drop BadPart 0\n",
        ),
        (
            What::Dropped(Reason::BadPart { code: 255 }),
            "9 drop BadPart 255\n",
        ),
    ] {
        let text = text_of_handled(rt.alloc(), 9, &plain(rt.alloc(), what))?;
        assert_eq!(rt; text.as_slice(), want.as_bytes());
    }
    for (key, want) in [
        (true, "10 frame 65537 65538 key 90000 00aaff\n"),
        (false, "10 frame 65537 65538 delta 90000 00aaff\n"),
    ] {
        let frame = Frame {
            first: 65_537,
            last: 65_538,
            ts: 90_000,
            key,
            bytes: FrameBytes::from_vec([0x00, 0xaa, 0xff].to_vec(rt.alloc())?),
        };
        let text = text_of_pulled(rt.alloc(), 10, &Pulled::Frame(frame))?;
        assert_eq!(rt; text.as_slice(), want.as_bytes());
    }
    let text = text_of_pulled(rt.alloc(), 2_097_153, &Pulled::NotReady)?;
    assert_eq!(rt; text.as_slice(), b"2097153 notready\n".as_slice());
    let text = text_of_error(rt.alloc(), 1, ErrorReason::Settings)?;
    assert_eq!(rt; text.as_slice(), b"error line 1 settings\n".as_slice());
    // no capture has a datagram without octets
    let text = inspect_text(rt.alloc(), 2_097_152, &[])?;
    assert_eq!(rt; text.as_slice(), b"2097152 bad rtp Short 0\n".as_slice());
    Ok(())
}

// Repairs stand in the order in which they were made, and after them the feedback.
#[test]
fn repairs_and_feedback_are_written(rt: HostRuntime) -> Result<(), Fail> {
    for (nack, pli, sent) in [
        (false, false, ""),
        (true, false, "9 nack 81cd00031234567800c0ffee00010000\n"),
        (false, true, "9 pli 81ce00021234567800c0ffee\n"),
        (
            true,
            true,
            "9 nack 81cd00031234567800c0ffee00010000\n9 pli 81ce00021234567800c0ffee\n",
        ),
    ] {
        let mut reply = plain(rt.alloc(), What::Fec(65_541));
        reply.repaired.push(65_540)?;
        reply.repaired.push(65_537)?;
        reply.feedback = feedback(nack, pli);
        let text = text_of_handled(rt.alloc(), 9, &reply)?;
        let want = format!(in rt.alloc();
            "9 fec 65541\n9 repaired 65540\n9 repaired 65537\n{sent}"
        )?;
        assert_eq!(rt; text.as_slice(), want.as_bytes());
        let text = text_of_tick(rt.alloc(), 9, &feedback(nack, pli))?;
        let want = format!(in rt.alloc(); "9 tick\n{sent}")?;
        assert_eq!(rt; text.as_slice(), want.as_bytes());
    }
    Ok(())
}

// A buffer that is used again holds one text after the other.
#[test]
fn texts_stand_one_after_the_other(rt: HostRuntime) -> Result<(), Fail> {
    let mut text = Vec::new(rt.alloc());
    write_handled(&mut text, 9, &plain(rt.alloc(), What::Rtcp))?;
    write_tick(&mut text, 10, &feedback(false, true))?;
    write_pulled(&mut text, 11, &Pulled::NotReady)?;
    let want = b"9 rtcp\n10 tick\n10 pli 81ce00021234567800c0ffee\n11 notready\n";
    assert_eq!(rt; text.as_slice(), want.as_slice());
    Ok(())
}
