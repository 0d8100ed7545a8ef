//! The engine over VP8, called from outside.

use std::alloc::Global;
use std::test::Fail;
use vrx_core::NewFault::{BadInterval, BadType, RedMissing, SameSsrc, SameType};
use vrx_core::{Engine, MOST_EVENTS, NewFault, Pulled, Reason, Red, Rtx, Settings, What};
use vrx_rtcp::Feedback;
use vrx_vp8::Vp8;

const SETTINGS: Settings = Settings {
    media_ssrc: 10,
    media_type: 96,
    red: None,
    rtx: None,
    from_ssrc: 11,
    interval: 100,
};

/// A keyframe of one packet with the number 1 on the wire.
const KEYFRAME: &[u8] = &[
    0x80, 0xe0, 0, 1, 0, 0, 0, 0, 0, 0, 0, 0x0a, 0x10, 0x00, 0xaa,
];

/// A receiver report without blocks (RFC 3550 6.4.2).
const REPORT: &[u8] = &[0x80, 0xc9, 0, 1, 0, 0, 0, 0x0a];

fn is_send<T: Send>() {}

/// Whether a pull gave the keyframe, with its numbers, timestamp, kind and octets.
fn is_the_keyframe(pulled: &Pulled) -> bool {
    match pulled {
        Pulled::NotReady => false,
        Pulled::Frame(frame) => {
            frame.first == 65_537
                && frame.last == 65_537
                && frame.ts == 0
                && frame.key
                && frame.bytes.as_slice() == [0x00, 0xaa].as_slice()
        }
    }
}

/// An event with its moment, what it gives, and what the clock says after it.
#[derive(Clone, Copy)]
enum Row {
    /// A datagram, and its answer. Nothing is repaired, and nothing is sent.
    Sent(u64, &'static [u8], What, u64),
    /// A tick, at which nothing is sent.
    Tick(u64, u64),
    /// A pull, and whether it gives the keyframe.
    Pull(u64, bool, u64),
}

use Row::{Pull, Sent, Tick};

// Moments may go back, and the clock doesn't. Nothing is missing, and a keyframe completed: the ticks ask for nothing.
// No capture has a datagram without octets.
const ROWS: [Row; 9] = [
    Sent(3, KEYFRAME, What::Media(65_537), 3),
    Sent(7, &[], What::Dropped(Reason::NotRtp), 7),
    Sent(5, REPORT, What::Rtcp, 7),
    Sent(6, KEYFRAME, What::Dropped(Reason::Repeat), 7),
    Tick(9, 9),
    Tick(5, 9),
    Tick(10, 10),
    Pull(1, true, 10),
    Pull(12, false, 12),
];

/// Whether there is something to send.
fn is_sent(feedback: &Feedback) -> bool {
    feedback.nack.is_some() || feedback.pli.is_some()
}

/// Whether a datagram is answered so, and nothing is repaired or sent.
fn is_taken(
    engine: &mut Engine<Vp8>,
    moment: u64,
    octets: &[u8],
    want: What,
) -> Result<bool, Fail> {
    if engine.events() >= MOST_EVENTS {
        return Err("no event is left")?;
    }
    let handled = engine.datagram(moment, octets)?;
    let is_quiet = handled.repaired.as_slice().len() == 0 && !is_sent(&handled.feedback);
    Ok(is_quiet && handled.what == want)
}

/// Whether a tick sends nothing.
fn is_quiet(engine: &mut Engine<Vp8>, moment: u64) -> Result<bool, Fail> {
    if engine.events() >= MOST_EVENTS {
        return Err("no event is left")?;
    }
    Ok(!is_sent(&engine.tick(moment)))
}

/// Whether a pull gives the keyframe.
fn gives_the_keyframe(engine: &mut Engine<Vp8>, moment: u64) -> Result<bool, Fail> {
    if engine.events() >= MOST_EVENTS {
        return Err("no event is left")?;
    }
    Ok(is_the_keyframe(&engine.pull(moment)?))
}

/// Whether the engine does what a row says.
fn follows(engine: &mut Engine<Vp8>, row: Row) -> Result<bool, Fail> {
    match row {
        Sent(moment, octets, want, now) => {
            Ok(is_taken(engine, moment, octets, want)? && engine.now() == now)
        }
        Tick(moment, now) => Ok(is_quiet(engine, moment)? && engine.now() == now),
        Pull(moment, want, now) => {
            Ok(gives_the_keyframe(engine, moment)? == want && engine.now() == now)
        }
    }
}

/// How many rows the engine follows, from the first on.
fn followed(engine: &mut Engine<Vp8>, rows: &[Row]) -> Result<u32, Fail> {
    let mut count: u32 = 0;
    for row in rows {
        if !follows(engine, *row)? {
            return Ok(count);
        }
        count = count.saturating_add(1);
    }
    Ok(count)
}

#[test]
fn an_engine_may_go_to_another_thread() {
    is_send::<Engine<Vp8>>();
}

#[test]
fn an_engine_counts_events_and_keeps_the_clock(rt: HostRuntime) -> Result<(), Fail> {
    let mut engine = Engine::<Vp8>::new(rt.alloc(), SETTINGS)?;
    let rows: &[Row] = &ROWS;
    assert_eq!(rt; followed(&mut engine, rows)?, 9);
    assert_eq!(rt; engine.events(), 9);
    Ok(())
}

fn red(red_type: u8, fec_type: u8) -> Option<Red> {
    Some(Red {
        red_type,
        fec_type: Some(fec_type),
    })
}

fn rtx(ssrc: u32, media_rtx_type: u8, red_rtx_type: u8) -> Option<Rtx> {
    Some(Rtx {
        ssrc,
        media_rtx_type,
        red_rtx_type: Some(red_rtx_type),
    })
}

/// The fault of settings, if they have one.
fn fault_of(alloc: Global, settings: Settings) -> Option<NewFault> {
    Engine::<Vp8>::new(alloc, settings).err()
}

#[test]
fn settings_are_tested_in_order(rt: HostRuntime) {
    for (media_type, want) in [
        (0, None),
        (63, None),
        (64, Some(BadType)),
        (95, Some(BadType)),
        (96, None),
        (127, None),
        (128, Some(BadType)),
        (255, Some(BadType)),
    ] {
        let settings = Settings {
            media_type,
            ..SETTINGS
        };
        assert_eq!(rt; fault_of(rt.alloc(), settings), want, "{settings:?}");
    }
    // each other type at an edge, each pair of types and of SSRCs, and the first of two faults
    for (red, rtx, want) in [
        (red(64, 98), rtx(12, 99, 100), BadType),
        (red(97, 95), rtx(12, 99, 100), BadType),
        (red(97, 98), rtx(12, 128, 100), BadType),
        (red(97, 98), rtx(12, 99, 255), BadType),
        (red(96, 98), rtx(12, 99, 100), SameType),
        (red(97, 97), rtx(12, 99, 100), SameType),
        (red(97, 99), rtx(12, 99, 100), SameType),
        (red(97, 98), rtx(12, 100, 100), SameType),
        (red(97, 98), rtx(12, 99, 96), SameType),
        (red(97, 98), rtx(10, 99, 100), SameSsrc),
        (red(97, 98), rtx(11, 99, 100), SameSsrc),
        (red(64, 64), rtx(10, 99, 100), BadType),
        (red(97, 97), rtx(10, 99, 100), SameType),
    ] {
        let settings = Settings {
            red,
            rtx,
            ..SETTINGS
        };
        assert_eq!(rt; fault_of(rt.alloc(), settings), Some(want), "{settings:?}");
    }
    let media_red = Some(Red {
        red_type: 97,
        fec_type: None,
    });
    let media_rtx = Some(Rtx {
        ssrc: 12,
        media_rtx_type: 99,
        red_rtx_type: None,
    });
    for (red, rtx, from_ssrc, interval, want) in [
        (None, None, 11, 100, None),
        (None, None, 10, 100, Some(SameSsrc)),
        (None, rtx(12, 99, 100), 10, 0, Some(SameSsrc)),
        (None, rtx(12, 99, 100), 11, 0, Some(RedMissing)),
        (None, media_rtx, 11, 0, Some(BadInterval)),
        (None, media_rtx, 11, 1, None),
        (media_red, rtx(12, 99, 100), 11, 1, None),
        (red(97, 98), rtx(12, 99, 100), 11, 1, None),
        (red(97, 98), None, 11, 1, None),
        (red(97, 98), media_rtx, 11, 60_001, Some(BadInterval)),
        (None, None, 11, 0, Some(BadInterval)),
        (None, None, 11, 1, None),
        (None, None, 11, 60_000, None),
        (None, None, 11, 60_001, Some(BadInterval)),
    ] {
        let settings = Settings {
            red,
            rtx,
            from_ssrc,
            interval,
            ..SETTINGS
        };
        assert_eq!(rt; fault_of(rt.alloc(), settings), want, "{settings:?}");
    }
}
