//! The settings line, as values.

use crate::{CodecName, read_settings, settings_lines_mean};
use std::alloc::{AllocError, Global};
use std::test::Fail;
use vrx_core::{Red, Rtx, Settings};

/// What a line reports if all that may be absent is.
const PLAIN: Settings = Settings {
    media_ssrc: 0x00c0_ffee,
    media_type: 96,
    red: None,
    rtx: None,
    from_ssrc: 0x1234_5678,
    interval: 100,
};

/// RED's type 100, and that of FEC.
fn red(fec_type: Option<u8>) -> Option<Red> {
    Some(Red {
        red_type: 100,
        fec_type,
    })
}

/// The stream of retransmissions, of media with the type 97, and that of RED.
fn rtx(red_rtx_type: Option<u8>) -> Option<Rtx> {
    Some(Rtx {
        ssrc: 0xfedc_ba98,
        media_rtx_type: 97,
        red_rtx_type,
    })
}

/// Whether these parts between the SSRC and the end of a line report the settings.
fn tells(alloc: Global, parts: &str, settings: Settings) -> Result<bool, AllocError> {
    let line = format!(in alloc; "vrx 1 codec=vp8 ssrc=00c0ffee {parts}")?;
    Ok(read_settings(line.as_bytes()) == Some((CodecName::Vp8, settings)))
}

// Which types and intervals are right, and that `rtxred` needs `red`, is for the engine to say.
#[test]
fn settings_are_read(rt: HostRuntime) -> Result<(), Fail> {
    for (parts, red, rtx) in [
        ("", None, None),
        (" red=100", red(None), None),
        (" red=100 fec=101", red(Some(101)), None),
        (" rtxssrc=fedcba98 rtx=97", None, rtx(None)),
        (" rtxssrc=fedcba98 rtx=97 rtxred=98", None, rtx(Some(98))),
        (" red=100 rtxssrc=fedcba98 rtx=97", red(None), rtx(None)),
        (
            " red=100 fec=101 rtxssrc=fedcba98 rtx=97 rtxred=98",
            red(Some(101)),
            rtx(Some(98)),
        ),
    ] {
        let settings = Settings { red, rtx, ..PLAIN };
        let parts = format!(in rt.alloc(); "pt=96{parts} from=12345678")?;
        assert!(rt; tells(rt.alloc(), parts.as_str(), settings)?, "{parts}");
    }
    for media_type in [0, 63, 64, 95, 96, 127, 128, 255] {
        let settings = Settings {
            media_type,
            ..PLAIN
        };
        let parts = format!(in rt.alloc(); "pt={media_type} from=12345678")?;
        assert!(rt; tells(rt.alloc(), parts.as_str(), settings)?, "{parts}");
    }
    for interval in [0, 1, 7, 100, 60_000, 60_001, 99_999] {
        let settings = Settings { interval, ..PLAIN };
        let parts = format!(in rt.alloc(); "pt=96 from=12345678 interval={interval}")?;
        assert!(rt; tells(rt.alloc(), parts.as_str(), settings)?, "{parts}");
    }
    let edges = Settings {
        media_ssrc: 0,
        from_ssrc: 0xffff_ffff,
        ..PLAIN
    };
    for (line, want) in [
        (
            "vrx 1 codec=h264 ssrc=00c0ffee pt=96 from=12345678",
            Some((CodecName::H264, PLAIN)),
        ),
        (
            "vrx 1 codec=vp8 ssrc=00000000 pt=96 from=ffffffff",
            Some((CodecName::Vp8, edges)),
        ),
        // no line of a capture has a line feed in it
        ("vrx 1 codec=vp8 ssrc=00c0ffee pt=96 from=12345678\n", None),
    ] {
        assert_eq!(rt; read_settings(line.as_bytes()), want, "{line}");
    }
    // A law: a line spells a codec and settings exactly if it is read as them.
    settings_lines_mean();
    Ok(())
}
