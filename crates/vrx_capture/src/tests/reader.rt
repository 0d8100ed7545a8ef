//! Lines, and what the reader of a capture does over several calls.

use crate::{HeadFault, Line, LineFault, Lines, read_line};
use std::alloc::{AllocError, Global};
use std::test::Fail;
use vrx_io::{MemSource, Source};

/// A line that begins so, with its last octet once more and again up to a length.
fn filled(alloc: Global, begin: &str, len: usize) -> Result<Vec<u8>, AllocError> {
    let mut line = begin.as_bytes().to_vec(alloc)?;
    if let Some(octet) = begin.as_bytes().last() {
        for _ in line.len()..len {
            line.push(*octet)?;
        }
    }
    Ok(line)
}

// Line k, after so many event lines of at most 9: how it begins, and how long it is if it is longer.
#[test]
fn lines_are_read(rt: HostRuntime) -> Result<(), Fail> {
    for (k, events, begin, len, want) in [
        (2, 8, "", 0, "Blank"),
        (2, 8, "p 0", 0, "Happens(Pull { moment: 0 })"),
        (2, 8, "p 9", 14, "Happens(Pull { moment: 999999999999 })"),
        (2, 8, "t 0", 0, "Happens(Tick { moment: 0 })"),
        (2, 8, "t 10", 14, "Happens(Tick { moment: 100000000000 })"),
        (
            2,
            8,
            "d 20 80fF",
            0,
            "Happens(Datagram { moment: 20, bytes: EventBytes { octets: [128, 255] } })",
        ),
        // the limit of lines counts before all others
        (2_097_152, 8, "p 1", 0, "Happens(Pull { moment: 1 })"),
        (2_097_153, 8, "p 1", 0, "Wrong(Lines)"),
        (2_097_153, 8, "", 0, "Wrong(Lines)"),
        (2_097_153, 8, "x", 20_001, "Wrong(Lines)"),
        (2_097_153, 9, "p 1", 0, "Wrong(Lines)"),
        // then that of octets
        (2, 8, "#", 20_000, "Blank"),
        (2, 8, "#", 20_001, "Wrong(Long)"),
        (2, 8, "x", 20_000, "Wrong(Kind)"),
        (2, 8, "x", 20_001, "Wrong(Long)"),
        (2, 9, "p 1", 20_001, "Wrong(Long)"),
        (2, 8, "p 1", 20_000, "Wrong(Moment)"),
        (2, 8, "d 11 0", 20_000, "Wrong(Hex)"),
        // then the kind, then that of events, and then the rest of the line
        (2, 9, "", 0, "Blank"),
        (2, 9, "x", 0, "Wrong(Kind)"),
        (2, 9, "p 1", 0, "Wrong(Events)"),
        (2, 9, "t 1", 0, "Wrong(Events)"),
        (2, 9, "d 1 80", 0, "Wrong(Events)"),
        (2, 9, "p 01", 0, "Wrong(Events)"),
        (2, 9, "t 1 ", 0, "Wrong(Events)"),
        (2, 9, "d 1 8", 0, "Wrong(Events)"),
    ] {
        let line = filled(rt.alloc(), begin, len)?;
        let kind = read_line(rt.alloc(), 9, k, events, line.as_slice())?;
        let kind = format!(in rt.alloc(); "{kind:?}")?;
        assert_eq!(rt; kind.as_str(), want, "{k} {events} {begin} {len}");
    }
    Ok(())
}

/// What four calls for the next event answer.
fn story<S: Source>(
    alloc: Global,
    lines: &mut Lines,
    source: &mut S,
) -> Result<String, AllocError> {
    let mut story = String::new(alloc);
    for _ in 0..4 {
        let answer = match lines.next(source) {
            Ok(Line::Event { k, event }) => format!(in alloc; "{k} {event:?}, ")?,
            Ok(Line::End) => format!(in alloc; "end, ")?,
            Err(LineFault::Bad { k, reason }) => format!(in alloc; "{k} is bad: {reason:?}, ")?,
            Err(fault) => format!(in alloc; "{fault}, ")?,
        };
        story.push_str(answer.as_str())?;
    }
    Ok(story)
}

// How many octets a read gives is all the same, and so is a last line without its line feed. A read that fails is
// reported, and the next call goes on with the same line: read 3 of three octets each ends the first line, read 4
// finds the end, and there is no read 5.
#[test]
fn events_are_given(rt: HostRuntime) -> Result<(), Fail> {
    let twice = "p 12\np 34";
    for (capture, max, fails, most, want) in [
        ("", 9, 0, 1, "end, end, end, end, "),
        ("\n\n# nothing\n", 9, 0, 1, "end, end, end, end, "),
        ("\n# nothing", 9, 0, 3, "end, end, end, end, "),
        ("p 1\n", 9, 0, 1, "1 Pull { moment: 1 }, end, end, end, "),
        ("p 1", 9, 0, 1, "1 Pull { moment: 1 }, end, end, end, "),
        (
            "# two\n\np 1\n\nt 2\n",
            2,
            0,
            1,
            "3 Pull { moment: 1 }, 5 Tick { moment: 2 }, end, end, ",
        ),
        (
            "p 1\np 2\n# one\n",
            1,
            0,
            3,
            "1 Pull { moment: 1 }, 2 is bad: Events, 2 is bad: Events, 2 is bad: Events, ",
        ),
        (
            "p 1\r\np 2\r\n",
            9,
            0,
            1,
            "1 is bad: Moment, 1 is bad: Moment, 1 is bad: Moment, 1 is bad: Moment, ",
        ),
        (
            "p 1\n\nx\np 2\n",
            9,
            0,
            1,
            "1 Pull { moment: 1 }, 3 is bad: Kind, 3 is bad: Kind, 3 is bad: Kind, ",
        ),
        (
            "p 1\nd 1 8",
            9,
            0,
            100,
            "1 Pull { moment: 1 }, 2 is bad: Hex, 2 is bad: Hex, 2 is bad: Hex, ",
        ),
        (
            twice,
            9,
            1,
            3,
            "a read failed, 1 Pull { moment: 12 }, 2 Pull { moment: 34 }, end, ",
        ),
        (
            twice,
            9,
            2,
            3,
            "a read failed, 1 Pull { moment: 12 }, 2 Pull { moment: 34 }, end, ",
        ),
        (
            twice,
            9,
            3,
            3,
            "1 Pull { moment: 12 }, a read failed, 2 Pull { moment: 34 }, end, ",
        ),
        (
            twice,
            9,
            5,
            3,
            "1 Pull { moment: 12 }, 2 Pull { moment: 34 }, end, end, ",
        ),
    ] {
        let bytes = capture.as_bytes().to_vec(rt.alloc())?;
        let mut source = MemSource::new(bytes, vec![in rt.alloc(); fails]?, most);
        let mut lines = Lines::new(rt.alloc(), max)?;
        let told = story(rt.alloc(), &mut lines, &mut source)?;
        assert_eq!(rt;
            told.as_str(),
            want,
            "{capture}, {most} a read, {fails} fails"
        );
        // the read that fails is still to come
        if fails == 5 {
            assert!(rt; matches!(lines.head(&mut source), Ok(None)));
            assert!(rt; source.read(&mut [0; 4]).is_err());
        }
    }
    Ok(())
}

#[test]
fn the_head_line_is_given_as_it_stands(rt: HostRuntime) -> Result<(), Fail> {
    let bytes = b"vrx 1\r\n\np 5\n".to_vec(rt.alloc())?;
    let mut source = MemSource::new(bytes, vec![in rt.alloc(); 2]?, 3);
    let mut lines = Lines::new(rt.alloc(), 9)?;
    assert!(rt; matches!(lines.head(&mut source), Err(HeadFault::ReadFault)));
    let Ok(Some(head)) = lines.head(&mut source) else {
        panic!(rt; "no head line");
    };
    assert_eq!(rt; head.as_slice(), b"vrx 1\r".as_slice());
    let story = story(rt.alloc(), &mut lines, &mut source)?;
    assert_eq!(rt; story.as_str(), "3 Pull { moment: 5 }, end, end, end, ");
    assert!(rt; matches!(lines.head(&mut source), Ok(None)));
    for (len, given) in [(20_000, true), (20_001, false)] {
        let bytes = filled(rt.alloc(), "vrx ", len)?;
        let mut source = MemSource::new(bytes, vec![in rt.alloc()]?, 7_000);
        let mut lines = Lines::new(rt.alloc(), 9)?;
        let Ok(head) = lines.head(&mut source) else {
            panic!(rt; "no answer");
        };
        assert_eq!(rt; head.is_some(), given, "{len} octets");
    }
    Ok(())
}
