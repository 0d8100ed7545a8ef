//! The program's words and its statuses.

use crate::tests::{HEAD, SURE, sink_of, source_of, words_of};
use crate::{Status, run};
use std::test::Fail;
use vrx_io::{SureSink, SureSource};

#[test]
fn other_words_read_and_write_nothing(rt: HostRuntime) -> Result<(), Fail> {
    let mut source = source_of(rt.alloc(), HEAD.as_bytes(), SURE)?;
    let mut sink = sink_of(rt.alloc(), SURE)?;
    let others: [&[&str]; 16] = [
        &[],
        &[""],
        &["live"],
        &["Replay"],
        &["replay "],
        &["inspects"],
        &["replay", "live"],
        &["replay", "replay"],
        &["replay", "inspect"],
        &["inspect", "replay"],
        &["inspect", ""],
        &["drill"],
        &["drill", "7", "0"],
        &["drill", "7", "10001"],
        &["drill", "07", "1"],
        &["drill", "18446744073709551616", "1"],
    ];
    for other in others {
        let words = words_of(rt.alloc(), other)?;
        let status = run(rt.alloc(), words.as_slice(), &mut source, &mut sink);
        assert_eq!(rt; status, Status::BadUsage);
        assert_eq!(rt; sink.written().len(), 0);
    }
    // had the settings line been read already, the capture would be bad now
    let words = words_of(rt.alloc(), &["replay"])?;
    let status = run(rt.alloc(), words.as_slice(), &mut source, &mut sink);
    assert_eq!(rt; status, Status::Done);
    Ok(())
}

#[test]
fn a_drill_writes_its_summary(rt: HostRuntime) -> Result<(), Fail> {
    let mut source = source_of(rt.alloc(), HEAD.as_bytes(), SURE)?;
    let mut sink = sink_of(rt.alloc(), SURE)?;
    let words = words_of(rt.alloc(), &["drill", "1", "1"])?;
    let status = run(rt.alloc(), words.as_slice(), &mut source, &mut sink);
    assert_eq!(rt; status, Status::Done);
    let text =
        "drill 1 1\ndatagrams 11\ntaken 10\nrepaired 1\nnacks 1\nplis 0\nframes 1\noctets 9574\n";
    assert_eq!(rt; sink.written(), text.as_bytes());
    Ok(())
}

#[test]
fn sure_ends_never_fail(rt: HostRuntime) -> Result<(), Fail> {
    for word in ["replay", "inspect"] {
        let mut source = SureSource::new(HEAD.as_bytes().to_vec(rt.alloc())?);
        let mut sink = SureSink::new();
        let words = words_of(rt.alloc(), &[word])?;
        let status = run(rt.alloc(), words.as_slice(), &mut source, &mut sink);
        assert_eq!(rt; status, Status::Done);
    }
    Ok(())
}

#[test]
fn statuses_have_their_numbers(rt: HostRuntime) {
    for (status, number, told) in [
        (Status::Done, 0, false),
        (Status::BadUsage, 1, true),
        (Status::BadCapture, 2, true),
        (Status::ReadFault, 3, true),
        (Status::WriteFault, 4, true),
        (Status::NoMemory, 5, true),
    ] {
        assert_eq!(rt; status.number(), number);
        assert_eq!(rt; status.cause().is_some(), told);
    }
}
