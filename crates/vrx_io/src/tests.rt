// What no clause says: that calls succeed with ample memory, and each adapter at a concrete type.
ghost use Rattle.std.specs.Prelude.{◌≡◌, [], ◌∷◌, ◌++◌, take, IfOk, IfSome, OnOk, OnErr};
ghost use Rattle.vrx_io.specs.Faults.{Rose, next_count};
ghost use Rattle.vrx_io.specs.Sink.{with_more, TakesShortPrefix};

use crate::failed::count_up;
use crate::{
    Failed, MemSink, MemSource, ReadOnce, Sink, Source, StdSink, StdSource, SureSink, SureSource,
    put,
};
use std::io;
use std::io::{Read, Write};
use std::process::Abort;
use std::test::Fail;

// The bytes that the next read gives, or `None` if it fails.
fn expect_read<S: Source>(rt: &impl Abort, source: &mut S, want: Option<&[u8]>) {
    let mut buf = [0; 4];
    match source.read(&mut buf) {
        Ok(n) => assert_eq!(rt; Some(&buf[..n]), want),
        Err(_) => assert_eq!(rt; None, want),
    }
}

#[test]
fn a_source_gives_one_byte_a_read_and_loses_none_where_it_fails(
    rt: HostRuntime,
) -> Result<(), Fail> {
    let bytes = [7, 8].to_vec(rt.alloc())?;
    let mut source = MemSource::new(bytes, vec![in rt.alloc(); 2]?, 1);
    expect_read(&rt, &mut source, Some(&[7]));
    expect_read(&rt, &mut source, None);
    expect_read(&rt, &mut source, Some(&[8]));
    expect_read(&rt, &mut source, Some(&[]));
    Ok(())
}

#[test]
fn a_sink_takes_two_bytes_a_write_and_none_where_it_fails(rt: HostRuntime) -> Result<(), Fail> {
    let mut sink = MemSink::new(rt.alloc(), 8, vec![in rt.alloc(); 2]?, 2)?;
    assert_eq!(rt; sink.write(b"hello"), Ok(2));
    assert_eq!(rt; sink.write(b"llo"), Err(Failed));
    assert_eq!(rt; sink.written(), b"he".as_slice());
    assert_eq!(rt; sink.write(b"llo"), Ok(2));
    assert_eq!(rt; sink.write(b"o"), Ok(1));
    assert_eq!(rt; sink.write(b""), Ok(0));
    assert_eq!(rt; sink.written(), b"hello".as_slice());
    Ok(())
}

// The room of a sink that takes two bytes a write, the write that fails, and what `put` of "hello"
// answers and leaves.
#[test]
fn put_writes_on_where_a_write_takes_a_part(rt: HostRuntime) -> Result<(), Fail> {
    for (room, fails, answer, written) in [
        (8, 9, Ok(()), b"hello".as_slice()),
        (5, 9, Ok(()), b"hello".as_slice()),
        (3, 9, Err(Failed), b"hel".as_slice()),
        (0, 9, Err(Failed), b"".as_slice()),
        (8, 2, Err(Failed), b"he".as_slice()),
    ] {
        let mut sink = MemSink::new(rt.alloc(), room, vec![in rt.alloc(); fails]?, 2)?;
        assert_eq!(rt;
            put(&mut sink, b"hello"),
            answer,
            "room {room}, write {fails} fails"
        );
        assert_eq!(rt; sink.written(), written, "room {room}, write {fails} fails");
    }
    Ok(())
}

#[test]
fn a_sure_source_and_a_sure_sink_do_not_fail(rt: HostRuntime) -> Result<(), Fail> {
    let mut source = SureSource::new(b"hello".to_vec(rt.alloc())?);
    expect_read(&rt, &mut source, Some(b"hell"));
    expect_read(&rt, &mut source, Some(b"o"));
    expect_read(&rt, &mut source, Some(b""));
    let mut sink = SureSink::new();
    assert_eq!(rt; sink.write(b"hello"), Ok(5));
    assert_eq!(rt; put(&mut sink, b"hello"), Ok(()));
    Ok(())
}

// A device that works at every other call.
#[derive(Drop)]
struct EveryOther {
    works: bool,
}

impl Read for EveryOther {
    fn read(&mut self, buf: &mut [u8]) -> io::Result<usize> {
        self.works = !self.works;
        if !self.works {
            return Err(io::ErrorKind::Interrupted.into());
        }
        if buf.is_empty() {
            return Ok(0);
        }
        buf[0] = 9;
        Ok(1)
    }
}

impl Write for EveryOther {
    // If it doesn't work it takes no byte, and gives no error.
    fn write(&mut self, buf: &[u8]) -> io::Result<usize> {
        self.works = !self.works;
        if self.works { Ok(buf.len()) } else { Ok(0) }
    }

    fn flush(&mut self) -> io::Result<()> {
        Ok(())
    }
}

#[test]
fn a_reader_and_a_writer_of_std_are_passed_on(rt: HostRuntime) -> Result<(), Fail> {
    let mut source = StdSource::new(b"hello".as_slice());
    expect_read(&rt, &mut source, Some(b"hell"));
    expect_read(&rt, &mut source, Some(b"o"));
    expect_read(&rt, &mut source, Some(b""));
    let mut held = Vec::new(rt.alloc());
    let mut sink = StdSink::new(&mut held);
    assert_eq!(rt; put(&mut sink, b"hello"), Ok(()));
    assert_eq!(rt; put(&mut sink, b" there"), Ok(()));
    assert_eq!(rt; held.as_slice(), b"hello there".as_slice());

    let mut source = StdSource::new(EveryOther { works: false });
    expect_read(&rt, &mut source, Some(&[9]));
    expect_read(&rt, &mut source, None);
    expect_read(&rt, &mut source, Some(&[9]));
    let mut sink = StdSink::new(EveryOther { works: false });
    assert_eq!(rt; sink.write(b"hello"), Ok(5));
    assert_eq!(rt; sink.write(b"hello"), Err(Failed));
    assert_eq!(rt; sink.write(b""), Ok(0));
    Ok(())
}

// A reader that counts its calls, and always fails.
#[derive(Drop)]
struct Ticks {
    calls: u64,
}

impl ReadOnce for Ticks {
    ghost is_call = { λ old room answer buf new. new.calls ≡ next_count old.calls };

    fn read_once(&mut self, buf: &mut [u8]) -> io::Result<usize> {
        self.calls = count_up(self.calls);
        Err(io::ErrorKind::Interrupted.into())
    }
}

// A caller that knows of its reader what a call does, and so of its source that a read is one call.
fn tick(source: &mut StdSource<Ticks>) -> Result<usize, Failed>
    ensures once { source.new.device.calls ≡ next_count source.old.device.calls }
{
    source.read(&mut [])
}

#[test]
fn a_read_that_fails_is_one_call(rt: HostRuntime) -> Result<(), Fail> {
    assert_eq!(rt; tick(&mut StdSource::new(Ticks { calls: 0 })), Err(Failed));
    Ok(())
}

// A caller of `put`, which writes a text and then the end of its line.
#[tactic(auto, using(crate::proofs::SinkLemmas::extended_twice, crate::proofs::SinkLemmas::takes_short_prefix_longer, crate::proofs::SinkLemmas::takes_short_prefix_later, crate::proofs::FaultsLemmas::rose_before))]
fn put_line<K: Sink>(sink: &mut K, text: &[u8]) -> Result<(), Failed>
    ensures ok { OnOk result (
        K.taken sink.new ≡ with_more (K.taken sink.old) (text.now ++ 10 ∷ [])) }
    ensures err { OnErr result (
        TakesShortPrefix (K.taken sink.old) (K.taken sink.new) (text.now ++ 10 ∷ [])) }
    ensures cause { OnErr result (Rose (K.faults sink.old) (K.faults sink.new)) }
{
    put(sink, text)?;
    put(sink, b"\n")
}

// A caller of both traits, which passes on what one read gives.
fn copy_some<S: Source, K: Sink>(source: &mut S, sink: &mut K) -> Result<usize, Failed>
    ensures copied { IfOk result (λ n. IfSome (S.left source.old) (λ bytes.
        K.taken sink.new ≡ with_more (K.taken sink.old) (take n bytes))) }
{
    let mut buf = [0; 4];
    let n = source.read(&mut buf)?;
    put(sink, &buf[..n])?;
    Ok(n)
}

#[test]
fn callers_that_know_the_traits_alone(rt: HostRuntime) -> Result<(), Fail> {
    let mut sink = MemSink::new(rt.alloc(), 9, Vec::new(rt.alloc()), 4)?;
    assert_eq!(rt; put_line(&mut sink, b"hello"), Ok(()));
    let mut source = MemSource::new(b"there".to_vec(rt.alloc())?, Vec::new(rt.alloc()), 2);
    assert_eq!(rt; copy_some(&mut source, &mut sink), Ok(2));
    assert_eq!(rt; copy_some(&mut source, &mut sink), Err(Failed));
    assert_eq!(rt; sink.written(), b"hello\nthe".as_slice());
    Ok(())
}
