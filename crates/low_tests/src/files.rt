// The outside in memory and over real files and streams.
use std::alloc::{AllocError, Global};
use std::fs;
use std::io::{Error, ErrorKind, Read, Result, Write};
use sv_io::*;

// A name in the folder that the tests run in.
const NAME: &str = "sv_io_test_stored";

// Whether what is stored last is handed out, its front alone where it is over the limit.
fn keeps<C: Cabinet>(alloc: Global, cabinet: &mut C) -> bool {
    cabinet.store(NAME, b"older bytes").is_ok()
        && cabinet.store(NAME, b"text").is_ok()
        && is_whole(alloc, cabinet)
        && is_long(alloc, cabinet)
}

// Whether a fetch of at most four bytes hands out all four.
fn is_whole<C: Cabinet>(alloc: Global, cabinet: &mut C) -> bool {
    match cabinet.fetch(alloc, NAME, 4) {
        Ok(whole) => whole.as_slice() == b"text".as_slice(),
        Err(_) => false,
    }
}

// Whether a fetch of at most one byte hands out two of them as too many.
fn is_long<C: Cabinet>(alloc: Global, cabinet: &mut C) -> bool {
    match cabinet.fetch(alloc, NAME, 1) {
        Err(FetchFault::Long(front)) => front.as_slice() == b"te".as_slice(),
        _ => false,
    }
}

// Whether memory that already holds something keeps what is stored.
fn holds(alloc: Global) -> bool {
    let mut sure = SureCabinet::new(alloc);
    sure.hold(NAME, b"held").is_ok()
        && sure.bytes(NAME).unwrap_or(b"") == b"held".as_slice()
        && keeps(alloc, &mut sure)
}

// Whether a source in memory hands out its bytes, which a sink in memory then has.
fn passes_on(alloc: Global) -> std::result::Result<bool, AllocError> {
    let mut source = SureSource::new(Vec::from_slice(alloc, b"abc")?);
    let mut sink = SureSink::new(alloc);
    let mut buf = [0u8; 4];
    Ok(
        source.take(&mut buf) == Ok(3)
            && put_all(&mut sink, &buf[..3]).is_ok()
            && sink.bytes() == b"abc".as_slice(),
    )
}

#[test]
fn memory_keeps_what_is_stored(rt: HostRuntime) {
    let alloc = rt.alloc();
    assert!(rt; holds(alloc));
    assert!(rt; keeps(alloc, &mut MemCabinet::new(alloc, Vec::new(alloc))));
    assert!(rt; passes_on(alloc) == Ok(true));
}

#[test]
fn files_keep_what_is_stored(rt: HostRuntime) {
    let mut files = FileCabinet::new(rt);
    assert!(rt; keeps(rt.alloc(), &mut files));
    assert!(rt; files.last_error().is_none());
    assert!(rt; files.store("missing/file", b"text").is_err());
    assert!(rt; cause(files.last_error()) == Some(ErrorKind::NotFound));
    assert!(rt; fs::remove_file(&rt, NAME).is_ok());
}

// A stream that is cut off by a signal at first, then moves one byte, then nothing, then one more,
// and then fails.
#[derive(Drop)]
struct Fitful {
    calls: u8,
}

impl Fitful {
    fn next(&mut self) -> Result<bool> {
        self.calls = self.calls.saturating_add(1);
        match self.calls {
            1 => Err(Error::from(ErrorKind::Interrupted)),
            2 | 4 => Ok(true),
            3 => Ok(false),
            _ => Err(Error::from(ErrorKind::BrokenPipe)),
        }
    }
}

impl Read for Fitful {
    fn read(&mut self, buf: &mut [u8]) -> Result<usize> {
        let moves = self.next()?;
        Ok(if moves && !buf.is_empty() { 1 } else { 0 })
    }
}

impl Write for Fitful {
    fn write(&mut self, buf: &[u8]) -> Result<usize> {
        let moves = self.next()?;
        Ok(if moves && !buf.is_empty() { 1 } else { 0 })
    }

    fn flush(&mut self) -> Result<()> {
        Ok(())
    }
}

fn cause(error: Option<&Error>) -> Option<ErrorKind> {
    match error {
        Some(error) => Some(error.kind()),
        None => None,
    }
}

// Whether one byte comes, then none, and one more.
fn gives_two(input: &mut StdSource<Fitful>) -> bool {
    let mut buf = [0u8; 4];
    input.take(&mut buf) == Ok(1)
        && input.take(&mut buf) == Ok(0)
        && input.take(&mut buf) == Ok(1)
        && input.last_error().is_none()
}

#[test]
fn an_input_that_breaks_is_a_fault(rt: HostRuntime) {
    let mut input = StdSource::new(Fitful { calls: 0 });
    assert!(rt; gives_two(&mut input));
    assert!(rt; input.take(&mut [0u8; 4]) == Err(Failed));
    assert!(rt; cause(input.last_error()) == Some(ErrorKind::BrokenPipe));
}

// Whether one byte is taken, and the next put fails by this cause.
fn takes_one(output: &mut StdSink<Fitful>, why: ErrorKind) -> bool {
    output.put(b"ab") == Ok(1)
        && output.put(b"ab") == Err(PutFault::Failed)
        && cause(output.last_error()) == Some(why)
}

#[test]
fn an_output_that_breaks_is_a_fault(rt: HostRuntime) {
    let mut output = StdSink::new(Fitful { calls: 0 });
    assert!(rt; output.last_error().is_none());
    assert!(rt; takes_one(&mut output, ErrorKind::WriteZero));
    assert!(rt; takes_one(&mut output, ErrorKind::BrokenPipe));
}
