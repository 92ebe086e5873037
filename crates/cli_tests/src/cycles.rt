// A million cycles, of which nothing is kept: the source repeats a line and the sink counts bytes.
use crate::calls::status_of;
use crate::texts::INVERTERS;
use std::alloc::{AllocError, Global};
use sv_io::{MemCabinet, RepeatSource, TallySink};

// The status and how many bytes are written for so many cycles.
fn bytes_of_cycles(alloc: Global, cycles: u32) -> Result<(u8, u64), AllocError> {
    let mut cabinet = MemCabinet::new(alloc, Vec::new(alloc));
    cabinet.hold("f", INVERTERS.as_bytes())?;
    let header = Vec::from_slice(alloc, b"inputs a\n")?;
    let line = Vec::from_slice(alloc, b"0\n")?;
    let mut input = RepeatSource::new(header, line, cycles, 100_000);
    let mut out = TallySink::new();
    let status = status_of(alloc, "sim f", &mut cabinet, &mut input, &mut out)?;
    Ok((status, out.bytes()))
}

// A line has 17 bytes and its cycle's number, so a million have 17,000,000 and 5,888,890 digits.
#[test]
fn a_million_cycles_have_their_lines(rt: HostRuntime) {
    assert!(rt; bytes_of_cycles(rt.alloc(), 1_000_000) == Ok((0, 22_888_890)));
}
