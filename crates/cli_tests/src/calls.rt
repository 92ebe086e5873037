// Calls of `run` over files and streams in memory.
use std::alloc::{AllocError, Global};
use sv_cli::run;
use sv_io::{MemCabinet, MemSink, MemSource, Sink, Source};

// The words, of which a blank stands between two.
fn list_of(alloc: Global, words: &str) -> Result<Vec<String>, AllocError> {
    let mut list = Vec::new(alloc);
    for word in words.split(' ') {
        list.push(String::from_str(alloc, word)?)?;
    }
    Ok(list)
}

/// The status of these words, a blank between two, over these files and streams.
pub fn status_of<S: Source, K: Sink>(
    alloc: Global,
    words: &str,
    cabinet: &mut MemCabinet,
    input: &mut S,
    out: &mut K,
) -> Result<u8, AllocError> {
    let list = list_of(alloc, words)?;
    Ok(run(alloc, &list, cabinet, input, out).status())
}

/// What the input gives, a byte a take, and the numbers, from 1, of the take and of the put that
/// fail; at 0 none does.
#[derive(Clone, Copy)]
pub struct Outside<'a> {
    pub stimulus: &'a str,
    pub take: u32,
    pub put: u32,
}

/// The status of these words over these files, and all that was written, where the output moves a
/// byte a put.
pub fn run_over(
    alloc: Global,
    words: &str,
    cabinet: &mut MemCabinet,
    outside: Outside<'_>,
) -> Result<(u8, Vec<u8>), AllocError> {
    let bytes = Vec::from_slice(alloc, outside.stimulus.as_bytes())?;
    let mut input = MemSource::new(bytes, vec![in alloc; outside.take]?, 1);
    let mut out = MemSink::new(alloc, vec![in alloc; outside.put]?, 1);
    let status = status_of(alloc, words, cabinet, &mut input, &mut out)?;
    Ok((status, Vec::from_slice(alloc, out.bytes())?))
}
