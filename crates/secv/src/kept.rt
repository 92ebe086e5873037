// Files and input of the system, of which what messages are about is kept.
ghost use Rattle.std.specs.Prelude.{◌≡◌};

use super::progress::ProgressLine;
use std::alloc::{AllocError, Global};
use std::io::Read;
use std::rt::Files;
use std::time::Clock;
use sv_io::{Cabinet, Failed, FetchFault, FileCabinet, Source, StdSource, StoreFault};

// The bytes of the largest stimulus or certificate of which a copy is kept.
const MOST_KEPT: usize = 1_048_576;

/// The files of the system, with a copy of what their first three fetches handed out whole: a file
/// from a pipe can be read once only. A copy is empty where there is none, or no memory for it; of
/// a file behind the first also where that is over a megabyte.
#[derive(Drop)]
pub struct KeptFiles<R: Files> {
    pub files: FileCabinet<R>,
    first: Option<Vec<u8>>,
    second: Option<Vec<u8>>,
    third: Option<Vec<u8>>,
}

impl<R: Files> KeptFiles<R> {
    /// Over files that handed out nothing so far.
    pub fn new(files: FileCabinet<R>) -> KeptFiles<R>
        ensures { result.files ≡ files }
    {
        KeptFiles {
            files,
            first: None,
            second: None,
            third: None,
        }
    }

    /// The first file that was kept; empty where there is none.
    pub fn first(&self) -> &[u8] {
        bytes_of(&self.first)
    }

    /// The second.
    pub fn second(&self) -> &[u8] {
        bytes_of(&self.second)
    }

    /// The third.
    pub fn third(&self) -> &[u8] {
        bytes_of(&self.third)
    }
}

fn bytes_of(kept: &Option<Vec<u8>>) -> &[u8] {
    match kept {
        Some(bytes) => bytes.as_slice(),
        None => b"",
    }
}

impl<R: Files> Cabinet for KeptFiles<R> {
    ghost use Rattle.std.specs.Prelude.{false, None};
    ghost use Rattle.sv_io.specs.System.{file_exchanges, file_fetch_faults, file_store_faults};

    ghost exchanges = { λ cabinet. file_exchanges cabinet.files };

    ghost tells = { false };

    ghost held = { λ _ _. None };

    ghost fetch_faults = { λ cabinet _. file_fetch_faults cabinet.files };

    ghost store_faults = { λ cabinet _. file_store_faults cabinet.files };

    fn fetch(&mut self, alloc: Global, name: &str, limit: u64) -> Result<Vec<u8>, FetchFault> {
        let answer = self.files.fetch(alloc, name, limit);
        if self.first.is_none() {
            self.first = Some(copy_of(alloc, &answer, usize::MAX));
        } else if self.second.is_none() {
            self.second = Some(copy_of(alloc, &answer, MOST_KEPT));
        } else if self.third.is_none() {
            self.third = Some(copy_of(alloc, &answer, MOST_KEPT));
        }
        answer
    }

    fn store(&mut self, name: &str, bytes: &[u8]) -> Result<(), StoreFault> {
        self.files.store(name, bytes)
    }
}

// What a fetch handed out whole; empty where that is nothing or over the most bytes, or memory runs
// out.
fn copy_of(alloc: Global, answer: &Result<Vec<u8>, FetchFault>, most: usize) -> Vec<u8> {
    match answer {
        Ok(bytes) if bytes.len() <= most => {
            Vec::from_slice(alloc, bytes).unwrap_or(Vec::new(alloc))
        }
        _ => Vec::new(alloc),
    }
}

/// The input of the system, with a copy of the lines that its last take went on with or gave. A take
/// shows the last cycle whose line was given whole before: `sim` has written its line by then.
#[derive(Drop)]
pub struct KeptInput<R: Read, C: Clock> {
    pub source: StdSource<R>,
    pub progress: ProgressLine<C>,
    tail: Tail,
}

impl<R: Read, C: Clock> KeptInput<R, C> {
    /// Over a source that gave nothing so far.
    pub fn new(alloc: Global, source: StdSource<R>, progress: ProgressLine<C>) -> KeptInput<R, C>
        ensures { result.source ≡ source }
    {
        KeptInput {
            source,
            progress,
            tail: Tail {
                bytes: Vec::new(alloc),
                open: 0,
                ended: 0,
                gone: 0,
                header: None,
                is_lost: false,
            },
        }
    }

    /// The lines that were kept; none where memory ran out.
    pub fn lines(&self) -> &[u8] {
        if self.tail.is_lost {
            b""
        } else {
            self.tail.bytes.as_slice()
        }
    }

    /// The number of the first of these lines, from 1.
    pub fn first_line(&self) -> u64 {
        self.tail.gone.saturating_add(1)
    }
}

impl<R: Read, C: Clock> Source for KeptInput<R, C> {
    ghost use Rattle.std.specs.Prelude.{false, []};
    ghost use Rattle.sv_io.specs.System.{source_given, source_ended, source_faults};

    ghost given = { λ input. source_given input.source };

    ghost tells = { false };

    ghost left = { λ _. [] };

    ghost ended = { λ input. source_ended input.source };

    ghost faults = { λ input. source_faults input.source };

    fn take(&mut self, buf: &mut [u8]) -> Result<usize, Failed> {
        if let Some(cycle) = self.tail.last_cycle() {
            self.progress.show(cycle);
        }
        let answer = self.source.take(buf);
        if let Ok(count) = answer {
            self.tail.keep(buf.get(..count).unwrap_or(b""));
        }
        answer
    }
}

// The last lines of an input: how many bytes of them are of lines that have ended, how many lines
// those are, how many lines were let go before, and the number of the header, from 1, once it has
// ended.
#[derive(Drop)]
struct Tail {
    bytes: Vec<u8>,
    open: usize,
    ended: u64,
    gone: u64,
    header: Option<u64>,
    is_lost: bool,
}

impl Tail {
    // The last cycle whose line has ended, from 0; None before there is one.
    fn last_cycle(&self) -> Option<u64> {
        if self.is_lost {
            return None;
        }
        let ended = self.gone.saturating_add(self.ended);
        ended.checked_sub(self.header?)?.checked_sub(1)
    }

    // Lets go the lines that have ended, and keeps what the input gave next.
    fn keep(&mut self, piece: &[u8]) {
        self.let_go();
        if self.put(piece).is_err() {
            self.is_lost = true;
        }
    }

    fn let_go(&mut self) {
        if self.open > 0 {
            let open = self.open.min(self.bytes.len());
            self.bytes.copy_within(open.., 0);
            self.bytes.truncate(self.bytes.len() - open);
            self.gone = self.gone.saturating_add(self.ended);
            self.open = 0;
            self.ended = 0;
        }
    }

    fn put(&mut self, piece: &[u8]) -> Result<(), AllocError> {
        let before = self.bytes.len();
        self.bytes.extend_from_slice(piece)?;
        if let Some(last) = piece.iter().rposition(|byte| *byte == b'\n') {
            self.open = before.saturating_add(last).saturating_add(1);
            self.ended = lines_in(piece);
            if self.header.is_none() {
                self.header = self.header_here();
            }
        }
        Ok(())
    }

    // The number of the header, if it is among the lines that have ended: the first that begins
    // with `inputs`.
    fn header_here(&self) -> Option<u64> {
        let mut lines = self.bytes.get(..self.open)?.split(|byte| *byte == b'\n');
        let before = lines.position(|line| line.starts_with(b"inputs"))?;
        Some(self.gone.saturating_add(before as u64).saturating_add(1))
    }
}

// How many lines end in a piece of a text.
fn lines_in(piece: &[u8]) -> u64 {
    let mut count = 0u64;
    for byte in piece {
        if *byte == b'\n' {
            count = count.saturating_add(1);
        }
    }
    count
}
