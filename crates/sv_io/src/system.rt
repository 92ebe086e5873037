// A cabinet, a source and a sink over the real system.
ghost use Rattle.std.specs.Prelude.{◌≡◌, ◌≢◌, ℕ, ◌+◌, ◌<◌, ◌≤◌, ◌↔◌, ◌⊎◌, Bool, true, false, List};
ghost use Rattle.std.specs.Prelude.{[], ◌∷◌, ◌++◌, take, None, Some, Ok, IfOk, OnOk, OnErr, IfSome};
ghost use Rattle.std.specs.Prelude.{IsErr, IsErrOf, IsTrue, length, vec_len};
ghost use Rattle.std.specs.Option.{is_some};
ghost use Rattle.std.specs.Io.KnownBytes.{Keeps, Appends, Consumes, IsAtEnd};
ghost use Rattle.sv_io.specs.Cabinet.{IfAnswered, IfLong};
ghost use Rattle.sv_io.specs.Count.{Rose};

use super::faults::{Failed, FetchFault, PutFault, StoreFault};
use super::history::{ByteRun, Call, Exchanges, Passed};
use super::pieces::shows_end;
use super::traits::{Cabinet, Sink, Source};
use std::alloc::Global;
use std::io::{ErrorKind, Read, Write};
use std::rt::Files;
use std::{fs, io};

/// The files of the system, by their paths. What they hold is not told. One count, which goes up at
/// each error of the system in a fetch, is the count of fetches of every name, and one is that of
/// stores.
#[derive(Drop)]
pub struct FileCabinet<R: Files> {
    runtime: R,
    files_read: u32,
    fetch_faults: u64,
    store_faults: u64,
    last_error: Option<io::Error>,
    exchanges: Exchanges,
}

impl<R: Files> FileCabinet<R> {
    ghost use Rattle.sv_io.specs.System.{file_exchanges, file_reads, file_fetch_faults};
    ghost use Rattle.sv_io.specs.System.{file_store_faults, file_failed};

    /// Over the files that the runtime reaches.
    pub fn new(runtime: R) -> FileCabinet<R>
        ensures no_exchange { file_exchanges result ≡ [] }
        ensures none_read { file_reads result ≡ 0 }
        ensures no_fetch_failed { file_fetch_faults result ≡ 0 }
        ensures no_store_failed { file_store_faults result ≡ 0 }
        ensures no_error { file_failed result ≡ false }
    {
        FileCabinet {
            runtime,
            files_read: 0,
            fetch_faults: 0,
            store_faults: 0,
            last_error: None,
            exchanges: Exchanges::new(),
        }
    }

    /// The error of the system at the last call that failed, None where none did. It is there for
    /// the messages that a program shows to a person.
    pub fn last_error(&self) -> Option<&io::Error>
        ensures { is_some result ≡ file_failed self.now }
    {
        self.last_error.as_ref()
    }

    /// How many files fetches have read so far, 4,294,967,295 where there are more. It is there for
    /// the messages that a program shows to a person: where it reads one file after the other, this
    /// tells which of them failed.
    pub fn files_read(&self) -> u32
        ensures { result ≡ file_reads self.now }
    {
        self.files_read
    }

    // All the bytes of the file, or the first of them where they are more than the limit.
    fn read(&mut self, alloc: Global, name: &str, limit: u64) -> Result<Vec<u8>, FetchFault>
        requires { limit < 18446744073709551615 }
        ensures within { IfOk result (λ bytes. vec_len bytes ≤ limit) }
        ensures long_length { IfLong result (λ bytes. length bytes ≡ limit + 1) }
        ensures failed { IsErrOf result FetchFault.Failed →
            Rose (file_fetch_faults self.old) (file_fetch_faults self.new) }
        ensures counts { file_fetch_faults self.old ≤ file_fetch_faults self.new }
        ensures kept { IfAnswered result (file_fetch_faults self.new ≡ file_fetch_faults self.old) }
        ensures store_counts { file_store_faults self.new ≡ file_store_faults self.old }
        ensures cause { IsErrOf result FetchFault.Failed → IsTrue (file_failed self.new) }
        ensures exchanges { file_exchanges self.new ≡ file_exchanges self.old }
    {
        let opened = fs::open(&self.runtime, name);
        self.read_opened(alloc, opened, limit)
    }

    // The same of a file that was opened, or of another reader.
    fn read_opened<F: Read>(
        &mut self,
        alloc: Global,
        opened: io::Result<F>,
        limit: u64,
    ) -> Result<Vec<u8>, FetchFault>
    where
        F: Drop,
        requires { limit < 18446744073709551615 }
        ensures within { IfOk result (λ bytes. vec_len bytes ≤ limit) }
        ensures long_length { IfLong result (λ bytes. length bytes ≡ limit + 1) }
        ensures failed { IsErrOf result FetchFault.Failed →
            Rose (file_fetch_faults self.old) (file_fetch_faults self.new) }
        ensures counts { file_fetch_faults self.old ≤ file_fetch_faults self.new }
        ensures kept { IfAnswered result (file_fetch_faults self.new ≡ file_fetch_faults self.old) }
        ensures store_counts { file_store_faults self.new ≡ file_store_faults self.old }
        ensures cause { IsErrOf result FetchFault.Failed → IsTrue (file_failed self.new) }
        ensures exchanges { file_exchanges self.new ≡ file_exchanges self.old }

        // What is handed out is what the reader gives, where that is known.
        ensures whole { IfOk opened (λ file. IfSome (F.remaining file)
            (λ xs. IfOk result (λ bytes. bytes.items ≡ xs))) }
        ensures long_front { IfOk opened (λ file. IfSome (F.remaining file)
            (λ xs. IfLong result (λ bytes. bytes ≡ take (limit + 1) xs))) }
    {
        match first_bytes(alloc, opened, limit + 1) {
            Ok(bytes) => {
                self.files_read = self.files_read.saturating_add(1);
                within_limit(bytes, limit)
            }
            Err(error) => Err(self.fetch_failed(error)),
        }
    }

    // Counts a failed fetch, and keeps why it failed.
    fn fetch_failed(&mut self, error: io::Error) -> FetchFault
        ensures answer { (result ≡ FetchFault.Failed) ⊎ (result ≡ FetchFault.OutOfMemory) }
        ensures rose { Rose (file_fetch_faults self.old) (file_fetch_faults self.new) }
        ensures counts { file_fetch_faults self.old ≤ file_fetch_faults self.new }
        ensures store_counts { file_store_faults self.new ≡ file_store_faults self.old }
        ensures cause { IsTrue (file_failed self.new) }
        ensures exchanges { file_exchanges self.new ≡ file_exchanges self.old }
    {
        let fault = match error.kind() {
            ErrorKind::OutOfMemory => FetchFault::OutOfMemory,
            _ => FetchFault::Failed,
        };
        self.fetch_faults = self.fetch_faults.saturating_add(1);
        self.last_error = Some(error);
        fault
    }

    // Puts the bytes into the file, in place of what was there.
    fn write(&mut self, name: &str, bytes: &[u8]) -> Result<(), StoreFault>
        ensures failed { IsErrOf result StoreFault.Failed →
            Rose (file_store_faults self.old) (file_store_faults self.new) }
        ensures counts { file_store_faults self.old ≤ file_store_faults self.new }
        ensures kept { OnOk result (file_store_faults self.new ≡ file_store_faults self.old) }
        ensures fetch_counts { file_fetch_faults self.new ≡ file_fetch_faults self.old }
        ensures exchanges { file_exchanges self.new ≡ file_exchanges self.old }
    {
        match fs::write(&self.runtime, name, bytes) {
            Ok(()) => Ok(()),
            Err(error) => {
                self.store_faults = self.store_faults.saturating_add(1);
                self.last_error = Some(error);
                Err(StoreFault::Failed)
            }
        }
    }
}

impl<R: Files> Cabinet for FileCabinet<R> {
    ghost use Rattle.sv_io.specs.System.{file_exchanges, file_fetch_faults, file_store_faults};

    ghost exchanges = { file_exchanges };

    ghost tells = { false };

    ghost held = { λ _ _. None };

    ghost fetch_faults = { λ cabinet _. file_fetch_faults cabinet };

    ghost store_faults = { λ cabinet _. file_store_faults cabinet };

    fn fetch(&mut self, alloc: Global, name: &str, limit: u64) -> Result<Vec<u8>, FetchFault> {
        let answer = self.read(alloc, name, limit);
        self.exchanges = self.exchanges.and(&Call::Fetch(name, &answer));
        answer
    }

    fn store(&mut self, name: &str, bytes: &[u8]) -> Result<(), StoreFault> {
        let answer = self.write(name, bytes);
        self.exchanges = self.exchanges.and(&Call::Store(name, bytes, &answer));
        answer
    }
}

// The first bytes of a file that was opened, at most `most`.
fn first_bytes<F: Read>(alloc: Global, opened: io::Result<F>, most: u64) -> io::Result<Vec<u8>>
where
    F: Drop,
    ensures { IfOk opened (λ file. IfSome (F.remaining file)
        (λ xs. IfOk result (λ bytes. bytes.items ≡ take most xs))) }
{
    let mut bytes = Vec::new(alloc);
    opened?.take(most).read_to_end(&mut bytes)?;
    Ok(bytes)
}

// All of the bytes where they are at most `limit`, else the first `limit + 1` of them.
fn within_limit(mut bytes: Vec<u8>, limit: u64) -> Result<Vec<u8>, FetchFault>
    requires { limit < 18446744073709551615 }
    ensures whole { IfOk result (λ all. all.items ≡ bytes.items) }
    ensures within { IfOk result (λ all. vec_len all ≤ limit) }
    ensures long { IfLong result (λ front. front ≡ take (limit + 1) bytes.items) }
    ensures long_length { IfLong result (λ front. length front ≡ limit + 1) }
    ensures never_failed { IsErrOf result FetchFault.Failed → ⊥ }
{
    if bytes.len() as u64 <= limit {
        return Ok(bytes);
    }
    bytes.truncate(limit as usize + 1);
    Err(FetchFault::Long(bytes))
}

/// Standard input, or another reader. The bytes that are left are not told.
#[derive(Drop)]
pub struct StdSource<R: Read> {
    reader: R,
    faults: u64,
    last_error: Option<io::Error>,
    ended: bool,
    given: Passed,
}

impl<R: Read> StdSource<R> {
    ghost use Rattle.sv_io.specs.System.{source_reader, source_given, source_ended, source_faults};
    ghost use Rattle.sv_io.specs.System.{source_failed};

    /// Over a reader, as the runtime's `stdin()`.
    pub fn new(reader: R) -> StdSource<R>
        ensures reader { source_reader result ≡ reader }
        ensures none_given { source_given result ≡ [] }
        ensures not_ended { source_ended result ≡ false }
        ensures no_fault { source_faults result ≡ 0 }
        ensures no_error { source_failed result ≡ false }
    {
        StdSource {
            reader,
            faults: 0,
            last_error: None,
            ended: false,
            given: Passed::new(),
        }
    }

    /// The error of the system at the last take that failed, None where none did. It is there for
    /// the messages that a program shows to a person.
    pub fn last_error(&self) -> Option<&io::Error>
        ensures { is_some result ≡ source_failed self.now }
    {
        self.last_error.as_ref()
    }
}

impl<R: Read> Source for StdSource<R> {
    ghost use Rattle.sv_io.specs.System.{source_reader, source_given, source_ended, source_faults};
    ghost use Rattle.sv_io.specs.System.{source_failed};

    ghost given = { source_given };

    ghost tells = { false };

    ghost left = { λ _. [] };

    ghost ended = { source_ended };

    ghost faults = { source_faults };

    fn take(&mut self, buf: &mut [u8]) -> Result<usize, Failed>
        ensures room { length buf.new ≡ length buf.old }
        ensures within { IfOk result (λ count. count ≤ length buf.new) }
        ensures given { IfOk result
            (λ count. source_given self.new ≡ source_given self.old ++ take count buf.new) }
        ensures none_given { OnErr result (source_given self.new ≡ source_given self.old) }
        ensures ended { IsTrue (source_ended self.new) ↔
            (IsTrue (source_ended self.old) ⊎ ((result ≡ Ok 0) × (0 < length buf.old))) }
        ensures failed { IsErr result → Rose (source_faults self.old) (source_faults self.new) }
        ensures counts { source_faults self.old ≤ source_faults self.new }
        ensures kept { OnOk result (source_faults self.new ≡ source_faults self.old) }

        // What is given is what the reader gave, and the end is the reader's, where it is known
        // what a reader gives.
        ensures read { IfOk result (λ count.
            Consumes (R.remaining (source_reader self.old)) (R.remaining (source_reader self.new))
            (take count buf.new)) }
        ensures at_end { IfOk result (λ count. count ≡ 0 → 0 < length buf.old →
            IsAtEnd (R.remaining (source_reader self.new))) }
        ensures none_read { OnErr result
            (Keeps (R.remaining (source_reader self.old)) (R.remaining (source_reader self.new))) }
        ensures cause { IsErr result → IsTrue (source_failed self.new) }
    {
        match read_some(&mut self.reader, buf) {
            Ok(count) => {
                self.given = self.given.and(&ByteRun {
                    bytes: &buf[..count],
                });
                self.ended = self.ended || shows_end(count, buf);
                Ok(count)
            }
            Err(error) => {
                self.faults = self.faults.saturating_add(1);
                self.last_error = Some(error);
                Err(Failed)
            }
        }
    }
}

// One read, begun again where a signal cut it off.
fn read_some<R: Read>(reader: &mut R, buf: &mut [u8]) -> io::Result<usize>
    ensures within { IfOk result (λ count. count ≤ length buf.new) }
    ensures read { IfOk result
        (λ count. Consumes (R.remaining reader.old) (R.remaining reader.new) (take count buf.new)) }
    ensures at_end { IfOk result
        (λ count. count ≡ 0 → 0 < length buf.old → IsAtEnd (R.remaining reader.new)) }
    ensures none_read { OnErr result (Keeps (R.remaining reader.old) (R.remaining reader.new)) }
{
    for _ in 0..u64::MAX {
        match reader.read(buf) {
            Err(error) if error.kind() == ErrorKind::Interrupted => {}
            answer => return answer,
        }
    }
    Err(io::Error::from(ErrorKind::Interrupted))
}

/// Standard output, or another writer. What it held before is not told.
#[derive(Drop)]
pub struct StdSink<W: Write> {
    writer: W,
    faults: u64,
    last_error: Option<io::Error>,
    accepted: Passed,
}

impl<W: Write> StdSink<W> {
    ghost use Rattle.sv_io.specs.System.{sink_writer, sink_accepted, sink_faults, sink_failed};

    /// Over a writer that keeps no bytes back, as the runtime's `stdout()`.
    pub fn new(writer: W) -> StdSink<W>
        ensures writer { sink_writer result ≡ writer }
        ensures none_accepted { sink_accepted result ≡ [] }
        ensures no_fault { sink_faults result ≡ 0 }
        ensures no_error { sink_failed result ≡ false }
    {
        StdSink {
            writer,
            faults: 0,
            last_error: None,
            accepted: Passed::new(),
        }
    }

    /// The error of the system at the last put that failed, None where none did. It is there for
    /// the messages that a program shows to a person.
    pub fn last_error(&self) -> Option<&io::Error>
        ensures { is_some result ≡ sink_failed self.now }
    {
        self.last_error.as_ref()
    }
}

impl<W: Write> Sink for StdSink<W> {
    ghost use Rattle.sv_io.specs.System.{sink_writer, sink_accepted, sink_faults, sink_failed};

    ghost accepted = { sink_accepted };

    ghost faults = { sink_faults };

    fn put(&mut self, piece: &[u8]) -> Result<usize, PutFault>
        requires { 0 < length piece.now }
        ensures some { IfOk result (λ count. 0 < count) }
        ensures within { IfOk result (λ count. count ≤ length piece.now) }
        ensures accepted { IfOk result
            (λ count. sink_accepted self.new ≡ sink_accepted self.old ++ take count piece.now) }
        ensures refused { OnErr result (sink_accepted self.new ≡ sink_accepted self.old) }
        ensures failed { IsErrOf result PutFault.Failed →
            Rose (sink_faults self.old) (sink_faults self.new) }
        ensures counts { sink_faults self.old ≤ sink_faults self.new }
        ensures kept { OnOk result (sink_faults self.new ≡ sink_faults self.old) }

        // What is accepted is what the writer took, where it is known what a writer holds.
        ensures written { IfOk result (λ count.
            Appends (W.contents (sink_writer self.old)) (W.contents (sink_writer self.new))
            (take count piece.now)) }
        ensures none_written { OnErr result
            (Keeps (W.contents (sink_writer self.old)) (W.contents (sink_writer self.new))) }
        ensures cause { IsErr result → IsTrue (sink_failed self.new) }
    {
        match write_some(&mut self.writer, piece) {
            Ok(count) => {
                self.accepted = self.accepted.and(&ByteRun {
                    bytes: &piece[..count],
                });
                Ok(count)
            }
            Err(error) => {
                self.faults = self.faults.saturating_add(1);
                self.last_error = Some(error);
                Err(PutFault::Failed)
            }
        }
    }
}

// One write, begun again where a signal cut it off. It fails where the system fails or takes
// nothing.
fn write_some<W: Write>(writer: &mut W, piece: &[u8]) -> io::Result<usize>
    ensures some { IfOk result (λ count. 0 < count) }
    ensures within { IfOk result (λ count. count ≤ length piece.now) }
    ensures written { IfOk result (λ count.
        Appends (W.contents writer.old) (W.contents writer.new) (take count piece.now)) }
    ensures none_written { OnErr result (Keeps (W.contents writer.old) (W.contents writer.new)) }
{
    for _ in 0..u64::MAX {
        match writer.write(piece) {
            Ok(0) => return Err(io::Error::from(ErrorKind::WriteZero)),
            Err(error) if error.kind() == ErrorKind::Interrupted => {}
            answer => return answer,
        }
    }
    Err(io::Error::from(ErrorKind::Interrupted))
}
