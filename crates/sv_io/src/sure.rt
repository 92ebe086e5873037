// A cabinet, a source and a sink in memory that never fail.
ghost use Rattle.std.specs.Prelude.{◌≡◌, ◌≢◌, ℕ, ◌≤◌, true, false, [], List, None, Some, OnOk};
ghost use Rattle.std.specs.Prelude.{OnErr, vec_len};
ghost use Rattle.std.specs.Option.{option_copied};

use super::OutOfMemory;
use super::faults::{Failed, FetchFault, PutFault, StoreFault};
use super::files::{Files, copy_within, file_named, put_file};
use super::history::{Call, Exchanges};
use super::pieces::{copy_front, shows_end};
use super::traits::{Cabinet, Sink, Source};
use std::alloc::Global;

/// A cabinet in memory that never fails. A fetch of a name that it does not hold gives no bytes.
#[derive(Drop)]
pub struct SureCabinet {
    files: Files,
    exchanges: Exchanges,
    alloc: Global,
}

impl SureCabinet {
    ghost use Rattle.sv_io.specs.Sure.{sure_exchanges, sure_held};

    /// A cabinet that holds no name.
    pub fn new(alloc: Global) -> SureCabinet
        ensures no_exchange { sure_exchanges result ≡ [] }
        ensures holds_none { (name : List ℕ) → sure_held result name ≡ None }
    {
        SureCabinet {
            files: Files::new(alloc),
            exchanges: Exchanges::new(),
            alloc,
        }
    }

    /// The bytes under the name, None exactly where it is not held.
    pub fn bytes(&self, name: &str) -> Option<&[u8]>
        ensures { option_copied result ≡ sure_held self.now name.now }
    {
        file_named(&self.files, name)
    }

    /// Puts the bytes under the name. It is no exchange. Refused, it changes nothing.
    pub fn hold(&mut self, name: &str, bytes: &[u8]) -> Result<(), OutOfMemory>
        ensures held { OnOk result (sure_held self.new name.now ≡ Some bytes.now) }
        ensures others { (other : List ℕ) → other ≢ name.now →
            sure_held self.new other ≡ sure_held self.old other }
        ensures refused { OnErr result
            ((other : List ℕ) → sure_held self.new other ≡ sure_held self.old other) }
        ensures exchanges { sure_exchanges self.new ≡ sure_exchanges self.old }
    {
        put_file(&mut self.files, self.alloc, name, bytes)
    }
}

impl Cabinet for SureCabinet {
    ghost use Rattle.sv_io.specs.Sure.{sure_exchanges, sure_held};

    ghost exchanges = { sure_exchanges };

    ghost tells = { true };

    ghost held = { sure_held };

    ghost fetch_faults = { λ _ _. 0 };

    ghost store_faults = { λ _ _. 0 };

    fn fetch(&mut self, alloc: Global, name: &str, limit: u64) -> Result<Vec<u8>, FetchFault> {
        let answer = copy_within(alloc, self.bytes(name).unwrap_or(&[]), limit);
        self.exchanges = self.exchanges.and(&Call::Fetch(name, &answer));
        answer
    }

    fn store(&mut self, name: &str, bytes: &[u8]) -> Result<(), StoreFault> {
        let answer = match self.hold(name, bytes) {
            Ok(()) => Ok(()),
            Err(OutOfMemory) => Err(StoreFault::OutOfMemory),
        };
        self.exchanges = self.exchanges.and(&Call::Store(name, bytes, &answer));
        answer
    }
}

/// A source in memory that never fails.
#[derive(Drop)]
pub struct SureSource {
    all: Vec<u8>,
    at: usize,
    ended: bool,
    ghost in_range: { at ≤ vec_len all },
}

impl SureSource {
    ghost use Rattle.sv_io.specs.Sure.{sure_given, sure_left, sure_ended};

    /// A source with these bytes left.
    pub fn new(bytes: Vec<u8>) -> SureSource
        ensures none_given { sure_given result ≡ [] }
        ensures left { sure_left result ≡ bytes.items }
        ensures not_ended { sure_ended result ≡ false }
    {
        SureSource {
            all: bytes,
            at: 0,
            ended: false,
        }
    }
}

impl Source for SureSource {
    ghost use Rattle.sv_io.specs.Sure.{sure_given, sure_left, sure_ended};

    ghost given = { sure_given };

    ghost tells = { true };

    ghost left = { sure_left };

    ghost ended = { sure_ended };

    ghost faults = { λ _. 0 };

    fn take(&mut self, buf: &mut [u8]) -> Result<usize, Failed> {
        let count = copy_front(&self.all[self.at..], buf, usize::MAX);
        self.at += count;
        self.ended = self.ended || shows_end(count, buf);
        Ok(count)
    }
}

/// A sink in memory that never fails.
#[derive(Drop)]
pub struct SureSink {
    all: Vec<u8>,
}

impl SureSink {
    ghost use Rattle.sv_io.specs.Sure.{sure_accepted};

    /// A sink that accepted nothing.
    pub fn new(alloc: Global) -> SureSink
        ensures { sure_accepted result ≡ [] }
    {
        SureSink {
            all: Vec::new(alloc),
        }
    }

    /// What was accepted.
    pub fn bytes(&self) -> &[u8]
        ensures { result.now ≡ sure_accepted self.now }
    {
        self.all.as_slice()
    }
}

impl Sink for SureSink {
    ghost use Rattle.sv_io.specs.Sure.{sure_accepted};

    ghost accepted = { sure_accepted };

    ghost faults = { λ _. 0 };

    fn put(&mut self, piece: &[u8]) -> Result<usize, PutFault> {
        match self.all.extend_from_slice(piece) {
            Ok(()) => Ok(piece.len()),
            Err(OutOfMemory) => Err(PutFault::OutOfMemory),
        }
    }
}
