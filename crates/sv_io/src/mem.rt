// A cabinet, a source and a sink in memory of which chosen calls fail.
ghost use Rattle.std.specs.Prelude.{◌≡◌, ◌≢◌, ℕ, ◌+◌, ◌<◌, ◌≤◌, ◌↔◌, ◌⊎◌, Bool, true, false, []};
ghost use Rattle.std.specs.Prelude.{IsTrue, List, ◌∷◌, ◌++◌, take, drop, length, min, Option, None};
ghost use Rattle.std.specs.Prelude.{Some, Ok, Err, IfOk, OnOk, OnErr, IsOk, IsErr, IsErrOf};
ghost use Rattle.std.specs.Prelude.{vec_len};
ghost use Rattle.std.specs.Option.{option_copied};
ghost use Rattle.sv_io.specs.Cabinet.{bytes_under, IfLong, KeepsOrBegins};
ghost use Rattle.sv_io.specs.Count.{Rose, one_more, is_failing};
ghost use Rattle.sv_io.specs.Exchange.{fetched, stored, fetched_of, is_done};

use super::OutOfMemory;
use super::calls::Calls;
use super::faults::{Failed, FetchFault, PutFault, StoreFault};
use super::files::{Counts, Files, copy_within, count_one, file_named, put_file};
use super::history::{Call, Exchanges};
use super::pieces::{copy_front, shows_end};
use super::traits::{Cabinet, Sink, Source};
use std::alloc::Global;

/// A cabinet in memory. Its fetches and stores are numbered together from 1, and those whose
/// numbers it was given fail. A fetch of a name that it does not hold fails too.
#[derive(Drop)]
pub struct MemCabinet {
    files: Files,
    fetches: Counts,
    stores: Counts,
    calls: Calls,
    exchanges: Exchanges,
    alloc: Global,
}

impl MemCabinet {
    ghost use Rattle.sv_io.specs.Mem.{mem_exchanges, mem_held, fetch_faults_of, store_faults_of};
    ghost use Rattle.sv_io.specs.Mem.{cabinet_calls, cabinet_failing};

    /// A cabinet that holds no name. The calls whose numbers stand in `failing` will fail; numbers
    /// of calls stop at the greatest u64.
    pub fn new(alloc: Global, failing: Vec<u32>) -> MemCabinet
        ensures no_exchange { mem_exchanges result ≡ [] }
        ensures holds_none { (name : List ℕ) → mem_held result name ≡ None }
        ensures no_fetch_failed { (name : List ℕ) → fetch_faults_of result name ≡ 0 }
        ensures no_store_failed { (name : List ℕ) → store_faults_of result name ≡ 0 }
        ensures no_call { cabinet_calls result ≡ 0 }
        ensures failing { cabinet_failing result ≡ failing.items }
    {
        MemCabinet {
            files: Files::new(alloc),
            fetches: Counts::new(alloc),
            stores: Counts::new(alloc),
            calls: Calls::new(failing),
            exchanges: Exchanges::new(),
            alloc,
        }
    }

    /// The bytes under the name, None exactly where it is not held.
    pub fn bytes(&self, name: &str) -> Option<&[u8]>
        ensures { option_copied result ≡ mem_held self.now name.now }
    {
        file_named(&self.files, name)
    }

    /// Puts the bytes under the name. It is no call that is numbered. Refused, it changes nothing.
    pub fn hold(&mut self, name: &str, bytes: &[u8]) -> Result<(), OutOfMemory>
        ensures held { OnOk result (mem_held self.new name.now ≡ Some bytes.now) }
        ensures others { (other : List ℕ) → other ≢ name.now →
            mem_held self.new other ≡ mem_held self.old other }
        ensures refused { OnErr result
            ((other : List ℕ) → mem_held self.new other ≡ mem_held self.old other) }
        ensures fetch_counts { (other : List ℕ) →
            fetch_faults_of self.new other ≡ fetch_faults_of self.old other }
        ensures store_counts { (other : List ℕ) →
            store_faults_of self.new other ≡ store_faults_of self.old other }
        ensures exchanges { mem_exchanges self.new ≡ mem_exchanges self.old }
        ensures calls { cabinet_calls self.new ≡ cabinet_calls self.old }
        ensures failing { cabinet_failing self.new ≡ cabinet_failing self.old }
    {
        put_file(&mut self.files, self.alloc, name, bytes)
    }

    // Keeps what a fetch of the name answers.
    fn fetched(
        &mut self,
        name: &str,
        answer: Result<Vec<u8>, FetchFault>,
    ) -> Result<Vec<u8>, FetchFault>
        ensures same { result ≡ answer }
        ensures exchange { mem_exchanges self.new ≡
            mem_exchanges self.old ++ fetched name.now (fetched_of answer) ∷ [] }
        ensures rest { self.new ≡ record self.old { exchanges = self.new.exchanges } }
    {
        self.exchanges = self.exchanges.and(&Call::Fetch(name, &answer));
        answer
    }

    // Keeps what a store of the bytes under the name answers.
    fn stored(
        &mut self,
        name: &str,
        bytes: &[u8],
        answer: Result<(), StoreFault>,
    ) -> Result<(), StoreFault>
        ensures same { result ≡ answer }
        ensures exchange { mem_exchanges self.new ≡
            mem_exchanges self.old ++ stored name.now bytes.now (is_done answer) ∷ [] }
        ensures rest { self.new ≡ record self.old { exchanges = self.new.exchanges } }
    {
        self.exchanges = self.exchanges.and(&Call::Store(name, bytes, &answer));
        answer
    }

    // Counts a failed fetch of the name.
    fn fetch_failed(&mut self, name: &str) -> FetchFault
        ensures answer { (result ≡ FetchFault.Failed) ⊎ (result ≡ FetchFault.OutOfMemory) }
        ensures counted { result ≡ FetchFault.Failed →
            fetch_faults_of self.new name.now ≡ one_more (fetch_faults_of self.old name.now) }
        ensures not_counted { (result ≡ FetchFault.Failed → ⊥) →
            fetch_faults_of self.new name.now ≡ fetch_faults_of self.old name.now }
        ensures other_names { (other : List ℕ) → other ≢ name.now →
            fetch_faults_of self.new other ≡ fetch_faults_of self.old other }
        ensures fetch_counts { (other : List ℕ) →
            fetch_faults_of self.old other ≤ fetch_faults_of self.new other }
        ensures rest { self.new ≡ record self.old { fetches = self.new.fetches } }
    {
        match count_one(&mut self.fetches, self.alloc, name) {
            Ok(()) => FetchFault::Failed,
            Err(OutOfMemory) => FetchFault::OutOfMemory,
        }
    }

    // Counts a failed store under the name.
    fn store_failed(&mut self, name: &str) -> StoreFault
        ensures counted { result ≡ StoreFault.Failed →
            store_faults_of self.new name.now ≡ one_more (store_faults_of self.old name.now) }
        ensures not_counted { (result ≡ StoreFault.Failed → ⊥) →
            store_faults_of self.new name.now ≡ store_faults_of self.old name.now }
        ensures other_names { (other : List ℕ) → other ≢ name.now →
            store_faults_of self.new other ≡ store_faults_of self.old other }
        ensures store_counts { (other : List ℕ) →
            store_faults_of self.old other ≤ store_faults_of self.new other }
        ensures rest { self.new ≡ record self.old { stores = self.new.stores } }
    {
        match count_one(&mut self.stores, self.alloc, name) {
            Ok(()) => StoreFault::Failed,
            Err(OutOfMemory) => StoreFault::OutOfMemory,
        }
    }
}

impl Cabinet for MemCabinet {
    ghost use Rattle.sv_io.specs.Mem.{mem_exchanges, mem_held, fetch_faults_of, store_faults_of};
    ghost use Rattle.sv_io.specs.Mem.{cabinet_calls, cabinet_failing};

    ghost exchanges = { mem_exchanges };

    ghost tells = { true };

    ghost held = { mem_held };

    ghost fetch_faults = { fetch_faults_of };

    ghost store_faults = { store_faults_of };

    fn fetch(&mut self, alloc: Global, name: &str, limit: u64) -> Result<Vec<u8>, FetchFault>
        requires { limit < 18446744073709551615 }

        ensures exchange { mem_exchanges self.new ≡
            mem_exchanges self.old ++ fetched name.now (fetched_of result) ∷ [] }

        ensures whole { IfOk result
            (λ bytes. bytes.items ≡ bytes_under (mem_held self.old) name.now) }
        ensures within { IfOk result (λ bytes. vec_len bytes ≤ limit) }
        ensures long_length { IfLong result (λ bytes. length bytes ≡ limit + 1) }
        ensures long_front { IfLong result
            (λ bytes. bytes ≡ take (limit + 1) (bytes_under (mem_held self.old) name.now)) }
        ensures long_cause { IfLong result
            (λ _. limit < length (bytes_under (mem_held self.old) name.now)) }
        ensures unchanged { (other : List ℕ) → mem_held self.new other ≡ mem_held self.old other }

        // It fails exactly where its number is one that fails or the name is not held.
        ensures number { cabinet_calls self.new ≡ one_more (cabinet_calls self.old) }
        ensures failing { cabinet_failing self.new ≡ cabinet_failing self.old }
        ensures fails { IsTrue (is_failing (cabinet_failing self.old) (cabinet_calls self.new)) →
            IsErrOf result FetchFault.Failed ⊎ IsErrOf result FetchFault.OutOfMemory }
        ensures missing { mem_held self.old name.now ≡ None →
            IsErrOf result FetchFault.Failed ⊎ IsErrOf result FetchFault.OutOfMemory }
        ensures failed { IsErrOf result FetchFault.Failed →
            IsTrue (is_failing (cabinet_failing self.old) (cabinet_calls self.new))
            ⊎ (mem_held self.old name.now ≡ None) }

        // Then the name's count of fetches goes up by one, and no other count changes.
        ensures counted { IsErrOf result FetchFault.Failed →
            fetch_faults_of self.new name.now ≡ one_more (fetch_faults_of self.old name.now) }
        ensures not_counted { (IsErrOf result FetchFault.Failed → ⊥) →
            fetch_faults_of self.new name.now ≡ fetch_faults_of self.old name.now }
        ensures other_names { (other : List ℕ) → other ≢ name.now →
            fetch_faults_of self.new other ≡ fetch_faults_of self.old other }
        ensures fetch_counts { (other : List ℕ) →
            fetch_faults_of self.old other ≤ fetch_faults_of self.new other }
        ensures store_counts { (other : List ℕ) →
            store_faults_of self.new other ≡ store_faults_of self.old other }
    {
        if self.calls.next_fails() {
            let fault = self.fetch_failed(name);
            return self.fetched(name, Err(fault));
        }
        match file_named(&self.files, name) {
            Some(bytes) => {
                let copy = copy_within(alloc, bytes, limit);
                self.fetched(name, copy)
            }
            None => {
                let fault = self.fetch_failed(name);
                self.fetched(name, Err(fault))
            }
        }
    }

    fn store(&mut self, name: &str, bytes: &[u8]) -> Result<(), StoreFault>
        ensures exchange { mem_exchanges self.new ≡
            mem_exchanges self.old ++ stored name.now bytes.now (is_done result) ∷ [] }

        ensures stored { OnOk result (mem_held self.new name.now ≡ Some bytes.now) }
        ensures refused { OnErr result (mem_held self.new name.now ≡ mem_held self.old name.now) }
        ensures others { (other : List ℕ) → other ≢ name.now →
            mem_held self.new other ≡ mem_held self.old other }

        // It fails exactly where its number is one that fails.
        ensures number { cabinet_calls self.new ≡ one_more (cabinet_calls self.old) }
        ensures failing { cabinet_failing self.new ≡ cabinet_failing self.old }
        ensures fails { IsTrue (is_failing (cabinet_failing self.old) (cabinet_calls self.new)) →
            IsErrOf result StoreFault.Failed ⊎ IsErrOf result StoreFault.OutOfMemory }
        ensures failed { IsErrOf result StoreFault.Failed →
            IsTrue (is_failing (cabinet_failing self.old) (cabinet_calls self.new)) }

        // Then the name's count of stores goes up by one, and no other count changes.
        ensures counted { IsErrOf result StoreFault.Failed →
            store_faults_of self.new name.now ≡ one_more (store_faults_of self.old name.now) }
        ensures not_counted { (IsErrOf result StoreFault.Failed → ⊥) →
            store_faults_of self.new name.now ≡ store_faults_of self.old name.now }
        ensures other_names { (other : List ℕ) → other ≢ name.now →
            store_faults_of self.new other ≡ store_faults_of self.old other }
        ensures store_counts { (other : List ℕ) →
            store_faults_of self.old other ≤ store_faults_of self.new other }
        ensures fetch_counts { (other : List ℕ) →
            fetch_faults_of self.new other ≡ fetch_faults_of self.old other }
    {
        if self.calls.next_fails() {
            let fault = self.store_failed(name);
            return self.stored(name, bytes, Err(fault));
        }
        match self.hold(name, bytes) {
            Ok(()) => self.stored(name, bytes, Ok(())),
            Err(OutOfMemory) => self.stored(name, bytes, Err(StoreFault::OutOfMemory)),
        }
    }
}

/// A source in memory. The takes whose numbers it was given, from 1, fail.
#[derive(Drop)]
pub struct MemSource {
    all: Vec<u8>,
    at: usize,
    calls: Calls,
    failed: u64,
    ended: bool,
    most: usize,
    ghost in_range: { at ≤ vec_len all },
    ghost some: { 1 ≤ most },
}

impl MemSource {
    ghost use Rattle.sv_io.specs.Mem.{mem_given, mem_left, source_calls, source_faults};
    ghost use Rattle.sv_io.specs.Mem.{source_ended, source_failing, source_most};

    /// A source with these bytes left, of which a take moves at most `most`. The takes whose
    /// numbers stand in `failing` will fail; numbers of takes stop at the greatest u64.
    pub fn new(bytes: Vec<u8>, failing: Vec<u32>, most: usize) -> MemSource
        requires { 1 ≤ most }
        ensures none_given { mem_given result ≡ [] }
        ensures left { mem_left result ≡ bytes.items }
        ensures not_ended { source_ended result ≡ false }
        ensures no_call { source_calls result ≡ 0 }
        ensures no_fault { source_faults result ≡ 0 }
        ensures failing { source_failing result ≡ failing.items }
        ensures most { source_most result ≡ most }
    {
        MemSource {
            all: bytes,
            at: 0,
            calls: Calls::new(failing),
            failed: 0,
            ended: false,
            most,
        }
    }

    // Moves on past so many bytes.
    fn pass(&mut self, count: usize)
        requires { self.old.at + count ≤ vec_len self.old.all }
        ensures passed { self.new.at ≡ self.old.at + count }
        ensures bytes { self.new.all ≡ self.old.all }
        ensures calls { self.new.calls ≡ self.old.calls }
        ensures faults { self.new.failed ≡ self.old.failed }
        ensures ended { self.new.ended ≡ self.old.ended }
        ensures most { self.new.most ≡ self.old.most }
    {
        self.at += count;
    }
}

impl Source for MemSource {
    ghost use Rattle.sv_io.specs.Mem.{mem_given, mem_left, source_calls, source_faults};
    ghost use Rattle.sv_io.specs.Mem.{source_ended, source_failing, source_most};

    ghost given = { mem_given };

    ghost tells = { true };

    ghost left = { mem_left };

    ghost ended = { source_ended };

    ghost faults = { source_faults };

    fn take(&mut self, buf: &mut [u8]) -> Result<usize, Failed>
        ensures room { length buf.new ≡ length buf.old }
        ensures untouched { OnErr result (buf.new ≡ buf.old) }
        ensures behind { IfOk result (λ count. drop count buf.new ≡ drop count buf.old) }
        ensures moved { IfOk result (λ count. count ≡
            min (source_most self.old) (min (length (mem_left self.old)) (length buf.old))) }
        ensures within { IfOk result (λ count. count ≤ length buf.new) }
        ensures given { IfOk result (λ count.
            mem_given self.new ≡ mem_given self.old ++ take count buf.new) }
        ensures none_given { OnErr result (mem_given self.new ≡ mem_given self.old) }
        ensures taken { IfOk result (λ count.
            mem_left self.old ≡ take count buf.new ++ mem_left self.new) }
        ensures end { 0 < length buf.old →
            IfOk result (λ count. (count ≡ 0) ↔ (mem_left self.old ≡ [])) }
        ensures ended { IsTrue (source_ended self.new) ↔
            (IsTrue (source_ended self.old) ⊎ ((result ≡ Ok 0) × (0 < length buf.old))) }
        ensures refused { OnErr result (mem_left self.new ≡ mem_left self.old) }

        // It fails exactly where its number is one that fails, and then the count goes up by one.
        ensures number { source_calls self.new ≡ one_more (source_calls self.old) }
        ensures failed { IsErr result ↔
            IsTrue (is_failing (source_failing self.old) (source_calls self.new)) }
        ensures counted { OnErr result
            (source_faults self.new ≡ one_more (source_faults self.old)) }
        ensures not_counted { OnOk result (source_faults self.new ≡ source_faults self.old) }
        ensures counts { source_faults self.old ≤ source_faults self.new }

        ensures failing { source_failing self.new ≡ source_failing self.old }
        ensures most { source_most self.new ≡ source_most self.old }
    {
        if self.calls.next_fails() {
            self.failed = self.failed.saturating_add(1);
            return Err(Failed);
        }
        let count = copy_front(&self.all[self.at..], buf, self.most);
        self.pass(count);
        self.ended = self.ended || shows_end(count, buf);
        Ok(count)
    }
}

/// A sink in memory. The puts whose numbers it was given, from 1, fail.
#[derive(Drop)]
pub struct MemSink {
    all: Vec<u8>,
    calls: Calls,
    failed: u64,
    most: usize,
    ghost some: { 1 ≤ most },
}

impl MemSink {
    ghost use Rattle.sv_io.specs.Mem.{mem_accepted, sink_calls, sink_faults, sink_failing};
    ghost use Rattle.sv_io.specs.Mem.{sink_most};

    /// A sink that accepted nothing. A put moves at most `most` bytes. The puts whose numbers
    /// stand in `failing` will fail; numbers of puts stop at the greatest u64.
    pub fn new(alloc: Global, failing: Vec<u32>, most: usize) -> MemSink
        requires { 1 ≤ most }
        ensures accepted { mem_accepted result ≡ [] }
        ensures no_call { sink_calls result ≡ 0 }
        ensures no_fault { sink_faults result ≡ 0 }
        ensures failing { sink_failing result ≡ failing.items }
        ensures most { sink_most result ≡ most }
    {
        MemSink {
            all: Vec::new(alloc),
            calls: Calls::new(failing),
            failed: 0,
            most,
        }
    }

    /// What was accepted.
    pub fn bytes(&self) -> &[u8]
        ensures { result.now ≡ mem_accepted self.now }
    {
        self.all.as_slice()
    }
}

impl Sink for MemSink {
    ghost use Rattle.sv_io.specs.Mem.{mem_accepted, sink_calls, sink_faults, sink_failing};
    ghost use Rattle.sv_io.specs.Mem.{sink_most};

    ghost accepted = { mem_accepted };

    ghost faults = { sink_faults };

    fn put(&mut self, piece: &[u8]) -> Result<usize, PutFault>
        requires { 0 < length piece.now }
        ensures moved { IfOk result (λ count. count ≡ min (length piece.now) (sink_most self.old)) }
        ensures some { IfOk result (λ count. 0 < count) }
        ensures accepted { IfOk result (λ count.
            mem_accepted self.new ≡ mem_accepted self.old ++ take count piece.now) }
        ensures refused { OnErr result (mem_accepted self.new ≡ mem_accepted self.old) }

        // It fails exactly where its number is one that fails, and then the count goes up by one.
        ensures number { sink_calls self.new ≡ one_more (sink_calls self.old) }
        ensures failed { IsErrOf result PutFault.Failed ↔
            IsTrue (is_failing (sink_failing self.old) (sink_calls self.new)) }
        ensures counted { IsErrOf result PutFault.Failed →
            sink_faults self.new ≡ one_more (sink_faults self.old) }
        ensures not_counted { (IsErrOf result PutFault.Failed → ⊥) →
            sink_faults self.new ≡ sink_faults self.old }
        ensures counts { sink_faults self.old ≤ sink_faults self.new }

        ensures failing { sink_failing self.new ≡ sink_failing self.old }
        ensures most { sink_most self.new ≡ sink_most self.old }
    {
        if self.calls.next_fails() {
            self.failed = self.failed.saturating_add(1);
            return Err(PutFault::Failed);
        }
        let count = piece.len().min(self.most);
        match self.all.extend_from_slice(&piece[..count]) {
            Ok(()) => Ok(count),
            Err(OutOfMemory) => Err(PutFault::OutOfMemory),
        }
    }
}
