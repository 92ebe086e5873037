// What passed between the program and the outside. These values have no bytes, and their methods do
// nothing when the program runs: only clauses read them.
ghost use Rattle.std.specs.Prelude.{◌≡◌, ℕ, List, [], ◌∷◌, ◌++◌};
ghost use Rattle.sv_io.specs.Exchange.{Exchange};
ghost use Rattle.sv_io.specs.ExchangeCode.{exchanges_code};
ghost use base.Fml.{ftrue};

use super::faults::{FetchFault, StoreFault};
use std::marker::Model;

/// All bytes that passed, in order.
#[derive(Drop)]
pub struct Passed {
    pub ghost bytes: { List ℕ },
}

impl Model for Passed {
    ghost also_owns = { λ _. ftrue };
}

/// A run of bytes that pass next.
#[derive(Clone, Copy)]
pub struct ByteRun<'a> {
    pub bytes: &'a [u8],
}

impl Passed {
    /// Nothing passed.
    pub fn new() -> Passed
        ensures { result.bytes ≡ [] }
    {
        Passed {}
    }

    /// What passed so far, and then the run of bytes.
    pub fn and(&self, _run: &ByteRun<'_>) -> Passed
        ensures { result.bytes ≡ self.now.bytes ++ _run.now.bytes.now }
    {
        Passed {}
    }
}

/// All calls of a cabinet and what they answered, in order.
#[derive(Drop)]
pub struct Exchanges {
    pub ghost calls: { List Exchange } by { exchanges_code },
}

impl Model for Exchanges {
    ghost also_owns = { λ _. ftrue };
}

/// A call of a cabinet, and what it answered.
#[derive(Clone, Copy)]
pub enum Call<'a> {
    Fetch(&'a str, &'a Result<Vec<u8>, FetchFault>),
    Store(&'a str, &'a [u8], &'a Result<(), StoreFault>),
}

impl Exchanges {
    ghost use Rattle.sv_io.specs.Called.{exchange_of};

    /// There was no call.
    pub fn new() -> Exchanges
        ensures { result.calls ≡ [] }
    {
        Exchanges {}
    }

    /// The calls so far, and then this one.
    pub fn and(&self, _call: &Call<'_>) -> Exchanges
        ensures { result.calls ≡ self.now.calls ++ exchange_of _call.now ∷ [] }
    {
        Exchanges {}
    }
}
