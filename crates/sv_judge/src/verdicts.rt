// What checking and verifying come to.

use sv_clause::Log;
use sv_obl::{Query, Valuation};

/// An obligation on which a budget is spent, by its number from 1, and the steps that spend it.
#[derive(Debug, Drop)]
pub struct Spent {
    pub obligation: u32,
    pub log: Log,
}

/// An obligation that is falsified, with its number from 1, and the values that falsify it.
#[derive(Debug, Drop)]
pub struct Failure {
    pub number: u32,
    pub query: Query,
    pub valuation: Valuation,
}

/// What `check` comes to for a design.
#[derive(Debug, Drop)]
pub enum Checked {
    /// Every obligation is refuted, so many; with a log for each, in order, where logs are kept.
    Accepted(u32, Vec<Log>),
    /// This obligation is falsified, the first that ends the check.
    Fails(Failure),
    /// The encoding of the obligation of this number has more than 4,194,304 variables.
    TooLarge(u32),
    /// Nothing is falsified, and the budget is spent on this obligation, the first such.
    Unknown(Spent),
}

/// What `verify` comes to for a certificate.
#[derive(Clone, Copy, Debug, PartialEq, Eq)]
pub enum Verified {
    /// Every log refutes the encoding of its obligation; so many.
    Accepted(u32),
    /// This line of the certificate, from 1, is at fault.
    Fault(u64),
    /// The encoding of the obligation of this number has more than 4,194,304 variables.
    TooLarge(u32),
}
