// Logs of resolution.
use crate::clause::Clause;

/// A clause that is resolved from earlier ones, and the numbers of those, from 1: the first, then
/// each with which it is resolved.
#[derive(Debug, Drop)]
pub struct Derived {
    /// What the chain gives.
    pub clause: Clause,
    /// The numbers, in the order in which they are resolved.
    pub chain: Vec<u64>,
}

/// Steps of resolution. The clauses that they start from are numbered first, then those of the
/// steps.
#[derive(Debug, Drop)]
pub struct Log {
    /// The steps, each derived from the clauses and the steps before it.
    pub steps: Vec<Derived>,
}
