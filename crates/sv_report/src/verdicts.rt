// What is found of a text.
use sv_flat::SigId;
use sv_num::{Name, Refusal};
use sv_obl::Valuation;
use sv_texts::{StimKind, StimSource};

/// Why a text, a certificate, a stimulus or a pair of runs is refused.
#[derive(Debug, Drop)]
pub enum Broken {
    /// The text breaks a rule.
    Rule(Refusal),
    /// A limit is exceeded: the rule's number and its names.
    Limit(u16, Vec<Name>),
    /// The obligation of this number, from 1, fails at these values.
    Fails(u32, Valuation),
    /// The line of this number, from 1, is the first wrong one of the certificate.
    Proof(u64),
    /// The line of this number, from 1, is the first wrong one of the stimulus.
    Stimulus(StimSource, u64, StimKind),
    /// In this cycle, from 0, the inputs of two runs differ, in cycle 0 inputs or registers, and
    /// the signal is the first that tells them apart.
    Input(u64, SigId),
    /// In this cycle, from 0, the inputs of two runs look alike and the views differ, and the
    /// signal is the first that tells them apart.
    View(u64, SigId),
    /// Two runs look alike until the shorter one ends, which has so many cycles.
    Lengths(u64),
}

/// What a text is found to be.
#[derive(Debug, Drop)]
pub enum Verdict {
    /// So many obligations hold, which are all.
    Accepted(u32),
    /// It is refused.
    Refused(Broken),
    /// On the obligation of this number, from 1, the budget of so many clauses was spent.
    Unknown { obligation: u32, budget: u32 },
}
