// Encodings.
ghost use Rattle.std.specs.Prelude.{◌≡◌};
ghost use Rattle.sv_blast.specs.declared.coded.BlastFault.TheVariants.{OutOfMemory};

use std::alloc::AllocError;
use sv_clause::Clause;
use sv_flat::SigId;
use thiserror::Error;

/// Where a bit of an input or register stands among the variables: a register or input of this
/// cycle, or an input of the next one.
#[derive(Clone, Copy, Debug, PartialEq, Eq)]
pub struct BitPlace {
    pub signal: SigId,
    pub next: bool,
    pub bit: u8,
    pub variable: u32,
}

/// The encoding of an obligation: how many variables there are, the clauses in the order in which
/// they were made, and the places of the bits of inputs and registers.
#[derive(Debug, Drop)]
pub struct Coded {
    pub variables: u32,
    pub clauses: Vec<Clause>,
    pub bits: Vec<BitPlace>,
}

/// Why an obligation is not encoded.
#[derive(Clone, Copy, Debug, PartialEq, Eq, Error)]
pub enum BlastFault {
    /// It has more than 4,194,304 variables.
    #[error("the encoding has more than 4194304 variables")]
    TooLarge,
    /// Memory ran out.
    #[error("out of memory")]
    OutOfMemory,
}

impl From<AllocError> for BlastFault {
    ghost from_gives = { λ _ fault. fault ≡ OutOfMemory };

    fn from(_error: AllocError) -> BlastFault {
        BlastFault::OutOfMemory
    }
}
