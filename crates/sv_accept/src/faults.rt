// Why logs are not accepted.
ghost use Rattle.std.specs.Prelude.{◌≡◌};
ghost use Rattle.sv_accept.specs.declared.faults.AcceptFault.TheVariants.{OutOfMemory};

use std::alloc::AllocError;
use sv_proof::LogFault;
use thiserror::Error;

/// Why a log does not show that an obligation is valid.
#[derive(Clone, Copy, Debug, PartialEq, Eq, Error)]
pub enum QueryFault {
    /// The encoding of the obligation has more than 4,194,304 variables.
    #[error("the encoding has more than 4194304 variables")]
    TooLarge,
    /// The log does not refute the encoding; the fault is never want of memory.
    #[error("{0}")]
    Log(LogFault),
    /// Memory ran out.
    #[error("out of memory")]
    OutOfMemory,
}

/// Why logs are not accepted. Obligations are numbered from 1.
#[derive(Clone, Copy, Debug, PartialEq, Eq, Error)]
pub enum AcceptFault {
    /// There are not as many logs as obligations.
    #[error("there are not as many logs as obligations")]
    Count,
    /// The log of this obligation is the first that does not refute the encoding of its own.
    #[error("log {0}: {1}")]
    Log(u32, LogFault),
    /// The encoding of this obligation is the first that has more than 4,194,304 variables.
    #[error("the encoding of obligation {0} has more than 4194304 variables")]
    TooLarge(u32),
    /// Memory ran out.
    #[error("out of memory")]
    OutOfMemory,
}

impl From<AllocError> for AcceptFault {
    ghost from_gives = { λ _ fault. fault ≡ OutOfMemory };

    fn from(_error: AllocError) -> AcceptFault {
        AcceptFault::OutOfMemory
    }
}
