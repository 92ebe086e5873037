// How a simulation ends, and why it stops before.
ghost use Rattle.std.specs.Prelude.{◌≡◌};
ghost use Rattle.sv_sim_run.specs.declared.endings.SimFault.TheVariants.{Read, OutOfMemory};

use std::alloc::{AllocError, AllocFailed};
use sv_io::{Failed, PutFault};
use sv_texts::StimKind;
use thiserror::Error;

/// How a simulation ends.
#[derive(Clone, Copy, Debug, PartialEq, Eq)]
pub enum Ending {
    /// The whole stimulus was simulated.
    Done,
    /// No point of the lattice has the name of the level (707).
    NoLevel,
    /// The line with this number, from 1, is the first wrong one.
    WrongLine(u64, StimKind),
    /// The stimulus has more than 1,073,741,824 bytes (704).
    TooLarge,
}

/// Why a simulation stops before its end.
#[derive(Clone, Copy, Debug, PartialEq, Eq, Error)]
pub enum SimFault {
    /// A take failed, and the source's count of faults rose.
    #[error("the input failed")]
    Read,
    /// A put failed, and the sink's count of faults rose.
    #[error("the output could not be written")]
    Write,
    /// Memory ran out.
    #[error("out of memory")]
    OutOfMemory,
}

impl From<Failed> for SimFault {
    ghost from_gives = { λ _ fault. fault ≡ Read };

    fn from(_error: Failed) -> SimFault {
        SimFault::Read
    }
}

impl From<PutFault> for SimFault {
    ghost use Rattle.sv_sim_run.specs.Faults.{fault_of_put};

    ghost from_gives = { λ put fault. fault ≡ fault_of_put put };

    fn from(error: PutFault) -> SimFault {
        match error {
            PutFault::Failed => SimFault::Write,
            PutFault::OutOfMemory => SimFault::OutOfMemory,
        }
    }
}

impl From<AllocError> for SimFault {
    ghost from_gives = { λ _ fault. fault ≡ OutOfMemory };

    fn from(_error: AllocError) -> SimFault {
        SimFault::OutOfMemory
    }
}

impl<T: Drop> From<AllocFailed<T>> for SimFault {
    ghost from_gives = { λ _ fault. fault ≡ OutOfMemory };

    fn from(_error: AllocFailed<T>) -> SimFault {
        SimFault::OutOfMemory
    }
}
