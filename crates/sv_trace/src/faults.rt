// Why a stimulus is refused.
ghost use Rattle.std.specs.Prelude.{◌≡◌};
ghost use Rattle.sv_trace.specs.declared.faults.StimFault.TheVariants.{OutOfMemory};

use std::alloc::{AllocError, AllocFailed};
use sv_texts::StimKind;
use thiserror::Error;

/// Why a stimulus is refused.
#[derive(Clone, Copy, Debug, PartialEq, Eq, Error)]
pub enum StimFault {
    /// The line with this number, from 1, is the first wrong one.
    #[error("line {} of the stimulus is wrong", .0)]
    Line(u64, StimKind),
    /// Memory ran out.
    #[error("out of memory")]
    OutOfMemory,
}

impl From<AllocError> for StimFault {
    ghost from_gives = { λ _ fault. fault ≡ OutOfMemory };

    fn from(_error: AllocError) -> StimFault {
        StimFault::OutOfMemory
    }
}

impl<T: Drop> From<AllocFailed<T>> for StimFault {
    ghost from_gives = { λ _ fault. fault ≡ OutOfMemory };

    fn from(_error: AllocFailed<T>) -> StimFault {
        StimFault::OutOfMemory
    }
}
