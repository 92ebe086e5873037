// Why two stimuli are not compared.
ghost use Rattle.std.specs.Prelude.{◌≡◌};
ghost use Rattle.sv_compare.specs.declared.faults.CompareFault.TheVariants.{OutOfMemory};

use std::alloc::AllocError;
use sv_texts::StimKind;
use thiserror::Error;

/// Why two stimuli are not compared. Lines are numbered from 1.
#[derive(Clone, Copy, Debug, PartialEq, Eq, Error)]
pub enum CompareFault {
    /// This line of the first stimulus is its first wrong one.
    #[error("line {} of the first stimulus is wrong", .0)]
    First(u64, StimKind),
    /// The first stimulus is right, and this line of the second one is its first wrong one.
    #[error("line {} of the second stimulus is wrong", .0)]
    Second(u64, StimKind),
    /// Memory ran out.
    #[error("out of memory")]
    OutOfMemory,
}

impl From<AllocError> for CompareFault {
    ghost from_gives = { λ _ fault. fault ≡ OutOfMemory };

    fn from(_error: AllocError) -> CompareFault {
        CompareFault::OutOfMemory
    }
}
