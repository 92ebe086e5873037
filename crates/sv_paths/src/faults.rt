// The limits on obligations, and why there is no list of them.
ghost use Rattle.std.specs.Prelude.{◌≡◌};
ghost use Rattle.sv_paths.specs.declared.faults.WalkFault.TheVariants.{OutOfMemory};
ghost use Rattle.sv_paths.specs.declared.faults.OblFault.TheVariants as fault;

use std::alloc::{AllocError, AllocFailed};
use sv_flat::SigId;
use thiserror::Error;

/// How many paths a target may have.
pub const MOST_PATHS: usize = 4096;

/// How many nodes may be put into one path.
pub const MOST_NODES: u32 = 65_536;

/// How many obligations a design may have.
pub const MOST_OBLIGATIONS: usize = 65_536;

/// Why a walk through a process ends early.
#[derive(Clone, Copy, Debug, PartialEq, Eq, Error)]
pub enum WalkFault {
    /// There are more paths than a target may have.
    #[error("a target has over 4,096 paths")]
    TooMany,
    /// No memory is left.
    #[error("out of memory")]
    OutOfMemory,
}

impl From<AllocError> for WalkFault {
    ghost from_gives = { λ _ fault. fault ≡ OutOfMemory };

    fn from(_error: AllocError) -> WalkFault {
        WalkFault::OutOfMemory
    }
}

impl<T: Drop> From<AllocFailed<T>> for WalkFault {
    ghost from_gives = { λ _ fault. fault ≡ OutOfMemory };

    fn from(_error: AllocFailed<T>) -> WalkFault {
        WalkFault::OutOfMemory
    }
}

/// The limits on obligations, and why there is no list of them.
#[derive(Clone, Copy, Debug, PartialEq, Eq, Error)]
pub enum OblFault {
    /// The target has over 4,096 paths.
    #[error("signal {} has over 4,096 paths", .0.0)]
    Paths(SigId),
    /// Over 65,536 nodes are put into one path of the target.
    #[error("over 65,536 nodes are put into one path of signal {}", .0.0)]
    Large(SigId),
    /// There are over 65,536 obligations.
    #[error("there are over 65,536 obligations")]
    Many,
    /// No memory is left.
    #[error("out of memory")]
    OutOfMemory,
}

impl From<AllocError> for OblFault {
    ghost from_gives = { λ _ given. given ≡ fault.OutOfMemory };

    fn from(_error: AllocError) -> OblFault {
        OblFault::OutOfMemory
    }
}

impl<T: Drop> From<AllocFailed<T>> for OblFault {
    ghost from_gives = { λ _ given. given ≡ fault.OutOfMemory };

    fn from(_error: AllocFailed<T>) -> OblFault {
        OblFault::OutOfMemory
    }
}
