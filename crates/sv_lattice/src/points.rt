// Points, and why some points are no lattice.
ghost use Rattle.std.specs.Prelude.{◌≡◌};
ghost use Rattle.sv_lattice.specs.declared.points.LatticeFault.TheVariants.{OutOfMemory};

use std::alloc::AllocError;
use thiserror::Error;

/// A point of a lattice, by its number from 0.
#[derive(Clone, Copy, Debug, PartialEq, Eq)]
pub struct Point(pub u8);

/// Why points and pairs were not built into a lattice. The faults are asked in this order.
#[derive(Clone, Copy, Debug, PartialEq, Eq, Error)]
pub enum LatticeFault {
    /// There is no point, or there are more than 32.
    #[error("the number of points is not 1 to 32")]
    Size,
    /// The pair with this number, from 0, is the first with a number that is no point.
    #[error("pair {0} has an unknown point")]
    Unknown(u32),
    /// These are the first two different points that flow to each other.
    #[error("points {0} and {1} flow to each other")]
    Circle(u32, u32),
    /// These are the first two points without a least upper point.
    #[error("points {0} and {1} have no least upper point")]
    NoJoin(u32, u32),
    /// These are the first two points without a greatest lower point.
    #[error("points {0} and {1} have no greatest lower point")]
    NoMeet(u32, u32),
    /// Memory ran out.
    #[error("out of memory")]
    OutOfMemory,
}

impl From<AllocError> for LatticeFault {
    ghost from_gives = { λ _ fault. fault ≡ OutOfMemory };

    fn from(_error: AllocError) -> LatticeFault {
        LatticeFault::OutOfMemory
    }
}
