// Why there is no sample.
use thiserror::Error;

/// Why there is no sample.
#[derive(Clone, Copy, Debug, PartialEq, Eq, Error)]
pub enum GenFault {
    /// The number of lanes is not 1 to 200.
    #[error("a sample has 1 to 200 lanes")]
    Range,
    /// Memory ran out.
    #[error("out of memory")]
    OutOfMemory,
}
