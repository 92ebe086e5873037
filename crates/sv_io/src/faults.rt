// Why a call of the outside hands out or takes nothing.
use thiserror::Error;

/// A call failed, and the object's count of faults rose.
#[derive(Clone, Copy, Debug, PartialEq, Eq, Error)]
#[error("the input failed")]
pub struct Failed;

/// Why a cabinet hands out no bytes.
#[derive(Debug, PartialEq, Eq, Drop, Error)]
pub enum FetchFault {
    /// The fetch failed, and the name's count of failed fetches rose.
    #[error("the file could not be read")]
    Failed,
    /// There are more bytes than were asked for: the first `limit + 1` of them.
    #[error("the file has more bytes than are allowed")]
    Long(Vec<u8>),
    /// No memory was left.
    #[error("out of memory")]
    OutOfMemory,
}

/// Why a cabinet did not take the bytes.
#[derive(Clone, Copy, Debug, PartialEq, Eq, Error)]
pub enum StoreFault {
    /// The store failed, and the name's count of failed stores rose.
    #[error("the file could not be written")]
    Failed,
    /// No memory was left.
    #[error("out of memory")]
    OutOfMemory,
}

/// Why a sink did not take the bytes.
#[derive(Clone, Copy, Debug, PartialEq, Eq, Error)]
pub enum PutFault {
    /// The put failed, and the sink's count of faults rose.
    #[error("the output could not be written")]
    Failed,
    /// No memory was left.
    #[error("out of memory")]
    OutOfMemory,
}
