// What a hint is given of.
use crate::origins::Origin;
use std::alloc::{AllocError, Global};
use sv_num::{Name, Place};

/// A broken rule or an exceeded limit: what was read, the place that is told, if any, and the names
/// that are told.
#[derive(Clone, Copy)]
pub struct Case<'a> {
    pub origin: Origin<'a>,
    pub place: Place,
    pub names: &'a [Name],
}

impl<'a> Case<'a> {
    /// The first of the names; empty where there is none.
    pub fn name(&self) -> &'a [u8] {
        match self.names.first() {
            Some(name) => name.bytes(),
            None => b"",
        }
    }

    /// The second of the names; empty where there is none.
    pub(crate) fn other(&self) -> &'a [u8] {
        match self.names.get(1) {
            Some(name) => name.bytes(),
            None => b"",
        }
    }
}

/// A text of its own.
pub fn owned(alloc: Global, words: &str) -> Result<String, AllocError> {
    format!(in alloc; "{words}")
}
