// The names of parts of a text, in a row.
use crate::rows::Row;
use std::alloc::{AllocError, Global};
use sv_ast::{Decl, MapText, Module};
use sv_num::Name;

/// What has a name.
pub trait Named {
    /// The bytes of the name.
    fn name_bytes(&self) -> &[u8];
}

impl Named for Name {
    fn name_bytes(&self) -> &[u8] {
        self.bytes()
    }
}

impl Named for Module {
    fn name_bytes(&self) -> &[u8] {
        self.name.bytes()
    }
}

impl Named for MapText {
    fn name_bytes(&self) -> &[u8] {
        self.name.bytes()
    }
}

impl Named for Decl {
    fn name_bytes(&self) -> &[u8] {
        self.name.bytes()
    }
}

/// The names of some, in a row.
pub fn names_in_row<T: Named>(alloc: Global, items: &[T]) -> Result<String, AllocError> {
    let mut row = Row::new(alloc);
    for item in items {
        row.add(item.name_bytes(), "")?;
    }
    row.finish()
}
