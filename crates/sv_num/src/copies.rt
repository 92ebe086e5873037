// Second values that are equal to a first.
ghost use Rattle.std.specs.Prelude.{◌≡◌, ℕ, List, Option, map, IfOk};
ghost use Rattle.std.specs.Option.{option_map};

use crate::faults::Place;
use crate::names::Name;
use std::alloc::{AllocError, Global};

/// What is copied part by part, into new memory where a part owns some. `plain` is what a contract
/// compares of two values: it leaves out no field.
pub trait Copied: Sized + Drop {
    ghost Plain: { Type 0 };

    ghost plain: { Self → Plain };

    /// A second value with the same plain form. It fails where memory runs out.
    fn copy(&self, alloc: Global) -> Result<Self, AllocError>
        ensures { IfOk result (λ copy. plain copy ≡ plain self.now) };
}

impl Copied for Name {
    ghost Plain = { List ℕ };

    ghost plain = { λ name. name };

    fn copy(&self, alloc: Global) -> Result<Name, AllocError> {
        Name::copy(self, alloc)
    }
}

impl Copied for Place {
    ghost use Rattle.sv_num.specs.declared.faults.Place.{Place};

    ghost Plain = { Place };

    ghost plain = { λ place. place };

    fn copy(&self, _alloc: Global) -> Result<Place, AllocError> {
        Ok(*self)
    }
}

impl<A: Copied, B: Copied> Copied for (A, B) {
    ghost Plain = { A.Plain × B.Plain };

    ghost plain = { λ pair. (A.plain pair.0, B.plain pair.1) };

    fn copy(&self, alloc: Global) -> Result<(A, B), AllocError> {
        Ok((self.0.copy(alloc)?, self.1.copy(alloc)?))
    }
}

impl<A: Copied, B: Copied, C: Copied> Copied for (A, B, C) {
    ghost Plain = { A.Plain × B.Plain × C.Plain };

    ghost plain = { λ parts. (A.plain parts.0, B.plain parts.1, C.plain parts.2) };

    fn copy(&self, alloc: Global) -> Result<(A, B, C), AllocError> {
        Ok((
            self.0.copy(alloc)?,
            self.1.copy(alloc)?,
            self.2.copy(alloc)?,
        ))
    }
}

impl<A: Copied, B: Copied, C: Copied, D: Copied> Copied for (A, B, C, D) {
    ghost Plain = { A.Plain × B.Plain × C.Plain × D.Plain };

    ghost plain = { λ parts.
        (A.plain parts.0, B.plain parts.1, C.plain parts.2, D.plain parts.3) };

    fn copy(&self, alloc: Global) -> Result<(A, B, C, D), AllocError> {
        let first = self.0.copy(alloc)?;
        let second = self.1.copy(alloc)?;
        Ok((first, second, self.2.copy(alloc)?, self.3.copy(alloc)?))
    }
}

impl<T: Copied> Copied for Option<T> {
    ghost Plain = { Option T.Plain };

    ghost plain = { option_map T.plain };

    fn copy(&self, alloc: Global) -> Result<Option<T>, AllocError> {
        match self {
            Some(item) => Ok(Some(item.copy(alloc)?)),
            None => Ok(None),
        }
    }
}

impl<T: Copied> Copied for Vec<T> {
    ghost Plain = { List T.Plain };

    ghost plain = { λ items. map T.plain items.items };

    fn copy(&self, alloc: Global) -> Result<Vec<T>, AllocError> {
        let mut copies = Vec::with_capacity(alloc, self.len())?;
        for item in self {
            copies.push(item.copy(alloc)?)?;
        }
        Ok(copies)
    }
}
