// Clauses as the search keeps them.
ghost use Rattle.std.specs.Prelude.{◌≡◌, IfOk};
ghost use Rattle.sv_clause.specs.Literals.{IsClause};

use crate::literal::Literal;
use std::alloc::{AllocError, Global};
use std::marker::Model;
use sv_clause::Clause;

/// A clause that the search keeps.
#[derive(Drop)]
pub struct KeptClause {
    literals: Vec<Literal>,
}

impl Model for KeptClause {
    ghost use Rattle.std.specs.Prelude.{List, ℤ};

    ghost Value = { List ℤ };

    ghost view = { λ c. c.literals.items };
}

impl KeptClause {
    /// The same clause.
    pub fn new(alloc: Global, clause: &Clause) -> Result<KeptClause, AllocError>
        ensures value { IfOk result (λ kept. kept ≡ clause.now) }
        ensures normal { IfOk result IsClause }
    {
        let mut literals: Vec<Literal> = Vec::with_capacity(alloc, clause.literals().len())?;
        'copy: for signed in clause.literals() {
            literals.push(Literal::from_signed(signed))?;
        }
        Ok(KeptClause { literals })
    }

    /// Its literals.
    pub fn literals(&self) -> &[Literal]
        ensures { result.now ≡ self.now }
    {
        self.literals.as_slice()
    }
}
