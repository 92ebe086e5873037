// Lists of literals that tell at once whether a literal stands in them, and where.
ghost use Rattle.std.specs.Prelude.{◌≡◌, ◌+◌, ◌-◌, ◌*◌, ◌<◌, ◌≤◌, ◌^◌, ℤ, pos, List, [], ◌∷◌, ◌++◌};
ghost use Rattle.std.specs.Prelude.{length, take, drop, All, IsTrue, IfOk, OnOk, OnErr};
ghost use Rattle.std.specs.Prelude.{slice_index_or};
ghost use Rattle.std.specs.Bool.{IsFalse};
ghost use Rattle.sv_clause.specs.Literals.{stands};
ghost use Rattle.sv_solve.specs.Codes.{IsOf};

use crate::literal::Literal;
use std::alloc::{AllocError, Global};
use std::marker::Model;

/// A list of different literals, with a mark and a place for each that stands in it.
#[derive(Drop)]
pub struct LiteralList {
    literals: Vec<Literal>,
    marks: Vec<bool>,
    places: Vec<usize>,
    variables: u32,
}

impl Model for LiteralList {
    ghost use Rattle.sv_solve.specs.Lists.{Listed, IsMarked};

    ghost Value = { Listed };

    ghost view = { λ l. record { literals = l.literals.items; variables = l.variables } };

    ghost invariant = { λ l. IsMarked l.literals.items l.marks.items l.places.items l.variables };
}

impl LiteralList {
    /// The empty list.
    pub fn new(alloc: Global, variables: u32) -> Result<LiteralList, AllocError>
        requires { variables < 2 ^ 31 }
        ensures literals { IfOk result (λ list. list.literals ≡ []) }
        ensures variables { IfOk result (λ list. list.variables ≡ variables) }
    {
        let marks = vec![in alloc; false; 2 * variables as usize + 2]?;
        let places = vec![in alloc; 0; 2 * variables as usize + 2]?;
        Ok(LiteralList {
            literals: Vec::new(alloc),
            marks,
            places,
            variables,
        })
    }

    /// How many literals stand in it.
    pub fn len(&self) -> usize
        ensures value { result ≡ length self.now.literals }
        ensures room { length self.now.literals ≤ 2 * self.now.variables + 2 }
        ensures of { (literal : ℤ) → IsTrue (stands literal self.now.literals) →
            IsOf self.now.variables literal }
    {
        // brings the bound on how many marks there are
        let _room = self.marks.len();
        self.literals.len()
    }

    /// The number of variables.
    pub fn variables(&self) -> u32
        ensures { result ≡ self.now.variables }
    {
        self.variables
    }

    /// The literal at a place.
    pub fn at(&self, place: usize) -> Literal
        requires { place < length self.now.literals }
        ensures value { result ≡ slice_index_or self.now.literals place (pos 0) }
        ensures of { IsOf self.now.variables result }
        ensures first { IsFalse (stands result (take place self.now.literals)) }
    {
        self.literals[place]
    }

    /// The literals from one place to another.
    pub fn between(&self, from: usize, to: usize) -> &[Literal]
        requires from { from ≤ to }
        requires to { to ≤ length self.now.literals }
        ensures value { result.now ≡ take (to - from) (drop from self.now.literals) }
        ensures of { All (IsOf self.now.variables) result.now }
    {
        &self.literals[from..to]
    }

    /// Whether a literal stands in it.
    pub fn contains(&self, literal: &Literal) -> bool
        requires { IsOf self.now.variables literal.now }
        ensures { result ≡ stands literal.now self.now.literals }
    {
        self.marks[literal.index()]
    }

    /// The place of a literal that stands in it.
    pub fn place_of(&self, literal: &Literal) -> usize
        requires of { IsOf self.now.variables literal.now }
        requires here { IsTrue (stands literal.now self.now.literals) }
        ensures within { result < length self.now.literals }
        ensures value { slice_index_or self.now.literals result (pos 0) ≡ literal.now }
    {
        self.places[literal.index()]
    }

    /// Puts a literal at its end.
    pub fn push(&mut self, literal: &Literal) -> Result<(), AllocError>
        requires of { IsOf self.old.variables literal.now }
        requires new { IsFalse (stands literal.now self.old.literals) }
        ensures literals { OnOk result (self.new.literals ≡ self.old.literals ++ literal.now ∷ []) }
        ensures unchanged { OnErr result (self.new.literals ≡ self.old.literals) }
        ensures variables { self.new.variables ≡ self.old.variables }
    {
        let place = self.literals.len();
        let index = literal.index();
        self.literals.push(*literal)?;
        self.marks[index] = true;
        self.places[index] = place;
        Ok(())
    }

    // Takes the last literal away.
    fn pop(&mut self)
        requires { 0 < length self.old.literals }
        ensures literals { self.new.literals ≡
            take (length self.old.literals - 1) self.old.literals }
        ensures variables { self.new.variables ≡ self.old.variables }
    {
        if let Some(literal) = self.literals.pop() {
            self.marks[literal.index()] = false;
        }
    }

    /// Takes the literals from a place on away.
    pub fn truncate(&mut self, len: usize)
        ensures literals { self.new.literals ≡ take len self.old.literals }
        ensures variables { self.new.variables ≡ self.old.variables }
    {
        'shrink: while self.len() > len {
            self.pop();
        }
    }
}
