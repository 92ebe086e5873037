// The trail: the literals that are true, in the order in which they became so, each with its
// reason.
ghost use Rattle.std.specs.Prelude.{◌≡◌, ◌+◌, ◌-◌, ◌*◌, ◌<◌, ◌≤◌, ◌^◌, ℤ, pos, List, [], ◌∷◌, ◌++◌};
ghost use Rattle.std.specs.Prelude.{length, take, drop, All, IsTrue, IfOk, OnOk, slice_index_or};
ghost use Rattle.std.specs.Prelude.{slice_set};
ghost use Rattle.std.specs.Bool.{IsFalse};
ghost use Rattle.sv_clause.specs.Literals.{stands};
ghost use Rattle.sv_clause.specs.Units.{IsOpen};
ghost use Rattle.sv_solve.specs.Codes.{IsOf};
ghost use Rattle.sv_solve.specs.Lists.{EachOpen, IsAssigned};
ghost use Rattle.sv_solve.specs.Search.{IsConsistent};

use crate::lists::LiteralList;
use crate::literal::Literal;
use std::alloc::{AllocError, Global};
use std::marker::Model;

/// Trail: the true literals in the order in which they were assigned. A literal that a clause made
/// true has that clause's number, from 1, beside it as its reason.
#[derive(Drop)]
pub struct AssignmentTrail {
    assigned: LiteralList,
    reasons: Vec<u64>,
}

impl Model for AssignmentTrail {
    ghost use Rattle.sv_solve.specs.Lists.{Assigned, IsTrail};

    ghost Value = { Assigned };

    ghost view = { λ t. record {
      literals = t.assigned.literals;
      reasons = t.reasons.items;
      variables = t.assigned.variables;
    } };

    ghost invariant = { λ t. IsTrail t.assigned.literals t.reasons.items t.assigned.variables };
}

impl AssignmentTrail {
    /// The empty trail.
    pub fn new(alloc: Global, variables: u32) -> Result<AssignmentTrail, AllocError>
        requires { variables < 2 ^ 31 }
        ensures literals { IfOk result (λ trail. trail.literals ≡ []) }
        ensures variables { IfOk result (λ trail. trail.variables ≡ variables) }
    {
        let assigned = LiteralList::new(alloc, variables)?;
        let reasons = vec![in alloc; 0; 2 * variables as usize + 2]?;
        Ok(AssignmentTrail { assigned, reasons })
    }

    /// How many literals are true.
    pub fn len(&self) -> usize
        ensures value { result ≡ length self.now.literals }
        ensures room { length self.now.literals ≤ 2 * self.now.variables + 2 }
        ensures each_open { EachOpen self.now.literals }
        ensures consistent { IsConsistent self.now.literals }
        ensures of { (literal : ℤ) → IsTrue (stands literal self.now.literals) →
            IsOf self.now.variables literal }
    {
        self.assigned.len()
    }

    /// The literal at a place.
    pub fn at(&self, place: usize) -> Literal
        requires { place < length self.now.literals }
        ensures value { result ≡ slice_index_or self.now.literals place (pos 0) }
        ensures of { IsOf self.now.variables result }
    {
        self.assigned.at(place)
    }

    /// The literals from one place to another.
    pub fn between(&self, from: usize, to: usize) -> &[Literal]
        requires from { from ≤ to }
        requires to { to ≤ length self.now.literals }
        ensures value { result.now ≡ take (to - from) (drop from self.now.literals) }
        ensures of { All (IsOf self.now.variables) result.now }
    {
        self.assigned.between(from, to)
    }

    /// Reason: the number of the clause that made the literal at a place true. A decision has 0.
    pub fn reason(&self, place: usize) -> u64
        requires { place < length self.now.literals }
        ensures { result ≡ slice_index_or self.now.reasons place 0 }
    {
        // brings that there are no more literals than room for reasons
        let _room = self.assigned.len();
        self.reasons[place]
    }

    /// Whether a literal is true.
    pub fn contains(&self, literal: &Literal) -> bool
        requires { IsOf self.now.variables literal.now }
        ensures { result ≡ stands literal.now self.now.literals }
    {
        self.assigned.contains(literal)
    }

    /// The place of a literal that is true.
    pub fn place_of(&self, literal: &Literal) -> usize
        requires of { IsOf self.now.variables literal.now }
        requires here { IsTrue (stands literal.now self.now.literals) }
        ensures within { result < length self.now.literals }
        ensures value { slice_index_or self.now.literals result (pos 0) ≡ literal.now }
    {
        self.assigned.place_of(literal)
    }

    /// Whether neither a literal nor its negation is true.
    pub fn is_open(&self, literal: &Literal) -> bool
        requires { IsOf self.now.variables literal.now }
        ensures open { IsTrue result → IsOpen self.now.literals literal.now }
        ensures assigned { IsFalse result → IsAssigned self.now.literals literal.now }
    {
        !self.contains(literal) && !self.contains(&literal.negated())
    }

    /// The number of variables.
    pub fn variables(&self) -> u32
        ensures { result ≡ self.now.variables }
    {
        self.assigned.variables()
    }

    /// Makes an open literal true.
    pub fn push(&mut self, literal: &Literal, reason: u64) -> Result<(), AllocError>
        requires of { IsOf self.old.variables literal.now }
        requires new { IsOpen self.old.literals literal.now }
        ensures literals { OnOk result (self.new.literals ≡ self.old.literals ++ literal.now ∷ []) }
        ensures reasons { OnOk result (self.new.reasons ≡
            slice_set self.old.reasons (length self.old.literals) reason) }
        ensures variables { self.new.variables ≡ self.old.variables }
        ensures room { OnOk result (length self.old.literals < length self.new.reasons) }
    {
        let place = self.assigned.len();
        self.assigned.push(literal)?;
        // brings that there are still no more literals than room for reasons
        let _room = self.assigned.len();
        self.reasons[place] = reason;
        Ok(())
    }

    /// Takes the literals from a place on back.
    pub fn truncate(&mut self, len: usize)
        ensures literals { self.new.literals ≡ take len self.old.literals }
        ensures reasons { self.new.reasons ≡ self.old.reasons }
        ensures variables { self.new.variables ≡ self.old.variables }
    {
        self.assigned.truncate(len);
    }
}
