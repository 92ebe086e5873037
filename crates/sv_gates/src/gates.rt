// Gates and their clauses, one after another.
ghost use Rattle.std.specs.Prelude.{◌≡◌, ◌↔◌, ◌≤◌, ◌<◌, All, IfOk, OnOk, OnErr, IsErrOf, length};
ghost use Rattle.sv_gates.specs.Extending.{Begins, cut_back};
ghost use Rattle.sv_gates.specs.Formulas.{IsLiteral, IsWithin, IsProper, most_variables, meets};
ghost use Rattle.sv_gates.specs.Formulas.{value_of};
ghost use Rattle.sv_gates.specs.Gates.{start, fresh_variable, and_gate, or_gate, xor_gate};
ghost use Rattle.sv_gates.specs.Gates.{mux_gate, with_unit};
ghost use Rattle.sv_gates.specs.Gates.{with_raw, with_raws, and_clauses, xor_clauses, mux_clauses};
ghost use Rattle.sv_gates.specs.declared.gates.GateFault.TheVariants.{OutOfMemory};

use crate::literal::Literal;
use crate::normal::{clash, normal_form};
use crate::values::is_met;
use std::alloc::{AllocError, Global};
use std::marker::Model;
use sv_clause::Clause;
use thiserror::Error;

/// The most variables that gates may have.
pub const MOST_VARIABLES: u32 = 4_194_304;

/// Why a variable or a gate cannot be added.
#[derive(Clone, Copy, Debug, PartialEq, Eq, Error)]
pub enum GateFault {
    /// The most variables are there.
    #[error("there are 4194304 variables")]
    Full,
    /// Memory ran out.
    #[error("out of memory")]
    OutOfMemory,
}

impl From<AllocError> for GateFault {
    ghost from_gives = { λ _ fault. fault ≡ OutOfMemory };

    fn from(_error: AllocError) -> GateFault {
        GateFault::OutOfMemory
    }
}

/// A point to which gates can be taken back: how many variables and clauses there were.
#[derive(Clone, Copy, Debug)]
pub struct Mark {
    /// The variables.
    pub variables: u32,
    /// The clauses.
    pub clauses: usize,
}

/// Variables from 1 on, and clauses over them; variable 1 is true. A contract sees them as a
/// formula in conjunctive normal form.
#[derive(Drop)]
pub struct Gates {
    alloc: Global,
    variables: u32,
    clauses: Vec<Clause>,
}

impl Model for Gates {
    ghost use Rattle.sv_gates.specs.Formulas.{Formula, IsProper};

    ghost Value = { Formula };

    ghost view = { λ g. record { variables = g.variables; clauses = g.clauses.items } };

    ghost invariant = { λ g. IsProper (record {
      variables = g.variables;
      clauses = g.clauses.items;
    }) };
}

impl Gates {
    /// Variable 1 and its clause.
    pub fn new(alloc: Global) -> Result<Gates, AllocError>
        ensures { IfOk result (λ gates. gates ≡ start) }
    {
        let clause = normal_form(alloc, &[Literal::of_variable(1)])?;
        let mut clauses = Vec::new(alloc);
        clauses.push(clause)?;
        Ok(Gates {
            alloc,
            variables: 1,
            clauses,
        })
    }

    /// Makes room for as many more clauses at once. Without it the list grows as they come.
    pub fn reserve(&mut self, clauses: usize) -> Result<(), AllocError>
        ensures { self.new ≡ self.old }
    {
        self.clauses.reserve_exact(clauses)
    }

    /// How many variables there are.
    pub fn variables(&self) -> u32
        ensures value { result ≡ self.now.variables }
        ensures some { 0 < result }
        ensures few { result ≤ most_variables }
    {
        self.variables
    }

    /// The point that is reached.
    pub fn mark(&self) -> Mark
        ensures variables { result.variables ≡ self.now.variables }
        ensures clauses { result.clauses ≡ length self.now.clauses }
        ensures proper { IsProper self.now }
    {
        Mark {
            variables: self.variables,
            clauses: self.clauses.len(),
        }
    }

    /// Takes away all variables and clauses that came after a mark.
    pub fn back_to(&mut self, mark: &Mark)
        requires { IsProper (cut_back mark.now.variables mark.now.clauses self.old) }
        ensures { self.new ≡ cut_back mark.now.variables mark.now.clauses self.old }
    {
        self.variables = mark.variables;
        self.clauses.truncate(mark.clauses);
    }

    /// One more variable, which no clause names yet.
    pub fn fresh_literal(&mut self) -> Result<Literal, GateFault>
        ensures made { IfOk result (λ g. fresh_variable self.old ≡ (self.new, g)) }
        ensures within { IfOk result (IsLiteral self.new.variables) }
        ensures begins { Begins self.old self.new }
        ensures full { IsErrOf result GateFault.Full ↔ (self.old.variables ≡ most_variables) }
        ensures unchanged { OnErr result (self.new ≡ self.old) }
    {
        if self.variables >= MOST_VARIABLES {
            return Err(GateFault::Full);
        }
        self.variables += 1;
        Ok(Literal::of_variable(self.variables))
    }

    // Adds a clause in normal form, or leaves it out where a variable stands with both signs.
    fn add(&mut self, raw: &[Literal]) -> Result<(), AllocError>
        requires { All (IsLiteral self.old.variables) raw.now }
        ensures ok { OnOk result (self.new ≡ with_raw raw.now self.old) }
        ensures begins { Begins self.old self.new }
        ensures unchanged { OnErr result (self.new ≡ self.old) }
    {
        if clash(raw) {
            return Ok(());
        }
        let clause = normal_form(self.alloc, raw)?;
        self.clauses.push(clause)?;
        Ok(())
    }

    // Adds the clauses of an AND.
    #[tactic(auto, using(crate::proofs::ExtendingLaws::begins_trans))]
    fn add_and(&mut self, g: Literal, a: Literal, b: Literal) -> Result<(), AllocError>
        requires g { IsLiteral self.old.variables g }
        requires a { IsLiteral self.old.variables a }
        requires b { IsLiteral self.old.variables b }
        ensures ok { OnOk result (self.new ≡ with_raws (and_clauses a b g) self.old) }
        ensures begins { Begins self.old self.new }
    {
        self.add(&[g.negated(), a])?;
        self.add(&[g.negated(), b])?;
        self.add(&[g, a.negated(), b.negated()])
    }

    /// A gate that is `a` and `b`.
    pub fn and_gate(&mut self, a: Literal, b: Literal) -> Result<Literal, GateFault>
        requires a { IsLiteral self.old.variables a }
        requires b { IsLiteral self.old.variables b }
        ensures made { IfOk result (λ g. and_gate a b self.old ≡ (self.new, g)) }
        ensures within { IfOk result (IsLiteral self.new.variables) }
        ensures begins { Begins self.old self.new }
        ensures full { IsErrOf result GateFault.Full ↔ (self.old.variables ≡ most_variables) }
        ensures unchanged { OnErr result (self.new ≡ self.old) }
    {
        let mark = self.mark();
        let gate = self.fresh_literal()?;
        match self.add_and(gate, a, b) {
            Ok(()) => Ok(gate),
            Err(fault) => {
                self.back_to(&mark);
                Err(fault.into())
            }
        }
    }

    /// A gate that is `a` or `b`: the negation of one that is neither.
    pub fn or_gate(&mut self, a: Literal, b: Literal) -> Result<Literal, GateFault>
        requires a { IsLiteral self.old.variables a }
        requires b { IsLiteral self.old.variables b }
        ensures made { IfOk result (λ g. or_gate a b self.old ≡ (self.new, g)) }
        ensures within { IfOk result (IsLiteral self.new.variables) }
        ensures begins { Begins self.old self.new }
        ensures full { IsErrOf result GateFault.Full ↔ (self.old.variables ≡ most_variables) }
        ensures unchanged { OnErr result (self.new ≡ self.old) }
    {
        Ok(self.and_gate(a.negated(), b.negated())?.negated())
    }

    // Adds the clauses of an XOR.
    #[tactic(auto, using(crate::proofs::ExtendingLaws::begins_trans))]
    fn add_xor(&mut self, g: Literal, a: Literal, b: Literal) -> Result<(), AllocError>
        requires g { IsLiteral self.old.variables g }
        requires a { IsLiteral self.old.variables a }
        requires b { IsLiteral self.old.variables b }
        ensures ok { OnOk result (self.new ≡ with_raws (xor_clauses a b g) self.old) }
        ensures begins { Begins self.old self.new }
    {
        self.add(&[g.negated(), a, b])?;
        self.add(&[g.negated(), a.negated(), b.negated()])?;
        self.add(&[g, a.negated(), b])?;
        self.add(&[g, a, b.negated()])
    }

    /// A gate that is whether `a` and `b` differ.
    pub fn xor_gate(&mut self, a: Literal, b: Literal) -> Result<Literal, GateFault>
        requires a { IsLiteral self.old.variables a }
        requires b { IsLiteral self.old.variables b }
        ensures made { IfOk result (λ g. xor_gate a b self.old ≡ (self.new, g)) }
        ensures within { IfOk result (IsLiteral self.new.variables) }
        ensures begins { Begins self.old self.new }
        ensures full { IsErrOf result GateFault.Full ↔ (self.old.variables ≡ most_variables) }
        ensures unchanged { OnErr result (self.new ≡ self.old) }
    {
        let mark = self.mark();
        let gate = self.fresh_literal()?;
        match self.add_xor(gate, a, b) {
            Ok(()) => Ok(gate),
            Err(fault) => {
                self.back_to(&mark);
                Err(fault.into())
            }
        }
    }

    // Adds the clauses of a multiplexer.
    #[tactic(auto, using(crate::proofs::ExtendingLaws::begins_trans))]
    fn add_mux(&mut self, g: Literal, c: Literal, a: Literal, b: Literal) -> Result<(), AllocError>
        requires g { IsLiteral self.old.variables g }
        requires c { IsLiteral self.old.variables c }
        requires a { IsLiteral self.old.variables a }
        requires b { IsLiteral self.old.variables b }
        ensures ok { OnOk result (self.new ≡ with_raws (mux_clauses c a b g) self.old) }
        ensures begins { Begins self.old self.new }
    {
        self.add(&[g.negated(), c.negated(), a])?;
        self.add(&[g.negated(), c, b])?;
        self.add(&[g, c.negated(), a.negated()])?;
        self.add(&[g, c, b.negated()])
    }

    /// The multiplexer: a gate that is `a` where `c` holds, and `b` elsewhere.
    pub fn mux_gate(&mut self, c: Literal, a: Literal, b: Literal) -> Result<Literal, GateFault>
        requires c { IsLiteral self.old.variables c }
        requires a { IsLiteral self.old.variables a }
        requires b { IsLiteral self.old.variables b }
        ensures made { IfOk result (λ g. mux_gate c a b self.old ≡ (self.new, g)) }
        ensures within { IfOk result (IsLiteral self.new.variables) }
        ensures begins { Begins self.old self.new }
        ensures full { IsErrOf result GateFault.Full ↔ (self.old.variables ≡ most_variables) }
        ensures unchanged { OnErr result (self.new ≡ self.old) }
    {
        let mark = self.mark();
        let gate = self.fresh_literal()?;
        match self.add_mux(gate, c, a, b) {
            Ok(()) => Ok(gate),
            Err(fault) => {
                self.back_to(&mark);
                Err(fault.into())
            }
        }
    }

    /// Adds the clause that is a literal alone.
    pub fn unit_clause(&mut self, a: Literal) -> Result<(), AllocError>
        requires { IsLiteral self.old.variables a }
        ensures ok { OnOk result (self.new ≡ with_unit a self.old) }
        ensures begins { Begins self.old self.new }
        ensures unchanged { OnErr result (self.new ≡ self.old) }
    {
        self.add(&[a])
    }

    /// The clauses in the order in which they were added.
    pub fn clauses(&self) -> &[Clause]
        ensures value { result.now ≡ self.now.clauses }
        ensures proper { IsProper self.now }
    {
        self.clauses.as_slice()
    }

    /// How many variables there are, and the clauses in the order in which they were added. Takes
    /// no memory.
    pub fn finish(self) -> (u32, Vec<Clause>)
        ensures variables { result.0 ≡ self.variables }
        ensures clauses { result.1.items ≡ self.clauses }
        ensures some { 0 < result.0 }
        ensures few { result.0 ≤ most_variables }
        ensures within { All (IsWithin result.0) result.1.items }
    {
        (self.variables, self.clauses)
    }

    /// Whether values of the variables, the first for variable 1, make every clause true. There is
    /// to be one for each variable; one that is missing counts as false. Takes no memory.
    pub fn meets(&self, values: &[bool]) -> bool
        ensures { result ≡ meets (value_of values.now) self.now.clauses }
    {
        self.clauses.iter().all(|clause| is_met(values, clause))
    }
}
