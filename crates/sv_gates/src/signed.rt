// Gates over signed numbers, as clauses have them.
ghost use Rattle.std.specs.Prelude.{◌≡◌, ◌↔◌, ◌≤◌, IfOk, OnOk, OnErr, IsErrOf};
ghost use Rattle.sv_gates.specs.Extending.{Begins};
ghost use Rattle.sv_gates.specs.Formulas.{IsLiteral, most_variables};
ghost use Rattle.sv_gates.specs.Gates.{fresh_variable, and_gate, xor_gate, mux_gate, with_unit};

use crate::gates::{GateFault, Gates};
use crate::literal::Literal;
use std::alloc::AllocError;

impl Gates {
    /// One more variable, which no clause names yet.
    pub fn fresh(&mut self) -> Result<i32, GateFault>
        ensures made { IfOk result (λ g. fresh_variable self.old ≡ (self.new, g)) }
        ensures within { IfOk result (IsLiteral self.new.variables) }
        ensures begins { Begins self.old self.new }
        ensures full { IsErrOf result GateFault.Full ↔ (self.old.variables ≡ most_variables) }
        ensures unchanged { OnErr result (self.new ≡ self.old) }
    {
        Ok(self.fresh_literal()?.signed())
    }

    /// A gate that is `a` and `b`.
    pub fn and(&mut self, a: i32, b: i32) -> Result<i32, GateFault>
        requires a { IsLiteral self.old.variables a }
        requires b { IsLiteral self.old.variables b }
        ensures made { IfOk result (λ g. and_gate a b self.old ≡ (self.new, g)) }
        ensures within { IfOk result (IsLiteral self.new.variables) }
        ensures begins { Begins self.old self.new }
        ensures full { IsErrOf result GateFault.Full ↔ (self.old.variables ≡ most_variables) }
        ensures unchanged { OnErr result (self.new ≡ self.old) }
    {
        let a = self.literal(a);
        let b = self.literal(b);
        Ok(self.and_gate(a, b)?.signed())
    }

    /// A gate that is whether `a` and `b` differ.
    pub fn xor(&mut self, a: i32, b: i32) -> Result<i32, GateFault>
        requires a { IsLiteral self.old.variables a }
        requires b { IsLiteral self.old.variables b }
        ensures made { IfOk result (λ g. xor_gate a b self.old ≡ (self.new, g)) }
        ensures within { IfOk result (IsLiteral self.new.variables) }
        ensures begins { Begins self.old self.new }
        ensures full { IsErrOf result GateFault.Full ↔ (self.old.variables ≡ most_variables) }
        ensures unchanged { OnErr result (self.new ≡ self.old) }
    {
        let a = self.literal(a);
        let b = self.literal(b);
        Ok(self.xor_gate(a, b)?.signed())
    }

    /// The multiplexer: a gate that is `a` where `c` holds, and `b` elsewhere.
    pub fn mux(&mut self, c: i32, a: i32, b: i32) -> Result<i32, GateFault>
        requires c { IsLiteral self.old.variables c }
        requires a { IsLiteral self.old.variables a }
        requires b { IsLiteral self.old.variables b }
        ensures made { IfOk result (λ g. mux_gate c a b self.old ≡ (self.new, g)) }
        ensures within { IfOk result (IsLiteral self.new.variables) }
        ensures begins { Begins self.old self.new }
        ensures full { IsErrOf result GateFault.Full ↔ (self.old.variables ≡ most_variables) }
        ensures unchanged { OnErr result (self.new ≡ self.old) }
    {
        let c = self.literal(c);
        let a = self.literal(a);
        let b = self.literal(b);
        Ok(self.mux_gate(c, a, b)?.signed())
    }

    /// Adds the clause that is `a` alone.
    pub fn unit(&mut self, a: i32) -> Result<(), AllocError>
        requires { IsLiteral self.old.variables a }
        ensures ok { OnOk result (self.new ≡ with_unit a self.old) }
        ensures begins { Begins self.old self.new }
        ensures unchanged { OnErr result (self.new ≡ self.old) }
    {
        let a = self.literal(a);
        self.unit_clause(a)
    }

    // The literal of a signed number.
    fn literal(&self, signed: i32) -> Literal
        requires { IsLiteral self.now.variables signed }
        ensures { result ≡ signed }
    {
        // brings the bound on how many variables there are
        let _variables = self.variables();
        Literal::from_signed(signed)
    }
}
