// Literals as codes that index tables.
ghost use Rattle.std.specs.Prelude.{◌≡◌, ◌≢◌, ◌<◌, ◌≤◌, ◌^◌, ℤ, pos, neg_ℤ, unsigned_abs, IsTrue};
ghost use Rattle.std.specs.Prelude.{◌↔◌};
ghost use Rattle.sv_solve.specs.Codes.{code_of};

use std::marker::Model;

/// Literal: twice its variable, and one more where it is negated. A contract sees it as the signed
/// number of clauses.
#[derive(Clone, Copy, Debug)]
pub struct Literal {
    code: u32,
}

impl Model for Literal {
    ghost use Rattle.std.specs.Prelude.{ℤ, ◌≤◌};
    ghost use Rattle.sv_solve.specs.Codes.{code_of, literal_of, code-literal};
    ghost use Rattle.std.proofs.Common.{ap};

    ghost Value = { ℤ };

    ghost view = { λ l. literal_of l.code };

    ghost invariant = { λ l. 2 ≤ l.code };

    ghost inverse = { λ z. record { code = code_of z } };

    ghost inverse_ok = { λ a h. ap (λ c. record { code = c }) (code-literal a.code h) };
}

impl Literal {
    /// The literal of a signed number.
    pub fn from_signed(signed: &i32) -> Literal
        requires some { 0 < unsigned_abs signed.now }
        requires small { unsigned_abs signed.now < 2 ^ 31 }
        ensures { result ≡ signed.now }
    {
        let variable = signed.unsigned_abs();
        let code = if *signed < 0 {
            2 * variable + 1
        } else {
            2 * variable
        };
        Literal { code }
    }

    /// A variable's own literal.
    pub fn of_variable(variable: u32) -> Literal
        requires some { 0 < variable }
        requires small { variable < 2 ^ 31 }
        ensures { result ≡ pos variable }
    {
        Literal { code: 2 * variable }
    }

    /// The signed number.
    pub fn signed(&self) -> i32
        ensures { result ≡ self.now }
    {
        let variable = (self.code / 2) as i32;
        if self.code % 2 == 0 {
            variable
        } else {
            -variable
        }
    }

    /// Its variable.
    pub fn variable(&self) -> u32
        ensures { result ≡ unsigned_abs self.now }
    {
        self.signed().unsigned_abs()
    }

    /// Negation: the other literal of its variable.
    pub fn negated(&self) -> Literal
        ensures { result ≡ neg_ℤ self.now }
    {
        let code = if self.code % 2 == 0 {
            self.code + 1
        } else {
            self.code - 1
        };
        Literal { code }
    }

    /// Its code, which is its place in tables.
    pub fn index(&self) -> usize
        ensures { result ≡ code_of self.now }
    {
        self.code as usize
    }

    /// Whether two literals are the same.
    pub fn is(&self, other: &Literal) -> bool
        ensures { IsTrue result ↔ (self.now ≡ other.now) }
    {
        self.code == other.code
    }
}
