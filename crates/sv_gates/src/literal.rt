// Literals, each with a negation in 32 bits.
ghost use Rattle.std.specs.Prelude.{◌≡◌, ◌<◌, ◌^◌, neg_ℤ, pos, unsigned_abs};
ghost use Rattle.std.specs.Ordering.{int_eq};

use std::marker::Model;

/// Literal: a variable, or a variable negated. A contract sees it as the signed number of clauses.
#[derive(Clone, Copy, Debug)]
pub struct Literal {
    signed: i32,
}

impl Model for Literal {
    ghost use Rattle.std.specs.Prelude.{ℤ, ◌<◌, ◌^◌, unsigned_abs};

    ghost Value = { ℤ };

    ghost view = { λ l. l.signed };

    ghost invariant = { λ l. (0 < unsigned_abs l.signed) × (unsigned_abs l.signed < 2 ^ 31) };

    ghost inverse = { λ z. record { signed = z } };
}

impl Literal {
    /// The literal of a signed number.
    pub fn from_signed(signed: i32) -> Literal
        requires some { 0 < unsigned_abs signed }
        requires small { unsigned_abs signed < 2 ^ 31 }
        ensures { result ≡ signed }
    {
        Literal { signed }
    }

    /// A variable's own literal.
    pub fn of_variable(variable: u32) -> Literal
        requires some { 0 < variable }
        requires small { variable < 2 ^ 31 }
        ensures { result ≡ pos variable }
    {
        Literal {
            signed: variable as i32,
        }
    }

    /// The signed number.
    pub fn signed(&self) -> i32
        ensures { result ≡ self.now }
    {
        self.signed
    }

    /// Its variable.
    pub fn variable(&self) -> u32
        ensures { result ≡ unsigned_abs self.now }
    {
        self.signed.unsigned_abs()
    }

    /// Negation: the other literal of its variable.
    pub fn negated(&self) -> Literal
        ensures { result ≡ neg_ℤ self.now }
    {
        Literal {
            signed: -self.signed,
        }
    }

    /// Whether it is the literal of a signed number.
    pub fn is_signed(&self, signed: &i32) -> bool
        ensures { result ≡ int_eq self.now signed.now }
    {
        self.signed == *signed
    }

    /// Whether two literals are the same.
    pub fn is(&self, other: &Literal) -> bool
        ensures { result ≡ int_eq self.now other.now }
    {
        self.signed == other.signed
    }
}
