// Gates of two bits, and those of two words bit by bit.
ghost use Rattle.std.specs.Prelude.{◌≡◌, ◌↔◌, ◌≤◌, ◌<◌, IfOk, OnErr, IsErrOf};
ghost use Rattle.sv_gates.specs.Extending.{Begins};
ghost use Rattle.sv_gates.specs.Formulas.{IsLiteral, most_variables};
ghost use Rattle.sv_gates.specs.Gates.{mux_gate};
ghost use Rattle.sv_circuits.specs.Words.{bitwise_word};
ghost use Rattle.sv_circuits.specs.Circuits.{IsWord};
ghost use Rattle.sv_circuits.specs.BitGates.{gate_of};

use crate::words::append;
use std::alloc::Global;
use sv_gates::{GateFault, Gates, Literal};

/// What two bits are joined by.
#[derive(Clone, Copy, Debug, PartialEq, Eq)]
pub enum BitGate {
    /// Both are true.
    And,
    /// Some one is true.
    Or,
    /// They differ.
    Xor,
    /// They are the same.
    Xnor,
}

/// A gate that is whether `a` and `b` are the same.
pub fn same(gates: &mut Gates, a: Literal, b: Literal) -> Result<Literal, GateFault>
    requires a { IsLiteral gates.old.variables a }
    requires b { IsLiteral gates.old.variables b }
    ensures made { IfOk result (λ g. gate_of BitGate.Xnor a b gates.old ≡ (gates.new, g)) }
    ensures within { IfOk result (IsLiteral gates.new.variables) }
    ensures begins { Begins gates.old gates.new }
    ensures full { IsErrOf result GateFault.Full ↔ (gates.old.variables ≡ most_variables) }
    ensures unchanged { OnErr result (gates.new ≡ gates.old) }
{
    let apart = gates.xor_gate(a, b)?;
    Ok(apart.negated())
}

/// The gate of two bits.
pub fn joined(
    gates: &mut Gates,
    gate: BitGate,
    a: Literal,
    b: Literal,
) -> Result<Literal, GateFault>
    requires a { IsLiteral gates.old.variables a }
    requires b { IsLiteral gates.old.variables b }
    ensures made { IfOk result (λ g. gate_of gate a b gates.old ≡ (gates.new, g)) }
    ensures within { IfOk result (IsLiteral gates.new.variables) }
    ensures begins { Begins gates.old gates.new }
    ensures full { IsErrOf result GateFault.Full ↔ (gates.old.variables ≡ most_variables) }
    ensures unchanged { OnErr result (gates.new ≡ gates.old) }
{
    match gate {
        BitGate::And => gates.and_gate(a, b),
        BitGate::Or => gates.or_gate(a, b),
        BitGate::Xor => gates.xor_gate(a, b),
        BitGate::Xnor => same(gates, a, b),
    }
}

/// Two words joined bit by bit from bit 0, as far as both go: one gate for each bit.
/// `Full` says that variables ran out, `OutOfMemory` that memory did; then some gates may stay.
#[tactic(auto, using(sv_gates::proofs::ExtendingLaws::begins_trans))]
pub fn bitwise(
    alloc: Global,
    gates: &mut Gates,
    gate: BitGate,
    a: &[Literal],
    b: &[Literal],
) -> Result<Vec<Literal>, GateFault>
    requires a { IsWord gates.old.variables a.now }
    requires b { IsWord gates.old.variables b.now }
    ensures made { IfOk result (λ word.
        bitwise_word (gate_of gate) a.now b.now gates.old ≡ (gates.new, word.items)) }
    ensures within { IfOk result (λ word. IsWord gates.new.variables word.items) }
    ensures begins { Begins gates.old gates.new }
    ensures full { IsErrOf result GateFault.Full
        → most_variables < ((bitwise_word (gate_of gate) a.now b.now gates.old).0).variables }
{
    let mut word = Vec::with_capacity(alloc, a.len())?;
    'bits: for (x, y) in a.iter().zip(b) {
        let bit = joined(gates, gate, *x, *y)?;
        append(&mut word, bit)?;
    }
    Ok(word)
}

/// Bit by bit from bit 0 `a` where `c` holds, else `b`, as far as both go: one multiplexer for each
/// bit.
/// `Full` says that variables ran out, `OutOfMemory` that memory did; then some gates may stay.
#[tactic(auto, using(sv_gates::proofs::ExtendingLaws::begins_trans))]
pub fn chosen(
    alloc: Global,
    gates: &mut Gates,
    c: Literal,
    a: &[Literal],
    b: &[Literal],
) -> Result<Vec<Literal>, GateFault>
    requires c { IsLiteral gates.old.variables c }
    requires a { IsWord gates.old.variables a.now }
    requires b { IsWord gates.old.variables b.now }
    ensures made { IfOk result (λ word.
        bitwise_word (mux_gate c) a.now b.now gates.old ≡ (gates.new, word.items)) }
    ensures within { IfOk result (λ word. IsWord gates.new.variables word.items) }
    ensures begins { Begins gates.old gates.new }
    ensures full { IsErrOf result GateFault.Full
        → most_variables < ((bitwise_word (mux_gate c) a.now b.now gates.old).0).variables }
{
    let mut word = Vec::with_capacity(alloc, a.len())?;
    'bits: for (x, y) in a.iter().zip(b) {
        let bit = gates.mux_gate(c, *x, *y)?;
        append(&mut word, bit)?;
    }
    Ok(word)
}
