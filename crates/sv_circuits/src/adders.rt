// Sums, differences and products of words of one length.
ghost use Rattle.std.specs.Prelude.{◌≡◌, ◌≤◌, ◌<◌, IfOk, IsErrOf, replicate};
ghost use Rattle.sv_gates.specs.Extending.{Begins};
ghost use Rattle.sv_gates.specs.Formulas.{IsLiteral, most_variables};
ghost use Rattle.sv_gates.specs.Gates.{false_literal};
ghost use Rattle.sv_circuits.specs.Circuits.{IsWord};
ghost use Rattle.sv_circuits.specs.Operators.{add_bits, sum_word, difference_word, minus_word};

use crate::words::{append, append_same, falsity, inverted, truth};
use std::alloc::{AllocError, Global};
use sv_gates::{GateFault, Gates, Literal};

// The bit of a sum, and the next carry.
#[tactic(auto, using(sv_gates::proofs::ExtendingLaws::begins_trans))]
fn full_adder(
    gates: &mut Gates,
    a: Literal,
    b: Literal,
    carry: Literal,
) -> Result<(Literal, Literal), GateFault>
    requires a { IsLiteral gates.old.variables a }
    requires b { IsLiteral gates.old.variables b }
    requires carry { IsLiteral gates.old.variables carry }
    ensures made { IfOk result (λ bits. add_bits a b carry gates.old ≡ (gates.new, bits)) }
    ensures sum { IfOk result (λ bits. IsLiteral gates.new.variables bits.0) }
    ensures next { IfOk result (λ bits. IsLiteral gates.new.variables bits.1) }
    ensures begins { Begins gates.old gates.new }
    ensures full { IsErrOf result GateFault.Full
        → most_variables < ((add_bits a b carry gates.old).0).variables }
{
    let half = gates.xor_gate(a, b)?;
    let sum = gates.xor_gate(half, carry)?;
    let both = gates.and_gate(a, b)?;
    let passed = gates.and_gate(carry, half)?;
    let next = gates.or_gate(both, passed)?;
    Ok((sum, next))
}

/// The sum of two words and a carry into bit 0.
#[tactic(auto, using(sv_gates::proofs::ExtendingLaws::begins_trans))]
pub fn sum_with(
    alloc: Global,
    gates: &mut Gates,
    a: &[Literal],
    b: &[Literal],
    carry: Literal,
) -> Result<Vec<Literal>, GateFault>
    requires a { IsWord gates.old.variables a.now }
    requires b { IsWord gates.old.variables b.now }
    requires carry { IsLiteral gates.old.variables carry }
    ensures made { IfOk result (λ word.
        sum_word a.now b.now carry gates.old ≡ (gates.new, word.items)) }
    ensures within { IfOk result (λ word. IsWord gates.new.variables word.items) }
    ensures begins { Begins gates.old gates.new }
    ensures full { IsErrOf result GateFault.Full
        → most_variables < ((sum_word a.now b.now carry gates.old).0).variables }
{
    let mut word = Vec::with_capacity(alloc, a.len())?;
    let mut next = carry;
    'sum: for (x, y) in a.iter().zip(b) {
        let (bit, carry) = full_adder(gates, *x, *y, next)?;
        append(&mut word, bit)?;
        next = carry;
    }
    Ok(word)
}

/// The sum of two words, as far as both go.
pub fn sum(
    alloc: Global,
    gates: &mut Gates,
    a: &[Literal],
    b: &[Literal],
) -> Result<Vec<Literal>, GateFault>
    requires a { IsWord gates.old.variables a.now }
    requires b { IsWord gates.old.variables b.now }
    ensures made { IfOk result (λ word.
        sum_word a.now b.now false_literal gates.old ≡ (gates.new, word.items)) }
    ensures within { IfOk result (λ word. IsWord gates.new.variables word.items) }
    ensures begins { Begins gates.old gates.new }
    ensures full { IsErrOf result GateFault.Full
        → most_variables < ((sum_word a.now b.now false_literal gates.old).0).variables }
{
    let carry = falsity(gates);
    sum_with(alloc, gates, a, b, carry)
}

/// a - b, as far as both go.
pub fn difference(
    alloc: Global,
    gates: &mut Gates,
    a: &[Literal],
    b: &[Literal],
) -> Result<Vec<Literal>, GateFault>
    requires a { IsWord gates.old.variables a.now }
    requires b { IsWord gates.old.variables b.now }
    ensures made { IfOk result (λ word.
        difference_word a.now b.now gates.old ≡ (gates.new, word.items)) }
    ensures within { IfOk result (λ word. IsWord gates.new.variables word.items) }
    ensures begins { Begins gates.old gates.new }
    ensures full { IsErrOf result GateFault.Full
        → most_variables < ((difference_word a.now b.now gates.old).0).variables }
{
    let turned = inverted(alloc, b)?;
    let carry = truth(gates);
    sum_with(alloc, gates, a, &turned, carry)
}

/// - a: 0 minus a.
pub fn minus(alloc: Global, gates: &mut Gates, a: &[Literal]) -> Result<Vec<Literal>, GateFault>
    requires { IsWord gates.old.variables a.now }
    ensures made { IfOk result (λ word. minus_word a.now gates.old ≡ (gates.new, word.items)) }
    ensures within { IfOk result (λ word. IsWord gates.new.variables word.items) }
    ensures begins { Begins gates.old gates.new }
    ensures full { IsErrOf result GateFault.Full
        → most_variables < ((minus_word a.now gates.old).0).variables }
{
    let zero = zeros(alloc, gates, a.len())?;
    difference(alloc, gates, &zero, a)
}

// False at so many bits.
fn zeros(alloc: Global, gates: &Gates, width: usize) -> Result<Vec<Literal>, AllocError>
    ensures made { IfOk result (λ word. word.items ≡ replicate width false_literal) }
    ensures within { IfOk result (λ word. IsWord gates.now.variables word.items) }
{
    let none = falsity(gates);
    let mut word = Vec::with_capacity(alloc, width)?;
    append_same(&mut word, width, none)?;
    Ok(word)
}
