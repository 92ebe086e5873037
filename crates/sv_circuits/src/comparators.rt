// Comparisons of words.
ghost use Rattle.std.specs.Prelude.{◌≡◌, ◌≤◌, ◌<◌, ◌/◌, ◌%◌, ◌==◌, IfOk, IsErrOf, map, neg_ℤ};
ghost use Rattle.std.specs.Prelude.{if◌then◌else◌};
ghost use Rattle.std.specs.List.{zip};
ghost use Rattle.sv_gates.specs.Extending.{Begins};
ghost use Rattle.sv_gates.specs.Formulas.{IsLiteral, most_variables};
ghost use Rattle.sv_gates.specs.Gates.{and_gate, xor_gate};
ghost use Rattle.sv_circuits.specs.Words.{negation, chain_from, number_tests};
ghost use Rattle.sv_circuits.specs.Words.{equal_bit, equals_number_bit};
ghost use Rattle.sv_circuits.specs.Operators.{less_from, less_bit};
ghost use Rattle.sv_circuits.specs.Circuits.{IsWord};

use crate::bit_gates::same;
use crate::words::{falsity, ordered, truth};
use std::alloc::Global;
use sv_gates::{GateFault, Gates, Literal};

/// a == b, as far as both go: the AND chain of whether their bits are the same.
/// `Full` says that variables ran out, `OutOfMemory` that memory did; then some gates may stay.
#[tactic(auto, using(sv_gates::proofs::ExtendingLaws::begins_trans))]
pub fn equal(gates: &mut Gates, a: &[Literal], b: &[Literal]) -> Result<Literal, GateFault>
    requires a { IsWord gates.old.variables a.now }
    requires b { IsWord gates.old.variables b.now }
    ensures made { IfOk result (λ g. equal_bit a.now b.now gates.old ≡ (gates.new, g)) }
    ensures within { IfOk result (IsLiteral gates.new.variables) }
    ensures begins { Begins gates.old gates.new }
    ensures full { IsErrOf result GateFault.Full
        → most_variables < ((equal_bit a.now b.now gates.old).0).variables }
{
    let Some((x, more)) = a.split_first() else {
        return Ok(truth(gates));
    };
    let Some((y, rest)) = b.split_first() else {
        return Ok(truth(gates));
    };
    let first = same(gates, *x, *y)?;
    equal_after(gates, first, more, rest)
}

// a == b, where `before` tells of the bits below.
#[tactic(auto, using(sv_gates::proofs::ExtendingLaws::begins_trans))]
fn equal_after(
    gates: &mut Gates,
    before: Literal,
    a: &[Literal],
    b: &[Literal],
) -> Result<Literal, GateFault>
    requires before { IsLiteral gates.old.variables before }
    requires a { IsWord gates.old.variables a.now }
    requires b { IsWord gates.old.variables b.now }
    ensures made { IfOk result (λ g. chain_from and_gate before
        (map (λ bits. negation (xor_gate bits.0 bits.1)) (zip a.now b.now)) gates.old
        ≡ (gates.new, g)) }
    ensures within { IfOk result (IsLiteral gates.new.variables) }
    ensures begins { Begins gates.old gates.new }
    ensures full { IsErrOf result GateFault.Full → most_variables < ((chain_from and_gate before
        (map (λ bits. negation (xor_gate bits.0 bits.1)) (zip a.now b.now))
        gates.old).0).variables }
{
    let mut equal = before;
    'bits: for (x, y) in a.iter().zip(b) {
        let test = same(gates, *x, *y)?;
        equal = gates.and_gate(equal, test)?;
    }
    Ok(equal)
}

/// A word is a number, in as many bits as the word has: the AND chain of its bits, each negated
/// where the number has 0.
/// `Full` says that variables ran out, `OutOfMemory` that memory did; then some gates may stay.
pub fn equal_number(gates: &mut Gates, word: &[Literal], number: u64) -> Result<Literal, GateFault>
    requires { IsWord gates.old.variables word.now }
    ensures made { IfOk result (λ g. equals_number_bit word.now number gates.old ≡ (gates.new, g)) }
    ensures within { IfOk result (IsLiteral gates.new.variables) }
    ensures begins { Begins gates.old gates.new }
    ensures full { IsErrOf result GateFault.Full
        → most_variables < ((equals_number_bit word.now number gates.old).0).variables }
{
    let Some((bit, more)) = word.split_first() else {
        return Ok(truth(gates));
    };
    let first = number_test(*bit, number);
    equal_number_after(gates, first, more, number / 2)
}

// Whether a bit is the lowest one of a number.
fn number_test(literal: Literal, number: u64) -> Literal
    ensures { result ≡ (if number % 2 == 1 then literal else neg_ℤ literal) }
{
    if number % 2 == 1 {
        literal
    } else {
        literal.negated()
    }
}

// A word is a number, where `before` tells of the bits below.
fn equal_number_after(
    gates: &mut Gates,
    before: Literal,
    word: &[Literal],
    number: u64,
) -> Result<Literal, GateFault>
    requires before { IsLiteral gates.old.variables before }
    requires word { IsWord gates.old.variables word.now }
    ensures made { IfOk result (λ g.
        chain_from and_gate before (number_tests word.now number) gates.old ≡ (gates.new, g)) }
    ensures within { IfOk result (IsLiteral gates.new.variables) }
    ensures begins { Begins gates.old gates.new }
    ensures full { IsErrOf result GateFault.Full → most_variables
        < ((chain_from and_gate before (number_tests word.now number) gates.old).0).variables }
{
    let mut equal = before;
    let mut left = number;
    'bits: for bit in word {
        let test = number_test(*bit, left);
        equal = gates.and_gate(equal, test)?;
        left /= 2;
    }
    Ok(equal)
}

/// a < b, as far as both go.
pub fn less(
    alloc: Global,
    gates: &mut Gates,
    signed: bool,
    a: &[Literal],
    b: &[Literal],
) -> Result<Literal, GateFault>
    requires a { IsWord gates.old.variables a.now }
    requires b { IsWord gates.old.variables b.now }
    ensures made { IfOk result (λ g. less_bit signed a.now b.now gates.old ≡ (gates.new, g)) }
    ensures within { IfOk result (IsLiteral gates.new.variables) }
    ensures begins { Begins gates.old gates.new }
    ensures full { IsErrOf result GateFault.Full
        → most_variables < ((less_bit signed a.now b.now gates.old).0).variables }
{
    let a = ordered(alloc, signed, a)?;
    let b = ordered(alloc, signed, b)?;
    let none = falsity(gates);
    less_after(gates, &a, &b, none)
}

// a < b, where `below` tells of the bits below.
#[tactic(auto, using(sv_gates::proofs::ExtendingLaws::begins_trans))]
fn less_after(
    gates: &mut Gates,
    a: &[Literal],
    b: &[Literal],
    below: Literal,
) -> Result<Literal, GateFault>
    requires a { IsWord gates.old.variables a.now }
    requires b { IsWord gates.old.variables b.now }
    requires below { IsLiteral gates.old.variables below }
    ensures made { IfOk result (λ g. less_from a.now b.now below gates.old ≡ (gates.new, g)) }
    ensures within { IfOk result (IsLiteral gates.new.variables) }
    ensures begins { Begins gates.old gates.new }
    ensures full { IsErrOf result GateFault.Full
        → most_variables < ((less_from a.now b.now below gates.old).0).variables }
{
    let mut less = below;
    'bits: for (x, y) in a.iter().zip(b) {
        let differ = gates.xor_gate(*x, *y)?;
        less = gates.mux_gate(differ, *y, less)?;
    }
    Ok(less)
}
