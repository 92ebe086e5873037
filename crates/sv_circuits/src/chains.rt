// Chains of gates: each starts with its first member and takes no gate for it.
ghost use Rattle.std.specs.Prelude.{◌≡◌, ◌≤◌, ◌<◌, IfOk, IfSome, IsErrOf, map};
ghost use Rattle.sv_gates.specs.Extending.{Begins};
ghost use Rattle.sv_gates.specs.Formulas.{IsLiteral, most_variables};
ghost use Rattle.sv_circuits.specs.Words.{ready_bit};
ghost use Rattle.sv_circuits.specs.Circuits.{IsWord};
ghost use Rattle.sv_circuits.specs.BitGates.{none_of, chain_of, joined_to};

use crate::bit_gates::{BitGate, joined};
use crate::words::{falsity, truth};
use sv_gates::{GateFault, Gates, Literal};

/// A chain with one more member, joined by a gate to what is before it; the first member is the
/// chain, and takes no gate.
/// `Full` says that variables ran out, `OutOfMemory` that memory did; then some gates may stay.
pub fn joined_to(
    gates: &mut Gates,
    chain: Option<Literal>,
    gate: BitGate,
    literal: Literal,
) -> Result<Literal, GateFault>
    requires chain { IfSome chain (IsLiteral gates.old.variables) }
    requires literal { IsLiteral gates.old.variables literal }
    ensures made { IfOk result (λ g.
        joined_to chain gate literal gates.old ≡ (gates.new, g)) }
    ensures within { IfOk result (IsLiteral gates.new.variables) }
    ensures begins { Begins gates.old gates.new }
    ensures full { IsErrOf result GateFault.Full
        → most_variables < ((joined_to chain gate literal gates.old).0).variables }
{
    match chain {
        Some(before) => joined(gates, gate, before, literal),
        None => Ok(literal),
    }
}

// The literal that stands for a chain without members.
fn none_of(gates: &Gates, gate: BitGate) -> Literal
    ensures value { result ≡ none_of gate }
    ensures within { IsLiteral gates.now.variables result }
{
    match gate {
        BitGate::And => truth(gates),
        BitGate::Or => falsity(gates),
        BitGate::Xor => falsity(gates),
        BitGate::Xnor => truth(gates),
    }
}

/// The chain of a word's literals.
pub fn chain(gates: &mut Gates, gate: BitGate, word: &[Literal]) -> Result<Literal, GateFault>
    requires { IsWord gates.old.variables word.now }
    ensures made { IfOk result (λ g.
        chain_of gate (map ready_bit word.now) gates.old ≡ (gates.new, g)) }
    ensures within { IfOk result (IsLiteral gates.new.variables) }
    ensures begins { Begins gates.old gates.new }
    ensures full { IsErrOf result GateFault.Full
        → most_variables < ((chain_of gate (map ready_bit word.now) gates.old).0).variables }
{
    let Some((first, more)) = word.split_first() else {
        return Ok(none_of(gates, gate));
    };
    let mut before = *first;
    'members: for literal in more {
        before = joined(gates, gate, before, *literal)?;
    }
    Ok(before)
}
