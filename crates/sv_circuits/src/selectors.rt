// The bit of a word at an index.
ghost use Rattle.std.specs.Prelude.{◌≡◌, ◌≤◌, ◌<◌, ◌^◌, min, IfOk, IsErrOf};
ghost use Rattle.sv_gates.specs.Extending.{Begins};
ghost use Rattle.sv_gates.specs.Formulas.{IsLiteral, most_variables};
ghost use Rattle.sv_circuits.specs.Operators.{number_count, picked_bit};
ghost use Rattle.sv_circuits.specs.Circuits.{IsWord};

use crate::comparators::equal_number;
use crate::words::falsity;
use sv_gates::{GateFault, Gates, Literal};

// A power of 2, or the most where it is more.
fn power_within(bits: usize, most: usize) -> usize
    ensures { result ≡ min (2 ^ bits) most }
{
    let mut power: usize = 1;
    'powers: for _ in 0..bits {
        power = power.saturating_mul(2);
    }
    power.min(most)
}

// How many numbers from 0 up a type can hold, or the most where they are more.
fn number_count(width: usize, signed: bool, most: usize) -> usize
    ensures { result ≡ min (number_count width signed) most }
{
    if signed {
        power_within(width.saturating_sub(1), most)
    } else {
        power_within(width, most)
    }
}

/// The bit of a word at an index, whose type is signed or not, and false where the index is outside
/// of the word: a test of the index and a multiplexer for each bit that it can reach.
/// `Full` says that variables ran out, `OutOfMemory` that memory did; then some gates may stay.
#[tactic(auto, using(sv_gates::proofs::ExtendingLaws::begins_trans))]
pub fn picked(
    gates: &mut Gates,
    word: &[Literal],
    index: &[Literal],
    signed: bool,
) -> Result<Literal, GateFault>
    requires word { IsWord gates.old.variables word.now }
    requires index { IsWord gates.old.variables index.now }
    ensures made { IfOk result (λ g.
        picked_bit word.now signed (λ formula. (formula, index.now)) gates.old ≡ (gates.new, g)) }
    ensures within { IfOk result (IsLiteral gates.new.variables) }
    ensures begins { Begins gates.old gates.new }
    ensures full { IsErrOf result GateFault.Full → most_variables
        < ((picked_bit word.now signed (λ formula. (formula, index.now)) gates.old).0).variables }
{
    let count = number_count(index.len(), signed, word.len());
    let near = &word[..count];
    let mut found = falsity(gates);
    let mut j: u64 = 0;
    'bits: for bit in near {
        let here = equal_number(gates, index, j)?;
        found = gates.mux_gate(here, *bit, found)?;
        j += 1;
    }
    Ok(found)
}
