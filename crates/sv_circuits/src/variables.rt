// Words of new variables.
ghost use Rattle.std.specs.Prelude.{◌≡◌, ◌≤◌, ◌<◌, IfOk, IsErrOf};
ghost use Rattle.sv_gates.specs.Extending.{Begins};
ghost use Rattle.sv_gates.specs.Formulas.{most_variables};
ghost use Rattle.sv_circuits.specs.Words.{fresh_word};
ghost use Rattle.sv_circuits.specs.Circuits.{IsWord};

use crate::words::append;
use std::alloc::Global;
use sv_gates::{GateFault, Gates, Literal};

/// A word of so many new variables, from bit 0, which no clause names yet.
/// `Full` says that variables ran out, `OutOfMemory` that memory did; then some gates may stay.
#[tactic(auto, using(sv_gates::proofs::ExtendingLaws::begins_trans))]
pub fn fresh(alloc: Global, gates: &mut Gates, width: usize) -> Result<Vec<Literal>, GateFault>
    ensures made { IfOk result (λ word. fresh_word width gates.old ≡ (gates.new, word.items)) }
    ensures within { IfOk result (λ word. IsWord gates.new.variables word.items) }
    ensures begins { Begins gates.old gates.new }
    ensures full { IsErrOf result GateFault.Full
        → most_variables < ((fresh_word width gates.old).0).variables }
{
    let mut word = Vec::with_capacity(alloc, width)?;
    'bits: for _ in 0..width {
        let bit = gates.fresh_literal()?;
        append(&mut word, bit)?;
    }
    Ok(word)
}
