// Shifts of words.
ghost use Rattle.std.specs.Prelude.{◌≡◌, ◌≤◌, ◌<◌, IfOk, IsErrOf};
ghost use Rattle.sv_gates.specs.Extending.{Begins};
ghost use Rattle.sv_gates.specs.Formulas.{IsLiteral, most_variables};
ghost use Rattle.sv_circuits.specs.Operators.{shifted_word};
ghost use Rattle.sv_circuits.specs.Circuits.{IsWord};
ghost use Rattle.sv_circuits.specs.Moves.{move_of};

use crate::bit_gates::chosen;
use crate::words::{append_same, append_word, copied};
use std::alloc::{AllocError, Global};
use sv_gates::{GateFault, Gates, Literal};

/// In which direction a word is moved.
#[derive(Clone, Copy, Debug, PartialEq, Eq)]
pub enum Direction {
    /// To higher bits.
    Up,
    /// To lower bits.
    Down,
}

// A word moved in a direction by so many bits, with a literal in the bits that it leaves.
fn moved(
    alloc: Global,
    direction: Direction,
    fill: Literal,
    by: usize,
    word: &[Literal],
) -> Result<Vec<Literal>, AllocError>
    ensures { IfOk result (λ made. made.items ≡ move_of direction fill by word.now) }
{
    let by = by.min(word.len());
    match direction {
        Direction::Up => {
            let mut made = Vec::with_capacity(alloc, word.len())?;
            append_same(&mut made, by, fill)?;
            append_word(&mut made, &word[..word.len() - by])?;
            Ok(made)
        }
        Direction::Down => {
            let mut made = copied(alloc, &word[by..])?;
            append_same(&mut made, by, fill)?;
            Ok(made)
        }
    }
}

/// A word moved by an amount.
#[tactic(auto, using(sv_gates::proofs::ExtendingLaws::begins_trans))]
pub fn shifted(
    alloc: Global,
    gates: &mut Gates,
    direction: Direction,
    fill: Literal,
    word: &[Literal],
    amount: &[Literal],
) -> Result<Vec<Literal>, GateFault>
    requires fill { IsLiteral gates.old.variables fill }
    requires word { IsWord gates.old.variables word.now }
    requires amount { IsWord gates.old.variables amount.now }
    ensures made { IfOk result (λ made. shifted_word (move_of direction fill) word.now amount.now
        gates.old ≡ (gates.new, made.items)) }
    ensures within { IfOk result (λ made. IsWord gates.new.variables made.items) }
    ensures begins { Begins gates.old gates.new }
    ensures full { IsErrOf result GateFault.Full → most_variables
        < ((shifted_word (move_of direction fill) word.now amount.now gates.old).0).variables }
{
    let mut made = copied(alloc, word)?;
    let mut by: usize = 1;
    'amount: for bit in amount {
        let moved = moved(alloc, direction, fill, by, &made)?;
        made = chosen(alloc, gates, *bit, &moved, &made)?;
        by = by.saturating_mul(2);
    }
    Ok(made)
}
