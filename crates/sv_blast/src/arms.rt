// Branches of which one arm is made and the other is not yet.
ghost use Rattle.std.specs.Prelude.{◌≡◌, ◌<◌, ◌++◌, ◌∷◌, [], length, IfOk, OnOk, IsErrOf};
ghost use Rattle.sv_gates.specs.Extending.{Begins};
ghost use Rattle.sv_gates.specs.Formulas.{most_variables};
ghost use Rattle.sv_circuits.specs.Circuits.{IsWord};
ghost use Rattle.sv_blast.specs.TargetWords.{chosen_back, StandAt};

use std::alloc::{AllocError, Global};
use sv_circuits::chosen;
use sv_gates::{GateFault, Gates, Literal};

/// Whether a branch takes its first arm, and the target's word after that arm.
#[derive(Drop)]
pub struct TargetArm {
    pub condition: Literal,
    pub word: Vec<Literal>,
}

/// A copy of a word.
pub fn copied(alloc: Global, word: &[Literal]) -> Result<Vec<Literal>, AllocError>
    ensures { IfOk result (λ made. made.items ≡ word.now) }
{
    word.to_vec(alloc)
}

/// Puts one more arm at the end.
pub fn push_arm(arms: &mut Vec<TargetArm>, arm: TargetArm) -> Result<(), AllocError>
    ensures { OnOk result (arms.new.items ≡ arms.old.items ++ arm ∷ []) }
{
    arms.push(arm)?;
    Ok(())
}

/// From the target's word after the second arm of the last branch back: for each branch the word
/// after its first arm where its condition holds, else what is there.
/// `Full` says that variables ran out, `OutOfMemory` that memory did; then some gates may stay.
#[tactic(auto, using(sv_gates::proofs::ExtendingLaws::begins_trans))]
pub fn chosen_back(
    alloc: Global,
    gates: &mut Gates,
    arms: Vec<TargetArm>,
    last: Vec<Literal>,
) -> Result<Vec<Literal>, GateFault>
    requires arms { StandAt (length last.items) gates.old.variables arms.items }
    requires last { IsWord gates.old.variables last.items }
    ensures made { IfOk result (λ word.
        chosen_back arms.items (gates.old, last.items) ≡ (gates.new, word.items)) }
    ensures within { IfOk result (λ word. IsWord gates.new.variables word.items) }
    ensures width { IfOk result (λ word. length word.items ≡ length last.items) }
    ensures begins { Begins gates.old gates.new }
    ensures full { IsErrOf result GateFault.Full → most_variables
        < ((chosen_back arms.items (gates.old, last.items)).0).variables }
{
    let mut arms = arms;
    let mut word = last;
    'arms: while let Some(arm) = arms.pop() {
        word = chosen(alloc, gates, arm.condition, &arm.word, &word)?;
    }
    Ok(word)
}
