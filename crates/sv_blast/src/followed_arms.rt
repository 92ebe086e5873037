// Words of copies of signals that are set aside, as a branch does while its other arm is made.
ghost use Rattle.std.specs.Prelude.{◌≡◌, ◌++◌, ◌∷◌, [], IfOk, OnOk};
ghost use Rattle.sv_design.specs.Numbers.{numbers};
ghost use Rattle.sv_blast.specs.FollowedWords.{pairs, words_at, with_words};
ghost use Rattle.sv_blast.specs.WordTables.{words_of};

use crate::arms::copied;
use crate::tables::WordTable;
use std::alloc::{AllocError, Global};
use sv_flat::SigId;
use sv_gates::Literal;

/// A word of a signal's copy.
#[derive(Drop)]
pub struct CopyWord {
    pub copy: SigId,
    pub word: Vec<Literal>,
}

/// A branch of which the first arm is made: whether it is taken, and the words after that arm of
/// what the branch assigns.
#[derive(Drop)]
pub struct WordsArm {
    pub condition: Literal,
    pub words: Vec<CopyWord>,
}

/// Puts one more arm at the end.
pub fn push_arm(arms: &mut Vec<WordsArm>, arm: WordsArm) -> Result<(), AllocError>
    ensures { OnOk result (arms.new.items ≡ arms.old.items ++ arm ∷ []) }
{
    arms.push(arm)?;
    Ok(())
}

/// The words of some copies.
pub fn words_at(
    alloc: Global,
    words: &WordTable,
    copies: &[SigId],
) -> Result<Vec<CopyWord>, AllocError>
    ensures { IfOk result (λ found.
        pairs found.items ≡ words_at (words_of words.now) (numbers copies.now)) }
{
    let mut found = Vec::with_capacity(alloc, copies.len())?;
    for copy in copies {
        let word = copied(alloc, words.word(*copy))?;
        found.push(CopyWord { copy: *copy, word })?;
    }
    Ok(found)
}

/// Gives some copies other words.
pub fn put_words(
    alloc: Global,
    words: &mut WordTable,
    others: Vec<CopyWord>,
) -> Result<(), AllocError>
    ensures { OnOk result
        (words_of words.new ≡ with_words (pairs others.items) (words_of words.old)) }
{
    let mut others = others;
    'others: while let Some(other) = others.pop() {
        words.put(alloc, other.copy, other.word)?;
    }
    Ok(())
}
