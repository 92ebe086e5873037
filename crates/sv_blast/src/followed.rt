// The word that a process with an earlier read gives a signal. Of all signals that the signal
// follows the words are made together, statement by statement: an earlier read has the word that
// its signal has so far.
ghost use Rattle.std.specs.Prelude.{◌≡◌, ℕ, ◌<◌, ◌≤◌, ◌||◌, [], All, IsTrue, IsFalse};
ghost use Rattle.std.specs.Prelude.{Contains, IfOk, OnOk, IsErrOf, Some, length, map, fold, filter};
ghost use Rattle.std.specs.Prelude.{drop, replicate};
ghost use Rattle.std.specs.BTreeSet.{IsOrdered};
ghost use Rattle.std.specs.List.{list_any, list_all};
ghost use Rattle.std.specs.Ordering.{nat_cmp};
ghost use Rattle.sv_flat.specs.Assigned.{assigns};
ghost use Rattle.sv_flat.specs.ByNumber.{is_branch};
ghost use Rattle.sv_flat.specs.Design.{PieceForm};
ghost use Rattle.sv_flat.specs.Processes.{is_register};
ghost use Rattle.sv_flat.specs.Reads.{is_combinational, reads_for};
ghost use Rattle.sv_flat.specs.Soundness.{piece_fits};
ghost use Rattle.sv_flat.specs.Values.{signal_width};
ghost use Rattle.sv_flat.specs.Views.{design_of, piece_form, typed_tree};
ghost use Rattle.sv_graph.specs.Marks.{is_marked};
ghost use Rattle.sv_design.specs.Numbers.{numbers};
ghost use Rattle.sv_obl.specs.MarkedBodies.{marked_statement, TellsTargets, IsMarkedFor};
ghost use Rattle.sv_obl.specs.MarkedBodies.{HasCopies};
ghost use Rattle.sv_obl.specs.Wanted.{copy_of};
ghost use Rattle.sv_gates.specs.Extending.{Begins};
ghost use Rattle.sv_gates.specs.Formulas.{most_variables};
ghost use Rattle.sv_gates.specs.Gates.{false_literal};
ghost use Rattle.sv_circuits.specs.Words.{replaced_word};
ghost use Rattle.sv_encoding.specs.Bodies.{assigned_words, settled_word, with_piece_word};
ghost use Rattle.sv_encoding.specs.Bodies.{words_after};
ghost use Rattle.sv_encoding.specs.BothWays.{IsWordOf};
ghost use Rattle.sv_blast.specs.FollowedWords.{forms_in, follows_in, IsFollowed, IsAtHand};
ghost use Rattle.sv_blast.specs.FollowedWords.{AllStand, IsFit, AreFit, ArmStands, ArmsStand};
ghost use Rattle.sv_blast.specs.FollowedWords.{pairs, words_at, choices, choices_back};
ghost use Rattle.sv_blast.specs.WordTables.{words_of, StandForReads};

use crate::arms::copied;
use crate::expressions::{expression, is_true};
use crate::fan_in::FanIn;
use crate::followed_arms::{CopyWord, WordsArm, push_arm, put_words, words_at};
use crate::tables::WordTable;
use std::alloc::{AllocError, Global};
use std::collections::BTreeSet;
use sv_circuits::{chosen, falsity, filled, replaced};
use sv_design::Design;
use sv_flat::{FExpr, Piece, SigId, Signal};
use sv_gates::{GateFault, Gates, Literal};
use sv_graph::has_mark;
use sv_obl::{Bodies, Marked, know_design};

/// What words are made for: the signals, alone and with their copies behind them, since a wanted
/// name is that of a copy; those that are read for the target, and those that it follows.
#[derive(Clone, Copy)]
pub struct Followed<'a> {
    pub alloc: Global,
    pub signals: &'a [Signal],
    pub twice: &'a [Signal],
    pub reads: &'a [SigId],
    pub follows: &'a [bool],
}

impl<'a> Followed<'a> {
    /// For a target that follows these signals.
    pub fn new(
        alloc: Global,
        design: &'a Design,
        bodies: &'a Bodies,
        follows: &'a [bool],
        target: SigId,
    ) -> Followed<'a>
        requires known { target.0 < length design.now.signals.items }
        requires copies { HasCopies (design_of design.now) bodies.now }
        requires size { length follows.now ≡ length design.now.signals.items }
        ensures held { IsFollowed result }
        ensures signals { result.signals.now ≡ design.now.signals.items }
        ensures reads { numbers result.reads.now ≡ reads_for (design_of design.now) target.0 }
        ensures follows { result.follows.now ≡ follows.now }
    {
        Followed {
            alloc,
            signals: design.signals(),
            twice: &bodies.twice,
            reads: design.reads_for(target),
            follows,
        }
    }

    // ---- signals and their copies

    // The copy of a followed signal.
    fn copy_of(&self, signal: SigId) -> SigId
        requires held { IsFollowed self.now }
        requires follows { IsTrue (is_marked self.now.follows.now signal.0) }
        ensures { result.0 ≡ copy_of (forms_in self.now) signal.0 }
    {
        SigId(self.signals.len() as u32 + signal.0)
    }

    /// Whether one of some signals is followed.
    pub fn follows_some(&self, targets: &BTreeSet<u32>) -> bool
        ensures { result ≡ list_any (is_marked self.now.follows.now) targets.now.keys }
    {
        targets
            .iter()
            .any(|target| has_mark(self.follows, SigId(*target)))
    }

    /// Whether one of some pieces is of a followed signal.
    pub fn has_piece(&self, pieces: &[Piece]) -> bool
        ensures { result ≡ list_any (λ (piece : PieceForm).
            is_marked self.now.follows.now piece.signal) (map piece_form pieces.now) }
    {
        pieces
            .iter()
            .any(|piece| has_mark(self.follows, piece.signal))
    }

    // The copies of the followed ones among some signals, in order.
    fn copies_of(&self, targets: &BTreeSet<u32>) -> Result<Vec<SigId>, AllocError>
        requires held { IsFollowed self.now }
        ensures copies { IfOk result (λ copies. numbers copies.items
            ≡ map (copy_of (forms_in self.now))
            (filter (is_marked self.now.follows.now) targets.now.keys)) }
        ensures ordered { OnOk result (IsOrdered nat_cmp targets.now) }
    {
        let mut copies = Vec::new(self.alloc);
        for target in targets {
            if has_mark(self.follows, SigId(*target)) {
                copies.push(self.copy_of(SigId(*target)))?;
            }
        }
        Ok(copies)
    }

    // ---- assignments

    // The word that a followed signal has after a piece of a right side.
    fn replaced_word(
        &self,
        words: &WordTable,
        piece: &Piece,
        right: &[Literal],
    ) -> Result<Vec<Literal>, AllocError>
        requires held { IsFollowed self.now }
        requires follows { IsTrue (is_marked self.now.follows.now piece.now.signal.0) }
        requires piece { piece.now.low ≤ piece.now.high }
        ensures { IfOk result (λ word. word.items
            ≡ replaced_word piece.now.high piece.now.low
            (words_of words.now (copy_of (forms_in self.now) piece.now.signal.0))
            (drop piece.now.from right.now)) }
    {
        let from = usize::from(piece.from).min(right.len());
        let (high, low) = (usize::from(piece.high), usize::from(piece.low));
        let word = words.word(self.copy_of(piece.signal));
        replaced(self.alloc, high, low, word, &right[from..])
    }

    // Puts a piece of a right side into the word of its signal, where that is followed.
    fn put_piece(
        &self,
        words: &mut WordTable,
        piece: &Piece,
        right: &[Literal],
    ) -> Result<(), AllocError>
        requires held { IsFollowed self.now }
        requires piece { piece.now.low ≤ piece.now.high }
        ensures { OnOk result (with_piece_word (forms_in self.now) (follows_in self.now)
            right.now (words_of words.old) (piece_form piece.now) ≡ words_of words.new) }
    {
        if !has_mark(self.follows, piece.signal) {
            return Ok(());
        }
        let word = self.replaced_word(words, piece, right)?;
        words.put(self.alloc, self.copy_of(piece.signal), word)?;
        Ok(())
    }

    // Puts all pieces of a right side, in textual order.
    fn put_pieces(
        &self,
        words: &mut WordTable,
        pieces: &[Piece],
        right: &[Literal],
    ) -> Result<(), AllocError>
        requires held { IsFollowed self.now }
        requires pieces { All (λ piece. piece.low ≤ piece.high) pieces.now }
        ensures { OnOk result (fold (with_piece_word (forms_in self.now) (follows_in self.now)
            right.now) (words_of words.old) (map piece_form pieces.now) ≡ words_of words.new) }
    {
        for piece in pieces {
            self.put_piece(words, piece, right)?;
        }
        Ok(())
    }

    // The words after an assignment to a followed signal.
    fn after_assignment(
        &self,
        gates: &mut Gates,
        words: &mut WordTable,
        pieces: &[Piece],
        right: &FExpr,
    ) -> Result<(), GateFault>
        requires held { IsFollowed self.now }
        requires right { IsFit (forms_in self.now) (IsAtHand self.now) (typed_tree right.now) }
        requires inside { IsTrue (list_all (piece_fits (forms_in self.now) (typed_tree right.now))
            (map piece_form pieces.now)) }
        requires stand { AllStand (forms_in self.now) (IsAtHand self.now) gates.old.variables
            (words_of words.old) }
        ensures made { OnOk result (assigned_words (forms_in self.now) (follows_in self.now)
            (map piece_form pieces.now) (typed_tree right.now) (words_of words.old) gates.old
            ≡ (gates.new, words_of words.new)) }
        ensures stand { OnOk result (AllStand (forms_in self.now) (IsAtHand self.now)
            gates.new.variables (words_of words.new)) }
        ensures begins { Begins gates.old gates.new }
        ensures full { IsErrOf result GateFault.Full → most_variables
            < ((assigned_words (forms_in self.now) (follows_in self.now)
            (map piece_form pieces.now) (typed_tree right.now) (words_of words.old)
            gates.old).0).variables }
    {
        let _some = gates.variables();
        let value = expression(self.alloc, gates, self.twice, words, right)?;
        self.put_pieces(words, pieces, &value)?;
        Ok(())
    }

    // ---- choices

    // From the words after the second arm of a branch: of what it assigns the words after the first
    // arm where its condition holds, else those that are there.
    fn choose(
        &self,
        gates: &mut Gates,
        words: &mut WordTable,
        arm: &WordsArm,
    ) -> Result<(), GateFault>
        requires arm { ArmStands (forms_in self.now) (IsAtHand self.now) gates.old.variables
            arm.now }
        requires stand { AllStand (forms_in self.now) (IsAtHand self.now) gates.old.variables
            (words_of words.old) }
        ensures made { OnOk result (choices arm.now.condition (pairs arm.now.words.items)
            (words_of words.old) gates.old ≡ (gates.new, words_of words.new)) }
        ensures stand { OnOk result (AllStand (forms_in self.now) (IsAtHand self.now)
            gates.new.variables (words_of words.new)) }
        ensures begins { Begins gates.old gates.new }
        ensures full { IsErrOf result GateFault.Full → most_variables
            < ((choices arm.now.condition (pairs arm.now.words.items) (words_of words.old)
            gates.old).0).variables }
    {
        for first in &arm.words {
            let second = words.word(first.copy);
            let word = chosen(self.alloc, gates, arm.condition, &first.word, second)?;
            words.put(self.alloc, first.copy, word)?;
        }
        Ok(())
    }

    // From the words after the second arm of the last branch back to those after the first branch.
    fn choose_back(
        &self,
        gates: &mut Gates,
        words: &mut WordTable,
        arms: Vec<WordsArm>,
    ) -> Result<(), GateFault>
        requires arms { ArmsStand (forms_in self.now) (IsAtHand self.now) gates.old.variables
            arms.items }
        requires stand { AllStand (forms_in self.now) (IsAtHand self.now) gates.old.variables
            (words_of words.old) }
        ensures made { OnOk result (choices_back arms.items (gates.old, words_of words.old)
            ≡ (gates.new, words_of words.new)) }
        ensures stand { OnOk result (AllStand (forms_in self.now) (IsAtHand self.now)
            gates.new.variables (words_of words.new)) }
        ensures begins { Begins gates.old gates.new }
        ensures full { IsErrOf result GateFault.Full → most_variables
            < ((choices_back arms.items (gates.old, words_of words.old)).0).variables }
    {
        let mut arms = arms;
        'arms: while let Some(arm) = arms.pop() {
            self.choose(gates, words, &arm)?;
        }
        Ok(())
    }

    // ---- statements

    // The words of some copies after the first arm of a branch that assigns no others. Then they
    // have the words again from which the second arm begins.
    #[cycle(followed_statements)]
    fn first_arm(
        &self,
        yes: &Marked,
        gates: &mut Gates,
        words: &mut WordTable,
        copies: &[SigId],
    ) -> Result<Vec<CopyWord>, GateFault>
        requires held { IsFollowed self.now }
        requires tells { TellsTargets yes.now }
        requires fit { AreFit (forms_in self.now) (follows_in self.now) (IsAtHand self.now)
            (marked_statement yes.now) }
        requires stand { AllStand (forms_in self.now) (IsAtHand self.now) gates.old.variables
            (words_of words.old) }
        requires copies { (s : ℕ) → Contains (follows_in self.now) s
            → IsTrue (assigns (marked_statement yes.now) s)
            → Contains (numbers copies.now) (copy_of (forms_in self.now) s) }
        ensures gates { OnOk result (gates.new ≡ (words_after (forms_in self.now)
            (follows_in self.now) (marked_statement yes.now) (words_of words.old) gates.old).0) }
        ensures words { IfOk result (λ found. pairs found.items
            ≡ words_at (words_after (forms_in self.now) (follows_in self.now)
            (marked_statement yes.now) (words_of words.old) gates.old).1 (numbers copies.now)) }
        ensures stand { OnOk result (AllStand (forms_in self.now) (IsAtHand self.now)
            gates.new.variables (words_after (forms_in self.now) (follows_in self.now)
            (marked_statement yes.now) (words_of words.old) gates.old).1) }
        ensures back { OnOk result (words_of words.new ≡ words_of words.old) }
        ensures begins { Begins gates.old gates.new }
        ensures full { IsErrOf result GateFault.Full → most_variables
            < ((words_after (forms_in self.now) (follows_in self.now) (marked_statement yes.now)
            (words_of words.old) gates.old).0).variables }
    {
        let before = words_at(self.alloc, words, copies)?;
        self.after(yes, gates, words)?;
        let after = words_at(self.alloc, words, copies)?;
        put_words(self.alloc, words, before)?;
        Ok(after)
    }

    // The words after a statement. What assigns no followed signal is passed over. The first arms
    // of a chain of branches are made on the way down and the choices on the way back, so no call
    // goes down here: a `case` may have many arms.
    #[cycle(followed_statements)]
    fn after(
        &self,
        stmt: &Marked,
        gates: &mut Gates,
        words: &mut WordTable,
    ) -> Result<(), GateFault>
        requires held { IsFollowed self.now }
        requires tells { TellsTargets stmt.now }
        requires fit { AreFit (forms_in self.now) (follows_in self.now) (IsAtHand self.now)
            (marked_statement stmt.now) }
        requires stand { AllStand (forms_in self.now) (IsAtHand self.now) gates.old.variables
            (words_of words.old) }
        ensures made { OnOk result (words_after (forms_in self.now) (follows_in self.now)
            (marked_statement stmt.now) (words_of words.old) gates.old
            ≡ (gates.new, words_of words.new)) }
        ensures stand { OnOk result (AllStand (forms_in self.now) (IsAtHand self.now)
            gates.new.variables (words_of words.new)) }
        ensures begins { Begins gates.old gates.new }
        ensures full { IsErrOf result GateFault.Full → most_variables
            < ((words_after (forms_in self.now) (follows_in self.now) (marked_statement stmt.now)
            (words_of words.old) gates.old).0).variables }
    {
        let mut arms = Vec::new(self.alloc);
        let mut rest = stmt;
        while let Marked::Branch {
            targets,
            cond,
            yes,
            no,
            ..
        } = rest
        {
            if !self.follows_some(targets) {
                return self.choose_back(gates, words, arms);
            }
            let copies = self.copies_of(targets)?;
            let condition = is_true(self.alloc, gates, self.twice, words, cond)?;
            let first = self.first_arm(yes, gates, words, &copies)?;
            let arm = WordsArm {
                condition,
                words: first,
            };
            push_arm(&mut arms, arm)?;
            rest = no;
        }
        self.after_plain(rest, gates, words)?;
        self.choose_back(gates, words, arms)
    }

    // The words after a statement that is no branch.
    #[cycle(followed_statements)]
    fn after_plain(
        &self,
        stmt: &Marked,
        gates: &mut Gates,
        words: &mut WordTable,
    ) -> Result<(), GateFault>
        requires plain { IsFalse (is_branch (marked_statement stmt.now)) }
        requires held { IsFollowed self.now }
        requires tells { TellsTargets stmt.now }
        requires fit { AreFit (forms_in self.now) (follows_in self.now) (IsAtHand self.now)
            (marked_statement stmt.now) }
        requires stand { AllStand (forms_in self.now) (IsAtHand self.now) gates.old.variables
            (words_of words.old) }
        ensures made { OnOk result (words_after (forms_in self.now) (follows_in self.now)
            (marked_statement stmt.now) (words_of words.old) gates.old
            ≡ (gates.new, words_of words.new)) }
        ensures stand { OnOk result (AllStand (forms_in self.now) (IsAtHand self.now)
            gates.new.variables (words_of words.new)) }
        ensures begins { Begins gates.old gates.new }
        ensures full { IsErrOf result GateFault.Full → most_variables
            < ((words_after (forms_in self.now) (follows_in self.now) (marked_statement stmt.now)
            (words_of words.old) gates.old).0).variables }
    {
        match stmt {
            Marked::Nothing => Ok(()),
            Marked::Assign { pieces, right, .. } => {
                if !self.has_piece(*pieces) {
                    return Ok(());
                }
                self.after_assignment(gates, words, *pieces, right)
            }
            Marked::Chain {
                targets,
                first,
                second,
            } => {
                if !self.follows_some(targets) {
                    return Ok(());
                }
                self.after(first, gates, words)?;
                self.after(second, gates, words)
            }
            Marked::Branch { .. } => unreachable!(),
        }
    }

    // ---- where the process begins

    // A table with the words of what is read for the target.
    fn read_words(&self, words: &WordTable) -> Result<WordTable, AllocError>
        ensures { IfOk result (λ own. (t : ℕ) → Contains (numbers self.now.reads.now) t
            → words_of own t ≡ words_of words.now t) }
    {
        let mut own = WordTable::new(self.alloc);
        for signal in self.reads {
            own.put(
                self.alloc,
                *signal,
                copied(self.alloc, words.word(*signal))?,
            )?;
        }
        Ok(own)
    }

    // Gives the copy of each followed signal false bits, as an `always @*` begins.
    fn clear_copies(&self, gates: &Gates, words: &mut WordTable) -> Result<(), AllocError>
        requires held { IsFollowed self.now }
        ensures copies { OnOk result ((s : ℕ) → Contains (follows_in self.now) s
            → words_of words.new (copy_of (forms_in self.now) s)
            ≡ replicate (signal_width (forms_in self.now) s) false_literal) }
        ensures others { OnOk result ((t : ℕ) → t < length self.now.signals.now
            → words_of words.new t ≡ words_of words.old t) }
    {
        for number in 0..self.signals.len() {
            let signal = SigId(number as u32);
            if has_mark(self.follows, signal) {
                let width = usize::from(self.signals[number].width);
                let word = filled(self.alloc, falsity(gates), width, &[])?;
                words.put(self.alloc, self.copy_of(signal), word)?;
            }
        }
        Ok(())
    }
}

/// The word of a combinational signal from the words of what is read for it, where its process has
/// this body with its earlier reads wanted (IEEE 1364-2005, clauses 6 and 9).
/// `Full` says that variables ran out, `OutOfMemory` that memory did; then some gates may stay.
pub fn followed_word(
    alloc: Global,
    gates: &mut Gates,
    fan_in: &FanIn,
    body: &Marked,
    target: SigId,
) -> Result<Vec<Literal>, GateFault>
    requires driven { IsTrue (is_register (design_of fan_in.now.design.now) target.0
        || is_combinational (design_of fan_in.now.design.now) target.0) }
    requires body { IsMarkedFor (design_of fan_in.now.design.now) target.0 (Some body) }
    requires copies { HasCopies (design_of fan_in.now.design.now) fan_in.now.bodies.now }
    requires words { StandForReads (design_of fan_in.now.design.now) gates.old.variables
        (words_of fan_in.now.words.now) target.0 }
    ensures made { IfOk result (λ word. settled_word (design_of fan_in.now.design.now)
        (words_of fan_in.now.words.now) target.0 gates.old ≡ (gates.new, word.items)) }
    ensures within { IfOk result (λ word.
        IsWordOf (design_of fan_in.now.design.now) target.0 gates.new.variables word.items) }
    ensures begins { Begins gates.old gates.new }
    ensures full { IsErrOf result GateFault.Full → most_variables
        < ((settled_word (design_of fan_in.now.design.now) (words_of fan_in.now.words.now) target.0
        gates.old).0).variables }
{
    let _some = gates.variables();
    let design = fan_in.design;
    know_design(design);
    let follows = design.follows(alloc, target)?;
    let followed = Followed::new(alloc, design, fan_in.bodies, &follows, target);
    let mut own = followed.read_words(fan_in.words)?;
    followed.clear_copies(gates, &mut own)?;
    followed.after(body, gates, &mut own)?;
    Ok(copied(alloc, own.word(followed.copy_of(target)))?)
}
