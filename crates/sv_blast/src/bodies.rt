// The word that a signal's process gives it.
ghost use Rattle.std.specs.Prelude.{◌≡◌, ◌<◌, ◌≤◌, ◌||◌, IsTrue, IsFalse, IfOk, IsErrOf, All};
ghost use Rattle.std.specs.Prelude.{length, map, fold};
ghost use Rattle.std.specs.List.{list_all};
ghost use Rattle.sv_flat.specs.ByNumber.{signal_forms, is_branch};
ghost use Rattle.sv_flat.specs.Processes.{is_clocked, is_register};
ghost use Rattle.sv_flat.specs.Reads.{is_combinational};
ghost use Rattle.sv_flat.specs.Soundness.{piece_fits};
ghost use Rattle.sv_flat.specs.Values.{signal_width};
ghost use Rattle.sv_flat.specs.Views.{design_of, piece_form, process_kind, typed_tree};
ghost use Rattle.sv_obl.specs.BodySlices.{slice_statement};
ghost use Rattle.sv_obl.specs.MarkedBodies.{AreBodiesOf};
ghost use Rattle.sv_gates.specs.Extending.{Begins};
ghost use Rattle.sv_gates.specs.Formulas.{most_variables};
ghost use Rattle.sv_circuits.specs.Circuits.{IsWord};
ghost use Rattle.sv_encoding.specs.Bodies.{settled_word};
ghost use Rattle.sv_encoding.specs.BothWays.{IsWordOf};
ghost use Rattle.sv_blast.specs.WordTables.{words_of, StandForReads};
ghost use Rattle.sv_blast.specs.TargetWords.{starting_word, with_piece_of, assigned_word};
ghost use Rattle.sv_blast.specs.TargetWords.{target_word, IsReady, AreReady};

use crate::arms::{TargetArm, chosen_back, copied, push_arm};
use crate::expressions::{expression, is_true};
use crate::fan_in::FanIn;
use crate::followed::followed_word;
use crate::tables::WordTable;
use std::alloc::{AllocError, Global};
use sv_circuits::{falsity, filled, replaced};
use sv_design::Design;
use sv_flat::{FExpr, Piece, ProcKind, SigId, Signal};
use sv_gates::{GateFault, Gates, Literal};
use sv_obl::BodySlice;

// Whether a process of this kind is clocked.
fn is_clocked(kind: ProcKind) -> bool
    ensures { result ≡ is_clocked (process_kind kind) }
{
    matches!(kind, ProcKind::Clocked(_))
}

// Whether a driven signal is a register.
fn is_register(design: &Design, signal: SigId) -> bool
    requires known { signal.0 < length design.now.signals.items }
    requires driven { IsTrue (is_register (design_of design.now) signal.0
        || is_combinational (design_of design.now) signal.0) }
    ensures { result ≡ is_register (design_of design.now) signal.0 }
{
    match design.driver(signal) {
        Some(place) => is_clocked(design.processes()[place].kind),
        None => false,
    }
}

// The length of a signal in bits.
fn width_of(signals: &[Signal], signal: SigId) -> u8
    requires { signal.0 < length signals.now }
    ensures { result ≡ signal_width (signal_forms signals.now) signal.0 }
{
    signals[signal.0 as usize].width
}

// The target's word where its process begins: a register's own bits, and false ones of any other.
fn starting(
    alloc: Global,
    gates: &Gates,
    design: &Design,
    words: &WordTable,
    target: SigId,
) -> Result<Vec<Literal>, AllocError>
    requires known { target.0 < length design.now.signals.items }
    requires driven { IsTrue (is_register (design_of design.now) target.0
        || is_combinational (design_of design.now) target.0) }
    requires words { StandForReads (design_of design.now) gates.now.variables (words_of words.now)
        target.0 }
    ensures made { IfOk result (λ word.
        word.items ≡ starting_word (design_of design.now) (words_of words.now) target.0) }
    ensures within { IfOk result (λ word.
        IsWordOf (design_of design.now) target.0 gates.now.variables word.items) }
{
    if is_register(design, target) {
        copied(alloc, words.word(target))
    } else {
        let width = width_of(design.signals(), target);
        filled(alloc, falsity(gates), usize::from(width), &[])
    }
}

// The target's word after a piece of a right side.
fn with_piece(
    alloc: Global,
    target: SigId,
    piece: &Piece,
    right: &[Literal],
    word: Vec<Literal>,
) -> Result<Vec<Literal>, AllocError>
    requires { piece.now.low ≤ piece.now.high }
    ensures { IfOk result (λ made. made.items
        ≡ with_piece_of target.0 right.now word.items (piece_form piece.now)) }
{
    if piece.signal != target {
        return Ok(word);
    }
    let from = usize::from(piece.from).min(right.len());
    let (high, low) = (usize::from(piece.high), usize::from(piece.low));
    replaced(alloc, high, low, &word, &right[from..])
}

// The target's word after all pieces of a right side, in textual order.
fn with_pieces(
    alloc: Global,
    target: SigId,
    pieces: &[Piece],
    right: &[Literal],
    word: Vec<Literal>,
) -> Result<Vec<Literal>, AllocError>
    requires { All (λ piece. piece.low ≤ piece.high) pieces.now }
    ensures { IfOk result (λ made. made.items
        ≡ fold (with_piece_of target.0 right.now) word.items (map piece_form pieces.now)) }
{
    let mut word = word;
    for piece in pieces {
        word = with_piece(alloc, target, piece, right, word)?;
    }
    Ok(word)
}

// What a statement is encoded for: one target, where each signal has its word of a table.
#[derive(Clone, Copy)]
struct SliceEncoder<'a> {
    alloc: Global,
    signals: &'a [Signal],
    words: &'a WordTable,
    target: SigId,
}

impl SliceEncoder<'_> {
    // The target's word after an assignment.
    fn after_assignment(
        &self,
        gates: &mut Gates,
        pieces: &[Piece],
        value: &FExpr,
        word: Vec<Literal>,
    ) -> Result<Vec<Literal>, GateFault>
        requires ready { IsReady (signal_forms self.now.signals.now) gates.old.variables
            (words_of self.now.words.now) (typed_tree value.now) }
        requires inside { IsTrue (list_all
            (piece_fits (signal_forms self.now.signals.now) (typed_tree value.now))
            (map piece_form pieces.now)) }
        requires word { IsWord gates.old.variables word.items }
        requires width { length word.items
            ≡ signal_width (signal_forms self.now.signals.now) self.now.target.0 }
        ensures made { IfOk result (λ made.
            assigned_word (signal_forms self.now.signals.now) (words_of self.now.words.now)
            self.now.target.0 (map piece_form pieces.now) (typed_tree value.now) word.items
            gates.old ≡ (gates.new, made.items)) }
        ensures within { IfOk result (λ made. IsWord gates.new.variables made.items) }
        ensures width { IfOk result (λ made. length made.items
            ≡ signal_width (signal_forms self.now.signals.now) self.now.target.0) }
        ensures begins { Begins gates.old gates.new }
        ensures full { IsErrOf result GateFault.Full → most_variables
            < ((assigned_word (signal_forms self.now.signals.now) (words_of self.now.words.now)
            self.now.target.0 (map piece_form pieces.now) (typed_tree value.now) word.items
            gates.old).0).variables }
    {
        let _some = gates.variables();
        let right = expression(self.alloc, gates, self.signals, self.words, value)?;
        Ok(with_pieces(self.alloc, self.target, pieces, &right, word)?)
    }

    // The target's word after a slice. The first arms of a chain of branches are made on the way
    // down and the choices on the way back, so no call goes down here: a `case` may have many arms.
    #[cycle(statements)]
    fn after_slice(
        &self,
        slice: &BodySlice,
        gates: &mut Gates,
        word: Vec<Literal>,
    ) -> Result<Vec<Literal>, GateFault>
        requires ready { AreReady (signal_forms self.now.signals.now) gates.old.variables
            (words_of self.now.words.now) (slice_statement slice.now) }
        requires word { IsWord gates.old.variables word.items }
        requires width { length word.items
            ≡ signal_width (signal_forms self.now.signals.now) self.now.target.0 }
        ensures made { IfOk result (λ made.
            target_word (signal_forms self.now.signals.now) (words_of self.now.words.now)
            self.now.target.0 (slice_statement slice.now) word.items gates.old
            ≡ (gates.new, made.items)) }
        ensures within { IfOk result (λ made. IsWord gates.new.variables made.items) }
        ensures width { IfOk result (λ made. length made.items
            ≡ signal_width (signal_forms self.now.signals.now) self.now.target.0) }
        ensures begins { Begins gates.old gates.new }
        ensures full { IsErrOf result GateFault.Full → most_variables
            < ((target_word (signal_forms self.now.signals.now) (words_of self.now.words.now)
            self.now.target.0 (slice_statement slice.now) word.items gates.old).0).variables }
    {
        let mut arms = Vec::new(self.alloc);
        let mut rest = slice;
        while let BodySlice::Branch { cond, yes, no, .. } = rest {
            let condition = is_true(self.alloc, gates, self.signals, self.words, *cond)?;
            let before = copied(self.alloc, &word)?;
            let word = self.after_slice(yes, gates, before)?;
            push_arm(&mut arms, TargetArm { condition, word })?;
            rest = no;
        }
        let last = self.after_plain(rest, gates, word)?;
        chosen_back(self.alloc, gates, arms, last)
    }

    // The target's word after a slice that is no branch.
    #[cycle(statements)]
    fn after_plain(
        &self,
        slice: &BodySlice,
        gates: &mut Gates,
        word: Vec<Literal>,
    ) -> Result<Vec<Literal>, GateFault>
        requires plain { IsFalse (is_branch (slice_statement slice.now)) }
        requires ready { AreReady (signal_forms self.now.signals.now) gates.old.variables
            (words_of self.now.words.now) (slice_statement slice.now) }
        requires word { IsWord gates.old.variables word.items }
        requires width { length word.items
            ≡ signal_width (signal_forms self.now.signals.now) self.now.target.0 }
        ensures made { IfOk result (λ made.
            target_word (signal_forms self.now.signals.now) (words_of self.now.words.now)
            self.now.target.0 (slice_statement slice.now) word.items gates.old
            ≡ (gates.new, made.items)) }
        ensures within { IfOk result (λ made. IsWord gates.new.variables made.items) }
        ensures width { IfOk result (λ made. length made.items
            ≡ signal_width (signal_forms self.now.signals.now) self.now.target.0) }
        ensures begins { Begins gates.old gates.new }
        ensures full { IsErrOf result GateFault.Full → most_variables
            < ((target_word (signal_forms self.now.signals.now) (words_of self.now.words.now)
            self.now.target.0 (slice_statement slice.now) word.items gates.old).0).variables }
    {
        match slice {
            BodySlice::Nothing => Ok(word),
            BodySlice::Assign { pieces, value, .. } => {
                self.after_assignment(gates, *pieces, *value, word)
            }
            BodySlice::Chain { first, second } => {
                let middle = self.after_slice(first, gates, word)?;
                self.after_slice(second, gates, middle)
            }
            BodySlice::Branch { .. } => unreachable!(),
        }
    }
}

/// The word of a combinational signal in this cycle, or of a register in the next one, from the
/// words of what is read for it (IEEE 1364-2005, clauses 6 and 9). The bodies are the design's.
/// Where the process of the signal has no earlier read, its slice alone is walked.
/// `Full` says that variables ran out, `OutOfMemory` that memory did; then some gates may stay.
pub fn settled(
    alloc: Global,
    gates: &mut Gates,
    fan_in: &FanIn,
    target: SigId,
) -> Result<Vec<Literal>, GateFault>
    requires driven { IsTrue (is_register (design_of fan_in.now.design.now) target.0
        || is_combinational (design_of fan_in.now.design.now) target.0) }
    requires bodies { AreBodiesOf (design_of fan_in.now.design.now) fan_in.now.bodies.now }
    requires words { StandForReads (design_of fan_in.now.design.now) gates.old.variables
        (words_of fan_in.now.words.now) target.0 }
    ensures made { IfOk result (λ word. settled_word (design_of fan_in.now.design.now)
        (words_of fan_in.now.words.now) target.0 gates.old ≡ (gates.new, word.items)) }
    ensures within { IfOk result (λ word.
        IsWordOf (design_of fan_in.now.design.now) target.0 gates.new.variables word.items) }
    ensures begins { Begins gates.old gates.new }
    ensures full { IsErrOf result GateFault.Full → most_variables
        < ((settled_word (design_of fan_in.now.design.now) (words_of fan_in.now.words.now) target.0
        gates.old).0).variables }
{
    let design = fan_in.design;
    let signals = design.signals();
    if let Some(body) = fan_in.bodies.marked(design, target) {
        return followed_word(alloc, gates, fan_in, body, target);
    }
    let slice = fan_in.bodies.slice(alloc, design, target)?;
    let word = starting(alloc, gates, design, fan_in.words, target)?;
    let encoder = SliceEncoder {
        alloc,
        signals,
        words: fan_in.words,
        target,
    };
    encoder.after_slice(&slice, gates, word)
}
