// The literals of an obligation's goal.
ghost use Rattle.std.specs.Prelude.{◌≡◌, ◌<◌, IfOk, IsErrOf, All, map, length};
ghost use Rattle.sv_flat.specs.Views.{design_of};
ghost use Rattle.sv_gates.specs.Extending.{Begins};
ghost use Rattle.sv_gates.specs.Formulas.{IsLiteral, most_variables};
ghost use Rattle.sv_obl.specs.Views.{goal_form};
ghost use Rattle.sv_encoding.specs.Encoding.{words_in, target_label, violation};
ghost use Rattle.sv_blast.specs.LabelViews.{label_form, AreWithin};
ghost use Rattle.sv_blast.specs.Goals.{IsTargetReady, IsHeldReady};
ghost use Rattle.sv_blast.specs.WordTables.{words_of};

use crate::expressions::is_true;
use crate::labels::{PointLiteral, signal_label, some_stays};
use crate::tables::WordTable;
use std::alloc::Global;
use sv_design::Design;
use sv_gates::{GateFault, Gates, Literal};
use sv_obl::{Frame, Goal};

/// A design unrolled over two cycles: the words of its signals in this one and in the next one.
#[derive(Clone, Copy)]
pub struct Unrolled<'a> {
    pub design: &'a Design,
    pub now_words: &'a WordTable,
    pub next_words: &'a WordTable,
}

// The words of a frame.
fn words_in<'a>(frame: Frame, now: &'a WordTable, next: &'a WordTable) -> &'a WordTable
    ensures { words_of result.now ≡ words_in frame (words_of now.now) (words_of next.now) }
{
    match frame {
        Frame::Now => now,
        Frame::Next => next,
    }
}

/// The label of what a goal is about, and none where an expression is to hold.
/// `Full` says that variables ran out, `OutOfMemory` that memory did; then some gates may stay.
pub fn target_label(
    alloc: Global,
    gates: &mut Gates,
    unrolled: &Unrolled,
    goal: &Goal,
) -> Result<Vec<PointLiteral>, GateFault>
    requires { IsTargetReady (design_of unrolled.now.design.now) gates.old.variables
        (words_of unrolled.now.now_words.now) (words_of unrolled.now.next_words.now)
        (goal_form goal.now) }
    ensures made { IfOk result (λ label. target_label (design_of unrolled.now.design.now)
        (words_of unrolled.now.now_words.now) (words_of unrolled.now.next_words.now)
        (goal_form goal.now) gates.old ≡ (gates.new, label_form label.items)) }
    ensures within { IfOk result (λ label.
        AreWithin gates.new.variables (label_form label.items)) }
    ensures points { IfOk result (λ label.
        All (λ p. p.point.0 < length unrolled.now.design.now.lattice) label.items) }
    ensures begins { Begins gates.old gates.new }
    ensures full { IsErrOf result GateFault.Full → most_variables
        < ((target_label (design_of unrolled.now.design.now) (words_of unrolled.now.now_words.now)
        (words_of unrolled.now.next_words.now) (goal_form goal.now) gates.old).0).variables }
{
    let design = unrolled.design;
    match goal {
        Goal::Flow {
            target,
            frame: Frame::Now,
        } => signal_label(alloc, gates, design, unrolled.now_words, *target),
        Goal::Flow {
            target,
            frame: Frame::Next,
        } => signal_label(alloc, gates, design, unrolled.next_words, *target),
        Goal::Holds { .. } => Ok(Vec::new(alloc)),
        Goal::Selector { signal } => {
            signal_label(alloc, gates, design, unrolled.now_words, *signal)
        }
    }
}

/// The literal that says that a goal fails, by the label that it is about and those of the reads.
/// `Full` says that variables ran out, `OutOfMemory` that memory did; then some gates may stay.
pub fn violation(
    alloc: Global,
    gates: &mut Gates,
    unrolled: &Unrolled,
    target: &[PointLiteral],
    reads: &[Vec<PointLiteral>],
    goal: &Goal,
) -> Result<Literal, GateFault>
    requires held { IsHeldReady (design_of unrolled.now.design.now) gates.old.variables
        (words_of unrolled.now.now_words.now) (words_of unrolled.now.next_words.now)
        (goal_form goal.now) }
    requires points { All (All (λ p. p.point.0 < length unrolled.now.design.now.lattice))
        (map (λ label. label.items) reads.now) }
    requires target_points { All (λ p. p.point.0 < length unrolled.now.design.now.lattice)
        target.now }
    requires labels { All (AreWithin gates.old.variables)
        (map (λ label. label_form label.items) reads.now) }
    requires target { AreWithin gates.old.variables (label_form target.now) }
    ensures made { IfOk result (λ literal. violation (design_of unrolled.now.design.now)
        (words_of unrolled.now.now_words.now) (words_of unrolled.now.next_words.now)
        (label_form target.now) (map (λ label. label_form label.items) reads.now)
        (goal_form goal.now) gates.old ≡ (gates.new, literal)) }
    ensures within { IfOk result (IsLiteral gates.new.variables) }
    ensures begins { Begins gates.old gates.new }
    ensures full { IsErrOf result GateFault.Full → most_variables
        < ((violation (design_of unrolled.now.design.now) (words_of unrolled.now.now_words.now)
        (words_of unrolled.now.next_words.now) (label_form target.now)
        (map (λ label. label_form label.items) reads.now) (goal_form goal.now)
        gates.old).0).variables }
{
    match goal {
        Goal::Flow { .. } => some_stays(gates, unrolled.design, reads, target),
        Goal::Holds { expr, frame } => {
            let words = words_in(*frame, unrolled.now_words, unrolled.next_words);
            Ok(is_true(alloc, gates, unrolled.design.signals(), words, expr)?.negated())
        }
        Goal::Selector { .. } => some_stays(gates, unrolled.design, reads, target),
    }
}
