// Whether values of a cycle meet the facts of an obligation, take its path and fail its goal.
ghost use Rattle.std.specs.Prelude.{◌≡◌, ◌<◌, ◌&&◌, not, IsTrue, All, length, map};
ghost use Rattle.std.specs.Bool.{beq};
ghost use Rattle.std.specs.List.{list_all, list_any};
ghost use Rattle.sv_flat.specs.ByNumber.{by_number, FitSignals};
ghost use Rattle.sv_flat.specs.FlatSystem.{flat_system};
ghost use Rattle.sv_flat.specs.Soundness.{well_formed};
ghost use Rattle.sv_flat.specs.Views.{design_of, typed_tree};
ghost use Rattle.sv_flat.specs.declared.expressions.FExpr.{FExpr};
ghost use Rattle.sv_flat.specs.declared.signals.SigId.{SigId};
ghost use Rattle.sv_obl.specs.DesignQueries.{IsQueryOf};
ghost use Rattle.sv_obl.specs.PathValues.{is_true_in};
ghost use Rattle.sv_obl.specs.Views.{obligation_of, goal_form};
ghost use Rattle.sv_obl.specs.declared.queries.PathStep.{PathStep};
ghost use Rattle.sv_decide.specs.Simulating.{asked_in, IsAskable, fails_by, shows_failing};

use sv_design::Design;
use sv_flat::{FExpr, SigId, value_of};
use sv_lattice::{Point, label_at};
use sv_obl::{Goal, PathStep, Query};

/// What a goal asks of the cycle of its frame.
#[derive(Clone, Copy)]
pub enum EvaluatedGoal {
    /// That the labels of the reads flow to this point.
    Flow(Point),
    /// That this is true.
    Truth(bool),
}

// Whether an expression is not 0.
fn is_true(design: &Design, values: &[u64], expr: &FExpr) -> bool
    requires formed { IsTrue (well_formed (design_of design.now).signals (typed_tree expr.now)) }
    requires fit { FitSignals (design_of design.now).signals values.now }
    ensures { result ≡ is_true_in (design_of design.now).signals (by_number values.now)
        (typed_tree expr.now) }
{
    value_of(expr, design.signals(), values) != 0
}

// The point of a signal's label.
fn point_of(design: &Design, values: &[u64], signal: SigId) -> Point
    requires signal { signal.0 < length design.now.signals.items }
    requires fit { FitSignals (design_of design.now).signals values.now }
    ensures point { result ≡
        (flat_system (design_of design.now)).label signal.0 (by_number values.now) }
    ensures known { result.0 < length design.now.lattice }
{
    let lattice = design.lattice();
    let _size = lattice.size();
    let signals = design.signals();
    label_at(design.maps(), &signals[signal.0 as usize].label, values)
}

/// What the goal of an obligation asks of these values.
pub fn asked_by(design: &Design, values: &[u64], query: &Query) -> EvaluatedGoal
    requires query { IsQueryOf (design_of design.now) (obligation_of query.now) }
    requires fit { FitSignals (design_of design.now).signals values.now }
    ensures asked { result ≡ asked_in (design_of design.now) (by_number values.now)
        (goal_form query.now.goal) }
    ensures askable { IsAskable (design_of design.now) result }
{
    match &query.goal {
        Goal::Flow { target, .. } => EvaluatedGoal::Flow(point_of(design, values, *target)),
        Goal::Holds { expr, .. } => EvaluatedGoal::Truth(is_true(design, values, expr)),
        Goal::Selector { signal } => EvaluatedGoal::Flow(point_of(design, values, *signal)),
    }
}

// Whether all facts are not 0.
fn meets_facts(design: &Design, values: &[u64], facts: &[FExpr]) -> bool
    requires formed { All (λ (fact : FExpr).
        IsTrue (well_formed (design_of design.now).signals (typed_tree fact))) facts.now }
    requires fit { FitSignals (design_of design.now).signals values.now }
    ensures { result ≡ list_all (λ (fact : FExpr). is_true_in (design_of design.now).signals
        (by_number values.now) (typed_tree fact)) facts.now }
{
    facts.iter().all(|fact| is_true(design, values, fact))
}

// Whether each condition has its truth.
fn takes_path(design: &Design, values: &[u64], path: &[PathStep]) -> bool
    requires formed { All (λ (step : PathStep).
        IsTrue (well_formed (design_of design.now).signals (typed_tree step.cond))) path.now }
    requires fit { FitSignals (design_of design.now).signals values.now }
    ensures { result ≡ list_all (λ (step : PathStep). beq (is_true_in (design_of design.now).signals
        (by_number values.now) (typed_tree step.cond)) step.truth) path.now }
{
    path.iter()
        .all(|step| is_true(design, values, &step.cond) == step.truth)
}

// Whether the label of a signal does not flow to a point.
fn stays(design: &Design, values: &[u64], signal: SigId, point: Point) -> bool
    requires signal { signal.0 < length design.now.signals.items }
    requires point { point.0 < length design.now.lattice }
    requires fit { FitSignals (design_of design.now).signals values.now }
    ensures { result ≡ not ((flat_system (design_of design.now)).flows
        ((flat_system (design_of design.now)).label signal.0 (by_number values.now)) point) }
{
    !design
        .lattice()
        .flows(point_of(design, values, signal), point)
}

// Whether the label of some read does not flow to a point.
fn some_stays(design: &Design, values: &[u64], reads: &[SigId], point: Point) -> bool
    requires reads { All (λ (s : SigId). s.0 < length design.now.signals.items) reads.now }
    requires point { point.0 < length design.now.lattice }
    requires fit { FitSignals (design_of design.now).signals values.now }
    ensures { result ≡ list_any (λ (s : SigId). not ((flat_system (design_of design.now)).flows
        ((flat_system (design_of design.now)).label s.0 (by_number values.now)) point)) reads.now }
{
    reads
        .iter()
        .any(|signal| stays(design, values, *signal, point))
}

// Whether the goal that asks this fails.
fn fails_by(design: &Design, values: &[u64], reads: &[SigId], asked: EvaluatedGoal) -> bool
    requires reads { All (λ (s : SigId). s.0 < length design.now.signals.items) reads.now }
    requires asked { IsAskable (design_of design.now) asked }
    requires fit { FitSignals (design_of design.now).signals values.now }
    ensures { result ≡ fails_by (design_of design.now) (map (λ (s : SigId). s.0) reads.now)
        (by_number values.now) asked }
{
    match asked {
        EvaluatedGoal::Flow(point) => some_stays(design, values, reads, point),
        EvaluatedGoal::Truth(holds) => !holds,
    }
}

// Whether these values meet the facts, take the path, and fail a goal on the reads that asks this.
fn parts_fail(
    design: &Design,
    values: &[u64],
    facts: &[FExpr],
    path: &[PathStep],
    reads: &[SigId],
    asked: EvaluatedGoal,
) -> bool
    requires facts { All (λ (fact : FExpr).
        IsTrue (well_formed (design_of design.now).signals (typed_tree fact))) facts.now }
    requires path { All (λ (step : PathStep).
        IsTrue (well_formed (design_of design.now).signals (typed_tree step.cond))) path.now }
    requires reads { All (λ (s : SigId). s.0 < length design.now.signals.items) reads.now }
    requires asked { IsAskable (design_of design.now) asked }
    requires fit { FitSignals (design_of design.now).signals values.now }
    ensures { result ≡ (list_all (λ (fact : FExpr). is_true_in (design_of design.now).signals
        (by_number values.now) (typed_tree fact)) facts.now
        && list_all (λ (step : PathStep). beq (is_true_in (design_of design.now).signals
        (by_number values.now) (typed_tree step.cond)) step.truth) path.now
        && fails_by (design_of design.now) (map (λ (s : SigId). s.0) reads.now)
        (by_number values.now) asked) }
{
    meets_facts(design, values, facts)
        && takes_path(design, values, path)
        && fails_by(design, values, reads, asked)
}

/// Whether these values meet the facts, take the path, and fail a goal that asks this.
pub fn shows_failing(design: &Design, values: &[u64], query: &Query, asked: EvaluatedGoal) -> bool
    requires query { IsQueryOf (design_of design.now) (obligation_of query.now) }
    requires asked { IsAskable (design_of design.now) asked }
    requires fit { FitSignals (design_of design.now).signals values.now }
    ensures { result ≡ shows_failing (design_of design.now) (obligation_of query.now)
        (by_number values.now) asked }
{
    parts_fail(
        design,
        values,
        &query.facts,
        &query.path,
        &query.reads,
        asked,
    )
}
