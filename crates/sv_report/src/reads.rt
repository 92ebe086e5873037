// The first read whose label does not flow.
ghost use Rattle.std.specs.Prelude.{◌≡◌, ℕ, ◌<◌, not, length, find, All, IfOk};
ghost use Rattle.sv_flat.specs.ByNumber.{by_number, FitSignals};
ghost use Rattle.sv_flat.specs.FlatSystem.{flat_system};
ghost use Rattle.sv_flat.specs.Views.{design_of};
ghost use Rattle.sv_design.specs.Designs.{IsDesign};
ghost use Rattle.sv_design.specs.Numbers.{numbers, number_if_any};
ghost use Rattle.sv_obl.specs.DesignQueries.{IsQueryOf};
ghost use Rattle.sv_obl.specs.Validity.{goal_frame, Falsifies};
ghost use Rattle.sv_obl.specs.Valuations.{FitsDesign, valuation_of};
ghost use Rattle.sv_obl.specs.Views.{goal_form, obligation_of};
ghost use Rattle.sv_report.specs.FlowText.{AsksFlow, asked_signal, IsFirstToStay};

use crate::frames::frames_of;
use std::alloc::{AllocError, Global};
use sv_design::Design;
use sv_flat::SigId;
use sv_lattice::{Point, label_at};
use sv_obl::{Frame, Goal, Query, Valuation};

/// The signal to whose label those of the reads are to flow, and the cycle in which it is taken.
#[derive(Clone, Copy)]
pub struct Asked {
    pub signal: SigId,
    pub frame: Frame,
}

/// What a goal asks.
pub fn asked_by(goal: &Goal) -> Asked
    requires { AsksFlow (goal_form goal.now) }
    ensures signal { result.signal.0 ≡ asked_signal (goal_form goal.now) }
    ensures frame { result.frame ≡ goal_frame (goal_form goal.now) }
{
    match goal {
        Goal::Flow { target, frame } => Asked {
            signal: *target,
            frame: *frame,
        },
        Goal::Selector { signal } => Asked {
            signal: *signal,
            frame: Frame::Now,
        },
        Goal::Holds { .. } => unreachable!(),
    }
}

/// The first read of an obligation that fails at the values, whose label does not flow. It fails
/// where memory runs out.
pub fn first_to_stay(
    alloc: Global,
    design: &Design,
    query: &Query,
    v: &Valuation,
) -> Result<SigId, AllocError>
    requires query { IsQueryOf (design_of design.now) (obligation_of query.now) }
    requires flow { AsksFlow (goal_form query.now.goal) }
    requires fits { FitsDesign (design_of design.now) v.now }
    requires fails { Falsifies (design_of design.now) (valuation_of (design_of design.now) v.now)
        (obligation_of query.now) }
    ensures first { IfOk result (λ read. IsFirstToStay (design_of design.now)
        (obligation_of query.now) (valuation_of (design_of design.now) v.now) read.0) }
    ensures known { IfOk result (λ read. read.0 < length design.now.signals.items) }
{
    let asked = asked_by(&query.goal);
    let frames = frames_of(alloc, design, asked.frame, v)?;
    let point = label_in(design, asked.signal, &frames.there);
    Ok(first_staying(design, &query.reads, &frames.here, point).unwrap())
}

/// The label of a signal where all have these values.
pub fn label_in(design: &Design, s: SigId, values: &[u64]) -> Point
    requires known { s.0 < length design.now.signals.items }
    requires fit { FitSignals (design_of design.now).signals values.now }
    ensures label { result ≡
        (flat_system (design_of design.now)).label s.0 (by_number values.now) }
    ensures point { result.0 < length design.now.lattice }
    ensures design { IsDesign (design_of design.now) }
{
    let signals = design.signals();
    // brings that the lattice has a point
    let _least = design.lattice().least();
    label_at(design.maps(), &signals[s.0 as usize].label, values)
}

// Whether the label of a read does not flow to the point.
fn stays(design: &Design, read: SigId, values: &[u64], point: Point) -> bool
    requires known { read.0 < length design.now.signals.items }
    requires fit { FitSignals (design_of design.now).signals values.now }
    requires point { point.0 < length design.now.lattice }
    ensures { let system = flat_system (design_of design.now) in
        result ≡ not (system.flows (system.label read.0 (by_number values.now)) point) }
{
    !design
        .lattice()
        .flows(label_in(design, read, values), point)
}

// The first read whose label does not flow to the point.
fn first_staying(design: &Design, reads: &[SigId], values: &[u64], point: Point) -> Option<SigId>
    requires known { All (λ (s : ℕ). s < length design.now.signals.items) (numbers reads.now) }
    requires fit { FitSignals (design_of design.now).signals values.now }
    requires point { point.0 < length design.now.lattice }
    ensures { let system = flat_system (design_of design.now) in
        number_if_any result ≡ find (λ s.
        not (system.flows (system.label s (by_number values.now)) point)) (numbers reads.now) }
{
    reads
        .iter()
        .find(|read| stays(design, **read, values, point))
        .copied()
}
