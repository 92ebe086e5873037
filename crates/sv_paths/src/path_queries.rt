// The obligation of one path.
ghost use Rattle.std.specs.Prelude.{◌≡◌, ℕ, ◌<◌, map, reverse, Some, All, IfOk, if◌then◌else◌};
ghost use Rattle.sv_flat.specs.Processes.{is_clocked};
ghost use Rattle.sv_flat.specs.Views.{process_kind, process_form};
ghost use Rattle.sv_obl.specs.Obligations.{is_link, frame_of};
ghost use Rattle.sv_paths.specs.RouteObligations.{names_on, route_obligation};
ghost use Rattle.sv_paths.specs.RouteViews.{step_ref_form, route_form};
ghost use Rattle.sv_obl.specs.Views.{step_form, obligation_of};

use crate::reads::reads_of;
use crate::routes::{Route, StepRef};
use std::alloc::{AllocError, Global};
use sv_flat::{ProcKind, Process, SigId};
use sv_num::Place;
use sv_obl::{Frame, Goal, PathStep, Query};

/// Whether a process of this kind is clocked.
pub fn is_clocked(kind: ProcKind) -> bool
    ensures { result ≡ is_clocked (process_kind kind) }
{
    matches!(kind, ProcKind::Clocked(_))
}

fn is_link(kind: ProcKind) -> bool
    ensures { result ≡ is_link (process_kind kind) }
{
    matches!(kind, ProcKind::PortIn | ProcKind::PortOut)
}

/// The frame in which a process of this kind drives its targets.
pub fn frame_of(kind: ProcKind) -> Frame
    ensures { result ≡ frame_of (process_kind kind) }
{
    match kind {
        ProcKind::Clocked(_) => Frame::Next,
        _ => Frame::Now,
    }
}

/// The place where a path through the process ends; that of a link is its expression's.
pub fn place_of(process: &Process, place: Option<Place>) -> Option<Place>
    ensures { result ≡
        (if is_link (process_kind process.now.kind) then Some process.now.place else place) }
{
    if is_link(process.kind) {
        Some(process.place)
    } else {
        place
    }
}

// The conditions in textual order, with expressions of their own.
fn steps_of(alloc: Global, refs: &[StepRef]) -> Result<Vec<PathStep>, AllocError>
    ensures { IfOk result (λ steps.
        map step_form steps.items ≡ reverse (map step_ref_form refs.now)) }
{
    let mut steps = Vec::with_capacity(alloc, refs.len())?;
    for i in 0..refs.len() {
        let step = &refs[refs.len() - 1 - i];
        steps.push(PathStep {
            place: step.place,
            cond: step.cond.copy(alloc)?,
            truth: step.truth,
        })?;
    }
    Ok(steps)
}

/// The obligation of a path of the target through the process; an error where memory runs out.
pub fn query_of(
    alloc: Global,
    process: &Process,
    target: SigId,
    route: &Route,
) -> Result<Query, AllocError>
    ensures { (n : ℕ) → All (λ t. t < n)
        (names_on (is_clocked (process_kind process.now.kind)) target.0 (route_form route.now))
        → IfOk result (λ query. obligation_of query
        ≡ route_obligation n (process_form process.now) target.0 (route_form route.now)) }
{
    let path = steps_of(alloc, &route.steps)?;
    let reads = reads_of(alloc, is_clocked(process.kind), target, route)?;
    Ok(Query {
        facts: Vec::new(alloc),
        path,
        right: place_of(process, route.place),
        reads,
        goal: Goal::Flow {
            target,
            frame: frame_of(process.kind),
        },
    })
}
