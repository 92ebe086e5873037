// Lines of obligations, one after the other: those of the paths of a target, and of selectors.
ghost use Rattle.std.specs.Prelude.{◌≡◌, ◌+◌, ◌<◌, ◌≤◌, [], ◌∷◌, map, reverse, length, All, OnOk};
ghost use Rattle.std.specs.Prelude.{Contains};
ghost use Rattle.sv_flat.specs.ByNumber.{signal_forms};
ghost use Rattle.sv_flat.specs.Processes.{is_clocked};
ghost use Rattle.sv_flat.specs.Views.{process_form, process_kind, design_of};
ghost use Rattle.sv_flat.specs.Design.{FlatStatement};
ghost use Rattle.sv_paths.specs.Alongs.{conditions_along, trail_obligation};
ghost use Rattle.sv_paths.specs.Driven.{IsDriven};
ghost use Rattle.sv_paths.specs.ListLines.{step_word};
ghost use Rattle.sv_obl.specs.Obligations.{target_obligations};
ghost use Rattle.sv_obl.specs.Routes.{RouteForm};
ghost use Rattle.sv_paths.specs.RouteObligations.{names_on, route_obligation};
ghost use Rattle.sv_paths.specs.RouteViews.{route_form, route_forms};
ghost use Rattle.sv_paths.specs.Trails.{TrailForm};
ghost use Rattle.sv_paths.specs.TrailViews.{trail_form, trail_forms};
ghost use Rattle.sv_obl.specs.Views.{obligation_of, IsAmong};
ghost use Rattle.sv_paths.specs.Written.{mark_word, Writes};

use crate::list_lines::{DrivenTarget, push_line};
use crate::path_lines::push_path;
use crate::routes::Route;
use crate::targets::{DrivenPaths, Paths};
use crate::trail_lines::push_trail;
use crate::trails::Trail;
use std::alloc::{AllocError, Global};
use sv_design::Design;
use sv_flat::{SigId, Signal};
use sv_obl::Query;

/// Lines, and how many they are.
#[derive(Debug, Drop)]
pub struct NumberedLines {
    pub text: Vec<u8>,
    pub count: u32,
}

impl NumberedLines {
    /// No lines, behind so many.
    pub fn after(alloc: Global, count: u32) -> NumberedLines
        ensures text { result.text.items ≡ [] }
        ensures count { result.count ≡ count }
    {
        NumberedLines {
            text: Vec::new(alloc),
            count,
        }
    }
}

// Adds the line of an obligation.
fn push_query(
    alloc: Global,
    lines: &mut NumberedLines,
    signals: &[Signal],
    query: &Query,
) -> Result<(), AllocError>
    requires among { IsAmong (length signals.now) (obligation_of query.now) }
    requires few { lines.old.count < 65536 }
    ensures { OnOk result
        (Writes (signal_forms signals.now) (obligation_of query.now ∷ []) lines.old lines.new) }
{
    let number = lines.count + 1;
    push_line(alloc, &mut lines.text, signals, number, query)?;
    lines.count = number;
    Ok(())
}

/// Adds those of some obligations.
pub fn push_queries(
    alloc: Global,
    lines: &mut NumberedLines,
    signals: &[Signal],
    queries: &[Query],
) -> Result<(), AllocError>
    requires among { All (IsAmong (length signals.now)) (map obligation_of queries.now) }
    requires few { lines.old.count + length queries.now ≤ 65536 }
    ensures { OnOk result
        (Writes (signal_forms signals.now) (map obligation_of queries.now) lines.old lines.new) }
{
    for query in queries {
        push_query(alloc, lines, signals, query)?;
    }
    Ok(())
}

// Adds the line of a path of the target through the process.
fn push_route(
    alloc: Global,
    lines: &mut NumberedLines,
    driven: DrivenTarget,
    route: &Route,
) -> Result<(), AllocError>
    requires known { driven.target.0 < length driven.signals.now }
    requires names { All (λ t. t < length driven.signals.now)
        (names_on (is_clocked (process_kind driven.process.now.kind)) driven.target.0
        (route_form route.now)) }
    requires few { lines.old.count < 65536 }
    ensures { OnOk result (Writes (signal_forms driven.entry.signals.now)
        (route_obligation (length driven.entry.signals.now) (process_form driven.entry.process.now)
        driven.entry.target.0 (route_form route.now) ∷ []) lines.old lines.new) }
{
    let number = lines.count + 1;
    push_path(alloc, &mut lines.text, driven, number, route)?;
    lines.count = number;
    Ok(())
}

// Adds those of paths of the target through the process.
fn push_routes(
    alloc: Global,
    lines: &mut NumberedLines,
    driven: DrivenTarget,
    routes: &[Route],
) -> Result<(), AllocError>
    requires known { driven.target.0 < length driven.signals.now }
    requires names { (route : RouteForm) → Contains (route_forms routes.now) route
        → All (λ t. t < length driven.signals.now)
        (names_on (is_clocked (process_kind driven.process.now.kind)) driven.target.0 route) }
    requires few { lines.old.count + length routes.now ≤ 65536 }
    ensures { OnOk result (Writes (signal_forms driven.entry.signals.now)
        (map (route_obligation (length driven.entry.signals.now)
        (process_form driven.entry.process.now)
        driven.entry.target.0) (route_forms routes.now)) lines.old lines.new) }
{
    for route in routes {
        push_route(alloc, lines, driven, route)?;
    }
    Ok(())
}

// Adds the line of a path through a body with earlier reads.
fn push_trail_line(
    alloc: Global,
    lines: &mut NumberedLines,
    driven: DrivenTarget,
    trail: &Trail,
) -> Result<(), AllocError>
    requires known { driven.target.0 < length driven.signals.now }
    requires names { All (λ t. t < length driven.signals.now) trail.now.names.settled.keys }
    requires few { lines.old.count < 65536 }
    ensures line { (body : FlatStatement)
        → map step_word (conditions_along
        (signal_forms driven.entry.signals.now) driven.entry.target.0 body
        (trail_form trail.now)) ≡ map mark_word (reverse trail.now.marks.items)
        → OnOk result (Writes (signal_forms driven.entry.signals.now) (trail_obligation
        (signal_forms driven.entry.signals.now)
        (process_form driven.entry.process.now) driven.entry.target.0 body
        (trail_form trail.now) ∷ []) lines.old lines.new) }
    ensures count { OnOk result (lines.new.count ≡ lines.old.count + 1) }
{
    let number = lines.count + 1;
    push_trail(alloc, &mut lines.text, driven, number, trail)?;
    lines.count = number;
    Ok(())
}

// Adds those of paths through such a body.
fn push_trails(
    alloc: Global,
    lines: &mut NumberedLines,
    driven: DrivenTarget,
    trails: &[Trail],
) -> Result<(), AllocError>
    requires known { driven.target.0 < length driven.signals.now }
    requires names { (trail : TrailForm) → Contains (trail_forms trails.now) trail
        → All (λ t. t < length driven.signals.now) trail.names.settled }
    requires few { lines.old.count + length trails.now ≤ 65536 }
    ensures { (body : FlatStatement) → ((trail : TrailForm)
        → Contains (trail_forms trails.now) trail
        → map step_word (conditions_along
        (signal_forms driven.entry.signals.now) driven.entry.target.0 body
        trail) ≡ map mark_word (reverse trail.marks))
        → OnOk result (Writes (signal_forms driven.entry.signals.now) (map (trail_obligation
        (signal_forms driven.entry.signals.now)
        (process_form driven.entry.process.now) driven.entry.target.0 body)
        (trail_forms trails.now)) lines.old lines.new) }
{
    for trail in trails {
        push_trail_line(alloc, lines, driven, trail)?;
    }
    Ok(())
}

/// Adds those of a target of a design with these signals, given its paths if a process drives it.
pub fn push_paths(
    alloc: Global,
    lines: &mut NumberedLines,
    design: &Design,
    target: SigId,
    found: &Option<DrivenPaths>,
) -> Result<(), AllocError>
    requires known { target.0 < length design.now.signals.items }
    requires driven { IsDriven (design_of design.now) target.0 lines.old.count found.now }
    ensures { OnOk result (Writes (design_of design.now).signals
        (target_obligations [] (design_of design.now) target.0) lines.old lines.new) }
{
    match found {
        Some(driven) => {
            let at = DrivenTarget {
                signals: design.signals(),
                process: driven.process,
                target,
            };
            match &driven.paths {
                Paths::Routes(routes) => push_routes(alloc, lines, at, routes),
                Paths::Trails(_, trails) => push_trails(alloc, lines, at, trails),
            }
        }
        None => Ok(()),
    }
}
