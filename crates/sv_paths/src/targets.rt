// The paths of targets, and their obligations.
ghost use Rattle.std.specs.Prelude.{◌≡◌, ℕ, ◌<◌, ◌≤◌, [], length, Some, IfOk, slice_get};
ghost use Rattle.sv_flat.specs.ByNumber.{signal_forms};
ghost use Rattle.sv_flat.specs.Design.{FlatDesign};
ghost use Rattle.sv_flat.specs.Views.{design_of};
ghost use Rattle.sv_design.specs.Designs.{IsDesign};
ghost use Rattle.sv_paths.specs.Answers.{Answers, excess_at};
ghost use Rattle.sv_paths.specs.Alongs.{is_large_trail};
ghost use Rattle.sv_paths.specs.Driven.{how_many, HasPaths, IsDriven, ArePathsWalked};
ghost use Rattle.sv_obl.specs.MarkedBodies.{marked_statement, TellsTargets, AreBodiesOf};
ghost use Rattle.sv_paths.specs.Trails.{open_trail, trails_before};
ghost use Rattle.sv_paths.specs.TrailViews.{trail_forms};
ghost use Rattle.sv_obl.specs.Obligations.{target_obligations};
ghost use Rattle.sv_obl.specs.Routes.{open_route, routes_before};
ghost use Rattle.sv_paths.specs.RouteObligations.{is_large, excess_by};
ghost use Rattle.sv_obl.specs.IndexedBodies.{looked_up};
ghost use Rattle.sv_paths.specs.RouteViews.{route_forms, Finds};
ghost use Rattle.sv_obl.specs.Views.{obligation_of};

use crate::faults::{MOST_OBLIGATIONS, OblFault, WalkFault};
use crate::nodes::{some_large, some_trail_large};
use crate::path_queries::query_of;
use crate::routes::Route;
use crate::trail_queries::trail_query;
use crate::trail_walks::trails_of;
use crate::trails::Trail;
use crate::walks::routes_of;
use std::alloc::{AllocError, Global};
use sv_design::Design;
use sv_flat::{Process, SigId, Signal};
use sv_obl::{Bodies, Indexed, Marked, Query, slice_for};

/// How many signals the design has.
pub fn count_of(design: &Design) -> u32
    ensures count { result ≡ length design.now.signals.items }
    ensures design { IsDesign (design_of design.now) }
{
    design.signals().len() as u32
}

/// Paths of a target: routes through a body without an earlier read, and trails through one that
/// has some.
#[derive(Drop)]
pub enum Paths<'m, 'a> {
    Routes(Vec<Route<'a>>),
    Trails(&'m Marked<'a>, Vec<Trail>),
}

impl<'m, 'a> Paths<'m, 'a> {
    /// How many they are.
    pub fn len(&self) -> usize
        ensures { result ≡ how_many self.now }
    {
        match self {
            Paths::Routes(routes) => routes.len(),
            Paths::Trails(_, trails) => trails.len(),
        }
    }
}

/// The paths of a target through the process that drives it.
#[derive(Drop)]
pub struct DrivenPaths<'d, 'm, 'a> {
    pub process: &'d Process,
    pub paths: Paths<'m, 'a>,
}

// The paths of the target through the process, where they are few enough.
fn paths_of<'a>(
    alloc: Global,
    signals: &[Signal],
    indexed: &Indexed<'a>,
    target: SigId,
) -> Result<Vec<Route<'a>>, OblFault>
    requires { target.0 < length signals.now }
    ensures { Finds target.0 (routes_before (signal_forms signals.now) target.0
        (looked_up target.0 indexed.now) open_route) result }
{
    let slice = slice_for(indexed, alloc, target)?;
    match routes_of(alloc, signals, target, &slice) {
        Ok(routes) => Ok(routes),
        Err(WalkFault::TooMany) => Err(OblFault::Paths(target)),
        Err(WalkFault::OutOfMemory) => Err(OblFault::OutOfMemory),
    }
}

// The paths of the target through the process, where they keep all limits after so many
// obligations.
fn paths_within<'a>(
    alloc: Global,
    signals: &[Signal],
    indexed: &Indexed<'a>,
    target: SigId,
    total: usize,
) -> Result<Vec<Route<'a>>, OblFault>
    requires known { target.0 < length signals.now }
    requires few { total ≤ 65536 }
    ensures excess { Answers (excess_by is_large target.0 total (routes_before
        (signal_forms signals.now) target.0 (looked_up target.0 indexed.now) open_route)) result }
    ensures routes { IfOk result (λ routes. route_forms routes.items ≡ routes_before
        (signal_forms signals.now) target.0 (looked_up target.0 indexed.now) open_route) }
{
    let routes = paths_of(alloc, signals, indexed, target)?;
    if some_large(&routes) {
        return Err(OblFault::Large(target));
    }
    if total + routes.len() > MOST_OBLIGATIONS {
        return Err(OblFault::Many);
    }
    Ok(routes)
}

// The paths of the target through a body with earlier reads, where they keep all limits after so
// many obligations.
fn trails_within(
    alloc: Global,
    signals: &[Signal],
    body: &Marked,
    target: SigId,
    total: usize,
) -> Result<Vec<Trail>, OblFault>
    requires known { target.0 < length signals.now }
    requires tells { TellsTargets body.now }
    requires few { total ≤ 65536 }
    ensures excess { Answers (excess_by is_large_trail target.0 total (trails_before
        (signal_forms signals.now) target.0 (marked_statement body.now) (open_trail target.0)))
        result }
    ensures trails { IfOk result (λ trails. trail_forms trails.items ≡ trails_before
        (signal_forms signals.now) target.0 (marked_statement body.now) (open_trail target.0)) }
{
    let trails = match trails_of(alloc, signals, target, body) {
        Ok(trails) => trails,
        Err(WalkFault::TooMany) => return Err(OblFault::Paths(target)),
        Err(WalkFault::OutOfMemory) => return Err(OblFault::OutOfMemory),
    };
    if some_trail_large(&trails) {
        return Err(OblFault::Large(target));
    }
    if total + trails.len() > MOST_OBLIGATIONS {
        return Err(OblFault::Many);
    }
    Ok(trails)
}

/// The target's paths through the process that drives it, if one does, where they keep all limits
/// after so many obligations, given the bodies of the processes.
pub fn driven_paths<'d, 'm, 'a>(
    alloc: Global,
    design: &'d Design,
    bodies: &'m Bodies<'a>,
    target: SigId,
    total: usize,
) -> Result<Option<DrivenPaths<'d, 'm, 'a>>, OblFault>
    requires known { target.0 < length design.now.signals.items }
    requires bodies { AreBodiesOf (design_of design.now) bodies.now }
    requires few { total ≤ 65536 }
    ensures excess { Answers (excess_at (design_of design.now) total target.0) result }
    ensures driven { IfOk result (IsDriven (design_of design.now) target.0 total) }
    ensures design { IsDesign (design_of design.now) }
{
    match design.driver(target) {
        Some(place) => {
            let process = &design.processes()[place];
            match &bodies.marked[place] {
                Some(body) => {
                    let trails = trails_within(alloc, design.signals(), body, target, total)?;
                    Ok(Some(DrivenPaths {
                        process,
                        paths: Paths::Trails(body, trails),
                    }))
                }
                None => {
                    let indexed = &bodies.indexed[place];
                    let routes = paths_within(alloc, design.signals(), indexed, target, total)?;
                    Ok(Some(DrivenPaths {
                        process,
                        paths: Paths::Routes(routes),
                    }))
                }
            }
        }
        None => Ok(None),
    }
}

/// The obligation of the path at a place among those of a target; an error where memory runs out.
pub fn query_at(
    alloc: Global,
    signals: &[Signal],
    target: SigId,
    driven: &DrivenPaths,
    place: usize,
) -> Result<Query, AllocError>
    requires known { target.0 < length signals.now }
    requires few { length signals.now < 4294967296 }
    requires walks { ArePathsWalked driven.now.paths }
    requires there { place < how_many driven.now.paths }
    ensures { (design : FlatDesign) (total : ℕ) → signal_forms signals.now ≡ design.signals
        → HasPaths design target.0 total driven.now → IfOk result (λ query.
        slice_get (target_obligations [] design target.0) place ≡ Some (obligation_of query)) }
{
    match &driven.paths {
        Paths::Routes(routes) => query_of(alloc, driven.process, target, &routes[place]),
        Paths::Trails(body, trails) => {
            let trail = &trails[place];
            trail_query(alloc, signals, driven.process, target, *body, trail)
        }
    }
}
