// The walk through a process from its last statement back.
ghost use Rattle.std.specs.Prelude.{◌≡◌, ◌<◌, ◌≤◌, [], ◌∷◌, ◌++◌, length, map, flat_map, IfOk};
ghost use Rattle.std.specs.Prelude.{OnOk};
ghost use Rattle.sv_flat.specs.ByNumber.{signal_forms};
ghost use Rattle.sv_flat.specs.Views.{typed_tree};
ghost use Rattle.sv_obl.specs.SliceRoutes.{slice_routes};
ghost use Rattle.sv_obl.specs.Paths.{later_place};
ghost use Rattle.sv_obl.specs.Routes.{open_route, is_all, times_put, first_place, with_put};
ghost use Rattle.sv_obl.specs.Routes.{with_ways, with_right, behind};
ghost use Rattle.sv_obl.specs.Views.{piece_forms};
ghost use Rattle.sv_paths.specs.RouteViews.{step_ref_form, route_form, route_forms};
ghost use Rattle.sv_paths.specs.RouteViews.{Walks, Adds};

use crate::faults::{MOST_PATHS, WalkFault};
use crate::nodes::with_nodes;
use crate::pieces::{count_of, covers, first_place};
use crate::reads::with_names;
use crate::routes::{Route, StepRef, put_behind};
use std::alloc::{AllocError, Global};
use sv_flat::{FExpr, FNode, Piece, SigId, Signal};
use sv_num::Place;
use sv_obl::BodySlice;

/// What a walk goes by: what allocates, the design's signals, and the target whose paths it takes.
#[derive(Clone, Copy)]
pub struct TargetWalk<'a> {
    pub alloc: Global,
    pub signals: &'a [Signal],
    pub target: SigId,
}

// Adds a route, where they stay few enough.
#[tactic(auto, using(crate::proofs::WalkFacts::one_too_many))]
fn add<'a>(route: Route<'a>, all: &mut Vec<Route<'a>>) -> Result<(), WalkFault>
    ensures adds { Adds (route_forms all.old.items ++ route_form route.entry ∷ []) all.new result }
    ensures few { OnOk result (length all.new.items ≤ 4096) }
{
    if all.len() >= MOST_PATHS {
        return Err(WalkFault::TooMany);
    }
    all.push(route)?;
    Ok(())
}

// Whether no assignment was taken yet, and this one covers the target whole.
fn is_all(walk: &TargetWalk, pieces: &[Piece], route: &Route) -> bool
    requires { walk.now.target.0 < length walk.now.signals.now }
    ensures { result ≡ is_all (signal_forms walk.now.signals.now) walk.now.target.0
        (piece_forms pieces.now) (route_form route.now) }
{
    route.place.is_none() && covers(walk.signals, walk.target, pieces)
}

// How often a right side counts that is put in.
fn times_put(walk: &TargetWalk, pieces: &[Piece], route: &Route) -> usize
    requires { walk.now.target.0 < length walk.now.signals.now }
    ensures { result ≡ times_put (signal_forms walk.now.signals.now) walk.now.target.0
        (piece_forms pieces.now) (route_form route.now) }
{
    if is_all(walk, pieces, route) {
        0
    } else {
        count_of(walk.target, pieces)
    }
}

/// The place of the last assignment once this one is taken too.
pub fn place_with(target: SigId, pieces: &[Piece], place: Option<Place>) -> Option<Place>
    ensures { result ≡ later_place (first_place target.0 (piece_forms pieces.now)) place }
{
    match place {
        Some(place) => Some(place),
        None => first_place(target, pieces),
    }
}

// The route with a right side put in.
fn with_put<'a>(
    walk: &TargetWalk,
    pieces: &[Piece],
    right: &'a FExpr,
    route: Route<'a>,
) -> Result<Route<'a>, AllocError>
    requires { walk.now.target.0 < length walk.now.signals.now }
    ensures { IfOk result (λ put. route_form put ≡ with_put (signal_forms walk.now.signals.now)
        walk.now.target.0 (piece_forms pieces.now) (typed_tree right.now)
        (route_form route.entry)) }
{
    let count = times_put(walk, pieces, &route);
    Ok(Route {
        steps: route.steps,
        names: with_names(route.names, right)?,
        nodes: with_nodes(route.nodes, count, right),
        place: place_with(walk.target, pieces, route.place),
        wants: !covers(walk.signals, walk.target, pieces),
    })
}

// Adds the one route that a right side gives where it is not split.
fn put_whole<'a>(
    walk: &TargetWalk,
    pieces: &[Piece],
    right: &'a FExpr,
    route: Route<'a>,
    all: &mut Vec<Route<'a>>,
) -> Result<(), WalkFault>
    requires { walk.now.target.0 < length walk.now.signals.now }
    ensures adds { Adds (route_forms all.old.items
        ++ with_put (signal_forms walk.now.signals.now) walk.now.target.0 (piece_forms pieces.now)
        (typed_tree right.now) (route_form route.entry) ∷ []) all.new result }
    ensures few { OnOk result (length all.new.items ≤ 4096) }
{
    let put = with_put(walk, pieces, right, route)?;
    add(put, all)
}

// Adds the routes that the ways of a right side give.
#[cycle(ways)]
fn put_ways<'a>(
    right: &'a FExpr,
    walk: &TargetWalk,
    pieces: &[Piece],
    route: Route<'a>,
    all: &mut Vec<Route<'a>>,
) -> Result<(), WalkFault>
    requires { walk.now.target.0 < length walk.now.signals.now }
    ensures adds { Adds (route_forms all.old.items
        ++ with_ways (signal_forms walk.now.signals.now) walk.now.target.0 (piece_forms pieces.now)
        (typed_tree right.now) (route_form route.entry)) all.new result }
    ensures few { OnOk result (length all.new.items ≤ 4096) }
{
    match &right.node {
        FNode::Choice(place, cond, yes, no) => {
            let taken = StepRef::new(*place, cond, true);
            let passed = StepRef::new(*place, cond, false);
            let copy = route.copy(walk.alloc)?;
            put_way(yes, taken, walk, pieces, copy, all)?;
            put_way(no, passed, walk, pieces, route, all)
        }
        _ => put_whole(walk, pieces, right, route, all),
    }
}

// Adds those of one way of a choice. The condition is put before all that stand behind it where
// they are, so none of them is moved again.
#[cycle(ways)]
fn put_way<'a>(
    right: &'a FExpr,
    step: StepRef<'a>,
    walk: &TargetWalk,
    pieces: &[Piece],
    route: Route<'a>,
    all: &mut Vec<Route<'a>>,
) -> Result<(), WalkFault>
    requires { walk.now.target.0 < length walk.now.signals.now }
    ensures adds { Adds (route_forms all.old.items ++ map (behind (step_ref_form step.entry))
        (with_ways (signal_forms walk.now.signals.now) walk.now.target.0 (piece_forms pieces.now)
        (typed_tree right.now) (route_form route.entry))) all.new result }
    ensures few { OnOk result (length all.new.items ≤ 4096) }
{
    let start = all.len();
    put_ways(right, walk, pieces, route, all)?;
    put_behind(all, start, step)?;
    Ok(())
}

// Adds the routes that an assignment gives that is taken.
fn put_right<'a>(
    walk: &TargetWalk,
    pieces: &[Piece],
    right: &'a FExpr,
    route: Route<'a>,
    all: &mut Vec<Route<'a>>,
) -> Result<(), WalkFault>
    requires { walk.now.target.0 < length walk.now.signals.now }
    ensures adds { Adds (route_forms all.old.items
        ++ with_right (signal_forms walk.now.signals.now) walk.now.target.0 (piece_forms pieces.now)
        (typed_tree right.now) (route_form route.entry)) all.new result }
    ensures few { OnOk result (length all.new.items ≤ 4096) }
{
    if is_all(walk, pieces, &route) {
        put_ways(right, walk, pieces, route, all)
    } else {
        put_whole(walk, pieces, right, route, all)
    }
}

// Adds the routes that a route becomes where a slice is taken before it; an error where all are
// then more than 4,096, or where memory runs out.
#[cycle(before)]
fn before<'a>(
    slice: &BodySlice<'a>,
    walk: &TargetWalk,
    route: Route<'a>,
    all: &mut Vec<Route<'a>>,
) -> Result<(), WalkFault>
    requires { walk.now.target.0 < length walk.now.signals.now }
    ensures adds { Adds (route_forms all.old.items
        ++ slice_routes (signal_forms walk.now.signals.now) walk.now.target.0 slice.now
        (route_form route.entry)) all.new result }
    ensures few { length all.old.items ≤ 4096 → OnOk result (length all.new.items ≤ 4096) }
{
    if !route.wants {
        return add(route, all);
    }
    match slice {
        BodySlice::Nothing => add(route, all),
        BodySlice::Assign { pieces, value, .. } => { put_right(walk, *pieces, *value, route, all) }
        BodySlice::Chain { first, second } => {
            let mut routes = Vec::new(walk.alloc);
            before(second, walk, route, &mut routes)?;
            before_all(first, walk, routes, all)
        }
        BodySlice::Branch {
            place,
            cond,
            yes,
            no,
        } => {
            let taken = StepRef::new(*place, *cond, true);
            let passed = StepRef::new(*place, *cond, false);
            let copy = route.copy(walk.alloc)?;
            before_arm(yes, taken, walk, copy, all)?;
            before_arm(no, passed, walk, route, all)
        }
    }
}

// Adds those of one arm of a branch, each behind its condition.
#[cycle(before)]
fn before_arm<'a>(
    slice: &BodySlice<'a>,
    step: StepRef<'a>,
    walk: &TargetWalk,
    route: Route<'a>,
    all: &mut Vec<Route<'a>>,
) -> Result<(), WalkFault>
    requires { walk.now.target.0 < length walk.now.signals.now }
    ensures adds { Adds (route_forms all.old.items ++ map (behind (step_ref_form step.entry))
        (slice_routes (signal_forms walk.now.signals.now) walk.now.target.0 slice.now
        (route_form route.entry))) all.new result }
    ensures few { length all.old.items ≤ 4096 → OnOk result (length all.new.items ≤ 4096) }
{
    let start = all.len();
    before(slice, walk, route, all)?;
    put_behind(all, start, step)?;
    Ok(())
}

// Adds the routes that some routes become where a slice is taken before each. Of a chain each part
// is taken before all of them at once, and so is read once and not once for each route.
#[cycle(before)]
fn before_all<'a>(
    slice: &BodySlice<'a>,
    walk: &TargetWalk,
    routes: Vec<Route<'a>>,
    all: &mut Vec<Route<'a>>,
) -> Result<(), WalkFault>
    requires { walk.now.target.0 < length walk.now.signals.now }
    ensures adds { Adds (route_forms all.old.items
        ++ flat_map (slice_routes (signal_forms walk.now.signals.now) walk.now.target.0 slice.now)
        (route_forms routes.entry.items)) all.new result }
    ensures few { length all.old.items ≤ 4096 → OnOk result (length all.new.items ≤ 4096) }
{
    match slice {
        BodySlice::Chain { first, second } => {
            let mut between = Vec::new(walk.alloc);
            before_all(second, walk, routes, &mut between)?;
            before_all(first, walk, between, all)
        }
        _ => before_each(slice, walk, routes, all),
    }
}

// Adds them one by one.
#[cycle(before)]
fn before_each<'a>(
    slice: &BodySlice<'a>,
    walk: &TargetWalk,
    routes: Vec<Route<'a>>,
    all: &mut Vec<Route<'a>>,
) -> Result<(), WalkFault>
    requires { walk.now.target.0 < length walk.now.signals.now }
    ensures adds { Adds (route_forms all.old.items
        ++ flat_map (slice_routes (signal_forms walk.now.signals.now) walk.now.target.0 slice.now)
        (route_forms routes.entry.items)) all.new result }
    ensures few { length all.old.items ≤ 4096 → OnOk result (length all.new.items ≤ 4096) }
{
    for route in routes {
        before(slice, walk, route, all)?;
    }
    Ok(())
}

/// The routes of a target where its slice is taken; an error where they are more than 4,096, or
/// where memory runs out.
pub fn routes_of<'a>(
    alloc: Global,
    signals: &[Signal],
    target: SigId,
    slice: &BodySlice<'a>,
) -> Result<Vec<Route<'a>>, WalkFault>
    requires { target.0 < length signals.now }
    ensures { Walks (slice_routes (signal_forms signals.now) target.0 slice.now open_route) result }
{
    let mut routes = Vec::new(alloc);
    let walk = TargetWalk {
        alloc,
        signals,
        target,
    };
    before(slice, &walk, Route::open(alloc), &mut routes)?;
    Ok(routes)
}
