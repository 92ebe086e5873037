// Paths as they are walked, with references into the design.
ghost use Rattle.std.specs.Prelude.{◌≡◌, ◌≤◌, ◌++◌, length, take, drop, map, IfOk, OnOk};
ghost use Rattle.sv_flat.specs.Views.{typed_tree};
ghost use Rattle.sv_obl.specs.Routes.{open_route, behind as route_behind};
ghost use Rattle.sv_paths.specs.RouteViews.{step_ref_form, route_form, route_forms};

use std::alloc::{AllocError, Global};
use std::collections::BTreeSet;
use sv_flat::FExpr;
use sv_num::Place;

/// A condition on a path, with the place of its `if`, arm or `?`, and whether it holds there.
#[derive(Clone, Copy, Debug)]
pub struct StepRef<'a> {
    pub place: Place,
    pub cond: &'a FExpr,
    pub truth: bool,
}

impl<'a> StepRef<'a> {
    /// A condition at a place.
    pub fn new(place: Place, cond: &'a FExpr, truth: bool) -> StepRef<'a>
        ensures { step_ref_form result
            ≡ record { place = place; condition = typed_tree cond.now; truth = truth } }
    {
        StepRef { place, cond, truth }
    }
}

/// A path as far back as statements were taken. Of the right sides that were put for the target's
/// name it keeps what is asked of them later, so that it is no longer than what is printed of it.
#[derive(Debug, Drop)]
pub struct Route<'a> {
    /// Its conditions, the last in the text first.
    pub steps: Vec<StepRef<'a>>,
    /// The numbers of the signals that are named in what was put for the target's name.
    pub names: BTreeSet<u32>,
    /// The nodes of what was put, up to one over the limit.
    pub nodes: u32,
    /// The place of the target's name in the last assignment, and none before one is taken.
    pub place: Option<Place>,
    /// Whether the target is wanted still.
    pub wants: bool,
}

impl<'a> Route<'a> {
    /// The route before a statement is taken.
    pub fn open(alloc: Global) -> Route<'a>
        ensures { route_form result ≡ open_route }
    {
        Route {
            steps: Vec::new(alloc),
            names: BTreeSet::new(alloc),
            nodes: 0,
            place: None,
            wants: true,
        }
    }

    /// A second route that is equal. It fails where memory runs out.
    pub fn copy(&self, alloc: Global) -> Result<Route<'a>, AllocError>
        ensures { IfOk result (λ copy. route_form copy ≡ route_form self.now) }
    {
        Ok(Route {
            steps: self.steps.as_slice().to_vec(alloc)?,
            names: self.names.clone()?,
            nodes: self.nodes,
            place: self.place,
            wants: self.wants,
        })
    }
}

/// Puts a condition before each of the routes from a place on.
pub fn put_behind<'a>(
    routes: &mut Vec<Route<'a>>,
    start: usize,
    step: StepRef<'a>,
) -> Result<(), AllocError>
    requires { start ≤ length routes.old.items }
    ensures routes { OnOk result (route_forms routes.new.items
        ≡ take start (route_forms routes.old.items)
        ++ map (route_behind (step_ref_form step.entry))
        (drop start (route_forms routes.old.items))) }
    ensures count { length routes.new.items ≡ length routes.old.items }
{
    for i in start..routes.len() {
        let route = &mut routes[i];
        route.steps.push(step)?;
    }
    Ok(())
}
