// The paths of one target, and its obligations one by one.
ghost use Rattle.std.specs.Prelude.{◌≡◌, ◌<◌, length, Some, IfOk, slice_get};
ghost use Rattle.sv_flat.specs.Design.{FlatDesign};
ghost use Rattle.sv_flat.specs.Views.{design_of};
ghost use Rattle.sv_obl.specs.DesignQueries.{IsQueryOf, IsPlaced};
ghost use Rattle.sv_paths.specs.ListParts.{ArePathsOf, obligations_on};
ghost use Rattle.sv_obl.specs.Views.{obligation_of};

use crate::targets::{DrivenPaths, query_at};
use std::alloc::{AllocError, Global};
use sv_design::Design;
use sv_flat::SigId;
use sv_obl::Query;

/// The paths of one target as they were walked, where no expression is copied. The obligation of
/// each is made when it is asked for, so that no more than one has to stand in memory: those of all
/// paths of a target can be large.
#[derive(Drop)]
pub struct TargetPaths<'d, 'b, 'a> {
    pub target: SigId,
    pub(crate) paths: Option<DrivenPaths<'d, 'b, 'a>>,
}

impl<'d, 'b, 'a> TargetPaths<'d, 'b, 'a> {
    /// How many obligations the target has: one for each path.
    pub fn len(&self) -> usize
        ensures { (design : FlatDesign) → ArePathsOf design self.now
            → result ≡ length (obligations_on design self.now) }
    {
        match &self.paths {
            Some(driven) => driven.paths.len(),
            None => 0,
        }
    }

    /// The target's obligation at a place, one of the design's. An error says that memory ran out.
    pub fn query(&self, alloc: Global, design: &Design, place: usize) -> Result<Query, AllocError>
        requires paths { ArePathsOf (design_of design.now) self.now }
        requires there { place < length (obligations_on (design_of design.now) self.now) }
        ensures listed { IfOk result (λ query. slice_get
            (obligations_on (design_of design.now) self.now) place ≡ Some (obligation_of query)) }
        ensures query { IfOk result (λ query.
            IsQueryOf (design_of design.now) (obligation_of query)) }
        ensures placed { IfOk result (λ query. IsPlaced (obligation_of query)) }
    {
        match &self.paths {
            Some(driven) => query_at(alloc, design.signals(), self.target, driven, place),
            None => unreachable!(),
        }
    }
}
