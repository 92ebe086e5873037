// The obligations of a design, part by part: the paths of one target after the other, each of which
// gives one, and then those of selectors.
ghost use Rattle.std.specs.Prelude.{◌≡◌, ◌+◌, ◌<◌, ◌≤◌, length, IfOk, OnOk};
ghost use Rattle.sv_flat.specs.Views.{design_of};
ghost use Rattle.sv_obl.specs.Asked.{asked};
ghost use Rattle.sv_paths.specs.ListParts.{IsAt, obligations_on};
ghost use Rattle.sv_obl.specs.Obligations.{obligations};
ghost use Rattle.sv_judge.specs.Walking.{AreNext, ComeNext};

use std::alloc::{AllocError, Global};
use sv_design::Design;
use sv_flat::SigId;
use sv_obl::Query;
use sv_paths::{Listing, TargetPaths};

/// The paths of the target that comes next, of a design that exceeds no limit. An error says that
/// memory ran out.
pub fn target_part<'d, 'b, 'a>(
    alloc: Global,
    design: &'d Design,
    listing: &mut Listing<'b, 'a>,
    target: SigId,
) -> Result<TargetPaths<'d, 'b, 'a>, AllocError>
    requires known { target.0 < length design.now.signals.items }
    requires at { IsAt (design_of design.now) target.0 listing.old }
    ensures next { IfOk result (ComeNext (design_of design.now) listing.old.count) }
    ensures count { IfOk result (λ paths. listing.new.count
        ≡ listing.old.count + length (obligations_on (design_of design.now) paths)) }
    ensures at { OnOk result (IsAt (design_of design.now) (target.0 + 1) listing.new) }
{
    match listing.target_paths(alloc, design, target) {
        Ok(paths) => Ok(paths),
        Err(_) => Err(AllocError),
    }
}

/// The obligations of selectors, behind those of all targets. An error says that memory ran out.
pub fn selector_part(
    alloc: Global,
    design: &Design,
    listing: &Listing,
) -> Result<Vec<Query>, AllocError>
    requires at { IsAt (design_of design.now) (length design.now.signals.items) listing.now }
    ensures next { IfOk result (λ queries.
        AreNext (design_of design.now) listing.now.count queries.items) }
    ensures all { IfOk result (λ queries. listing.now.count + length queries.items
        ≡ length (asked (design_of design.now))) }
    ensures few { IfOk result (λ _. length (asked (design_of design.now)) ≤ 65536) }
{
    match listing.selector_queries(alloc, design) {
        Ok(queries) => Ok(queries),
        Err(_) => Err(AllocError),
    }
}
