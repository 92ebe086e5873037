// Whether a design keeps its limits, told before any of its obligations is made: of each path only
// where it goes is walked.
ghost use Rattle.std.specs.Prelude.{◌≡◌, ◌≤◌, [], length, IfOk, IfErr, OnOk};
ghost use Rattle.sv_flat.specs.Views.{design_of};
ghost use Rattle.sv_paths.specs.Answers.{Answers, Told};
ghost use Rattle.sv_paths.specs.Limits.{excess};
ghost use Rattle.sv_paths.specs.ListParts.{IsAt};
ghost use Rattle.sv_obl.specs.Obligations.{obligations};

use crate::faults::OblFault;
use crate::list_parts::Listing;
use crate::targets::count_of;
use std::alloc::Global;
use sv_design::Design;
use sv_flat::SigId;
use sv_obl::Bodies;

// Counts the obligations of all targets.
fn pass_targets(alloc: Global, design: &Design, listing: &mut Listing) -> Result<(), OblFault>
    requires at { IsAt (design_of design.now) 0 listing.old }
    ensures next { OnOk result
        (IsAt (design_of design.now) (length design.now.signals.items) listing.new) }
    ensures told { IfErr result (Told (excess (design_of design.now))) }
{
    for s in 0..count_of(design) {
        listing.pass_target(alloc, design, SigId(s))?;
    }
    Ok(())
}

/// How many obligations a design has, at most 65,536, where it exceeds no limit on them; else the
/// first that it exceeds, as `obligations` tells it, or that memory ran out.
pub fn check_limits(alloc: Global, design: &Design) -> Result<u32, OblFault>
    ensures excess { Answers (excess (design_of design.now)) result }
    ensures count { IfOk result (λ count.
        count ≡ length (obligations [] (design_of design.now))) }
    ensures few { IfOk result (λ count. count ≤ 65536) }
{
    let bodies = Bodies::new(alloc, design)?;
    let mut listing = Listing::new(design, &bodies);
    pass_targets(alloc, design, &mut listing)?;
    let selectors = listing.selector_queries(alloc, design)?;
    Ok(listing.count + selectors.len() as u32)
}
