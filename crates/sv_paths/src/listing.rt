// The obligations of a design, all at once.
ghost use Rattle.std.specs.Prelude.{◌≡◌, ◌≤◌, ◌++◌, map, length, All, IfOk, IfErr, OnOk};
ghost use Rattle.sv_flat.specs.Views.{design_of};
ghost use Rattle.sv_design.specs.Designs.{IsDesign};
ghost use Rattle.sv_paths.specs.Answers.{Lists, Told};
ghost use Rattle.sv_obl.specs.DesignQueries.{IsQueryOf, IsPlaced};
ghost use Rattle.sv_paths.specs.Limits.{excess};
ghost use Rattle.sv_paths.specs.ListParts.{IsAt, ArePathsOf, obligations_before, obligations_on};
ghost use Rattle.sv_obl.specs.Views.{obligation_of};

use crate::faults::OblFault;
use crate::list_parts::Listing;
use crate::target_paths::TargetPaths;
use crate::targets::count_of;
use std::alloc::{AllocError, Global};
use sv_design::Design;
use sv_flat::SigId;
use sv_obl::{Bodies, Query};

// Adds the obligations of the paths of a target.
fn add_queries(
    alloc: Global,
    design: &Design,
    paths: &TargetPaths,
    queries: &mut Vec<Query>,
) -> Result<(), AllocError>
    requires paths { ArePathsOf (design_of design.now) paths.now }
    ensures { OnOk result (map obligation_of queries.new.items ≡ map obligation_of queries.old.items
        ++ obligations_on (design_of design.now) paths.now) }
{
    for place in 0..paths.len() {
        let query = paths.query(alloc, design, place)?;
        queries.push(query)?;
    }
    Ok(())
}

// The obligations of all targets.
fn queries_of_targets(
    alloc: Global,
    design: &Design,
    listing: &mut Listing,
) -> Result<Vec<Query>, OblFault>
    requires at { IsAt (design_of design.now) 0 listing.old }
    ensures listed { IfOk result (λ queries. map obligation_of queries.items
        ≡ obligations_before (design_of design.now) (length design.now.signals.items)) }
    ensures next { OnOk result
        (IsAt (design_of design.now) (length design.now.signals.items) listing.new) }
    ensures told { IfErr result (Told (excess (design_of design.now))) }
    ensures design { IsDesign (design_of design.now) }
{
    let mut queries = Vec::new(alloc);
    for s in 0..count_of(design) {
        let paths = listing.target_paths(alloc, design, SigId(s))?;
        add_queries(alloc, design, &paths, &mut queries)?;
    }
    Ok(queries)
}

/// The obligations of a design: those of each target in signal order, one for each of its paths,
/// and then those of selectors; at most 65,536. A target with over 4,096 paths is `Paths`, one with
/// over 65,536 nodes put into a path is `Large`, and over 65,536 obligations are `Many`, whichever
/// comes first from target to target. Each is an obligation of the design. `Listing` gives them
/// target by target.
pub fn obligations(alloc: Global, design: &Design) -> Result<Vec<Query>, OblFault>
    ensures listed { Lists (design_of design.now) result }
    ensures few { IfOk result (λ queries. length queries.items ≤ 65536) }
    ensures queries { IfOk result (λ queries.
        All (IsQueryOf (design_of design.now)) (map obligation_of queries.items)) }
    ensures placed { IfOk result (λ queries. All IsPlaced (map obligation_of queries.items)) }
{
    let bodies = Bodies::new(alloc, design)?;
    let mut listing = Listing::new(design, &bodies);
    let mut queries = queries_of_targets(alloc, design, &mut listing)?;
    let mut selectors = listing.selector_queries(alloc, design)?;
    queries.append(&mut selectors)?;
    Ok(queries)
}
