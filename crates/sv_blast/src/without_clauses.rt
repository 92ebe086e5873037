// What is told of an obligation without a clause: whether labels alone decide it, and whether its
// encoding is small enough.
ghost use Rattle.std.specs.Prelude.{◌≡◌, ◌<◌, ◌==◌, length, All, IsErrOf, OnOk};
ghost use Rattle.sv_flat.specs.Views.{design_of};
ghost use Rattle.sv_design.specs.Numbers.{numbers};
ghost use Rattle.sv_obl.specs.DesignQueries.{IsQueryOf};
ghost use Rattle.sv_obl.specs.Views.{obligation_of};
ghost use Rattle.sv_encoding.specs.BothWays.{always_goes};
ghost use Rattle.sv_encoding.specs.Deciding.{Fits, IsTooLarge};
ghost use Rattle.sv_encoding.specs.Sizes.{stays_size};
ghost use Rattle.sv_blast.specs.ConeSizes.{AreSizes};

use crate::coded::BlastFault;
use crate::cones::{next_cone, now_cone};
use crate::sizes::encoding_size;
use crate::sizes_of_labels::stays_size;
use std::alloc::Global;
use sv_design::Design;
use sv_flat::SigId;
use sv_gates::MOST_VARIABLES;
use sv_obl::{Goal, Query, know_design};

// Whether no point of a read's label fails to flow to a point of the target's.
fn none_stays(design: &Design, reads: &[SigId], target: SigId) -> bool
    requires known { All (λ s. s < length design.now.signals.items) (numbers reads.now) }
    requires target { target.0 < length design.now.signals.items }
    ensures { result ≡ (stays_size (design_of design.now) (numbers reads.now) target.0 == 0) }
{
    stays_size(design, reads, target) == 0
}

/// Whether labels alone show that an obligation is valid: no point of a read's label fails to flow
/// to a point of the label that the goal is about. It takes no memory.
pub fn labels_decide(design: &Design, query: &Query) -> bool
    requires { IsQueryOf (design_of design.now) (obligation_of query.now) }
    ensures { let o = obligation_of query.now in
        result ≡ always_goes (design_of design.now) o.reads o.goal }
{
    know_design(design);
    match &query.goal {
        Goal::Flow { target, .. } => none_stays(design, &query.reads, *target),
        Goal::Holds { .. } => false,
        Goal::Selector { signal } => none_stays(design, &query.reads, *signal),
    }
}

/// Tells of an obligation's encoding, without a clause of it and by the sizes of the design's
/// signals, that it is small enough to be made.
/// `TooLarge` says that it has more than 4,194,304 variables; `OutOfMemory` that memory ran out.
pub fn check_size(
    alloc: Global,
    design: &Design,
    sizes: &[u32],
    query: &Query,
) -> Result<(), BlastFault>
    requires query { IsQueryOf (design_of design.now) (obligation_of query.now) }
    requires sizes { AreSizes (design_of design.now) sizes.now }
    ensures fits { OnOk result (Fits (design_of design.now) (obligation_of query.now)) }
    ensures large { IsErrOf result BlastFault.TooLarge →
        IsTooLarge (design_of design.now) (obligation_of query.now) }
{
    know_design(design);
    let next = next_cone(alloc, design, query)?;
    let now = now_cone(alloc, design, query, &next)?;
    let size = encoding_size(design, sizes, query, &now, &next);
    if size > MOST_VARIABLES {
        return Err(BlastFault::TooLarge);
    }
    Ok(())
}
