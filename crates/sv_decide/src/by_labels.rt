// Obligations that labels alone decide.
ghost use Rattle.std.specs.Prelude.{◌≡◌, IsTrue, IfOk, IsErrOf};
ghost use Rattle.sv_flat.specs.Views.{design_of};
ghost use Rattle.sv_obl.specs.DesignQueries.{IsQueryOf};
ghost use Rattle.sv_obl.specs.Views.{obligation_of};
ghost use Rattle.sv_encoding.specs.BothWays.{always_goes};
ghost use Rattle.sv_encoding.specs.Deciding.{IsTooLarge};
ghost use Rattle.sv_blast.specs.Coders.{IsCoder};
ghost use Rattle.sv_decide.specs.Decisions.{IsProvedWithin};

use sv_blast::{BlastFault, Coder, labels_decide};
use sv_design::Design;
use sv_obl::{Query, know_design};

/// Whether labels alone show that an obligation is valid, told without a clause: then its encoding
/// has a refutation of one step, by its first clause and its last one. `TooLarge` says that labels
/// would show it, and that the encoding has more than 4,194,304 variables; `OutOfMemory` that
/// memory ran out.
///
/// `false` says only that `decide` has to tell.
pub fn is_valid_by_labels(design: &Design, coder: &Coder, query: &Query) -> Result<bool, BlastFault>
    requires coder { IsCoder (design_of design.now) coder.now }
    requires query { IsQueryOf (design_of design.now) (obligation_of query.now) }
    ensures by_labels { IfOk result (λ valid. let o = obligation_of query.now in
        valid ≡ always_goes (design_of design.now) o.reads o.goal) }
    ensures proved { IfOk result (λ valid. IsTrue valid →
        IsProvedWithin (design_of design.now) 1 (obligation_of query.now)) }
    ensures too_large { IsErrOf result BlastFault.TooLarge →
        IsTooLarge (design_of design.now) (obligation_of query.now) }
{
    know_design(design);
    if !labels_decide(design, query) {
        return Ok(false);
    }
    coder.check_size(design, query)?;
    Ok(true)
}
