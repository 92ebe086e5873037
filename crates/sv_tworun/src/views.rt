// Views.
ghost use Rattle.std.specs.Prelude.{◌≡◌, ◌↔◌, IsTrue};
ghost use Rattle.sv_tworun.specs.Forms.{view_form};

use sv_flat::SigId;

/// What a level sees in one cycle: the signals whose label flows to it, in signal order, each with
/// its value (SecVerilog, ASPLOS 2015). Clocks stand in no view.
#[derive(Debug, Drop)]
pub struct View {
    pub pairs: Vec<(SigId, u64)>,
}

/// Whether the views are equal: the same signals with the same values.
#[tactic(auto, using(crate::proofs::PairFacts::same_views))]
pub fn same_view(a: &View, b: &View) -> bool
    ensures { IsTrue result ↔ (view_form a.now ≡ view_form b.now) }
{
    a.pairs == b.pairs
}
