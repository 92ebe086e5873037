// What a level sees.
ghost use Rattle.std.specs.Prelude.{◌≡◌, ◌<◌, length, IsTrue, IfOk};
ghost use Rattle.sv_system.specs.System.{view};
ghost use Rattle.sv_flat.specs.ByNumber.{by_number};
ghost use Rattle.sv_flat.specs.FlatSystem.{flat_system};
ghost use Rattle.sv_flat.specs.Views.{design_of};
ghost use Rattle.sv_tworun.specs.Forms.{view_form};

use crate::sights::sight;
use crate::views::View;
use std::alloc::{AllocError, Global};
use sv_lattice::Point;
use sv_sim::Sim;

/// What the level sees in a settled simulation. It fails where memory runs out.
pub fn view(alloc: Global, sim: &Sim, level: Point) -> Result<View, AllocError>
    requires settled { IsTrue sim.now.is_settled }
    requires level { level.0 < length sim.now.design.lattice }
    ensures { IfOk result (λ seen. view_form seen ≡
        view (flat_system (design_of sim.now.design)) level (by_number sim.now.values)) }
{
    let design = sim.design();
    let mut pairs = Vec::new(alloc);
    for signal in design.seen() {
        if let Some(value) = sight(design, level, *signal, sim.values()) {
            pairs.push((*signal, value))?;
        }
    }
    Ok(View { pairs })
}
