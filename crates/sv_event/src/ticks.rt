// Clock edges by an order of the clocked processes.
ghost use Rattle.std.specs.Prelude.{◌≡◌, true, IsTrue};
ghost use Rattle.sv_flat.specs.ByNumber.{by_number, FitSignals};
ghost use Rattle.sv_flat.specs.Schedules.{is_order, after_tick};
ghost use Rattle.sv_flat.specs.Views.{design_of};
ghost use Rattle.sv_event.specs.Places.{ArePlaces};

use sv_design::Design;
use sv_sim::update_at;

/// Makes in the next values, which are the values, what the clocked processes update. They run in
/// this order, all of them on the values before the edge (IEEE 1364-2005, clause 11).
pub fn tick_all(
    design: &Design,
    clocked: &[usize],
    order: &[usize],
    values: &[u64],
    next: &mut [u64],
)
    requires clocked { ArePlaces (design_of design.now) true clocked.now }
    requires order { IsTrue (is_order (design_of design.now) order.now) }
    requires fit { FitSignals (design_of design.now).signals values.now }
    requires same { next.old ≡ values.now }
    ensures fit { FitSignals (design_of design.now).signals next.new }
    ensures next { by_number next.new ≡
        after_tick (design_of design.now) order.now (by_number values.now) }
{
    for k in order {
        update_at(design, clocked[*k], values, next);
    }
}
