// Drawn rounds.
ghost use Rattle.std.specs.Prelude.{◌≡◌, ◌+◌, ◌≤◌, false, length};
ghost use Rattle.sv_flat.specs.ByNumber.{by_number, FitSignals};
ghost use Rattle.sv_flat.specs.FlatSystem.{flat_system};
ghost use Rattle.sv_flat.specs.Schedules.{IsRoundCount, after_rounds};
ghost use Rattle.sv_flat.specs.Views.{design_of};
ghost use Rattle.sv_system.specs.Schedules.{IsTheSettled, combinational};
ghost use Rattle.sv_event.specs.Places.{ArePlaces};

use crate::draws::draw_round;
use crate::runs::{is_quiet, run_all};
use sv_design::Design;

/// Runs drawn rounds until the first after which no run would change a value, and gives how many it
/// ran. After as many as there are combinational signals none would.
pub fn run_rounds(
    design: &Design,
    combs: &[usize],
    number: u64,
    order: &mut [usize],
    values: &mut [u64],
    other: &mut [u64],
) -> u32
    requires combs { ArePlaces (design_of design.now) false combs.now }
    requires order { length order.old ≡ length combs.now }
    requires fit { FitSignals (design_of design.now).signals values.old }
    requires room { length other.old ≡ length values.old }
    ensures fit { FitSignals (design_of design.now).signals values.new }
    ensures count { IsRoundCount (design_of design.now) number (by_number values.old) result }
    ensures most { result ≤ length (combinational (flat_system (design_of design.now))) + 1 }
    ensures values { by_number values.new ≡
        after_rounds (design_of design.now) number result (by_number values.old) }
    ensures settled { IsTheSettled (flat_system (design_of design.now)) (by_number values.old)
        (by_number values.old) (by_number values.new) }
{
    let mut state = number;
    for before in 0..design.signals().len() + 1 {
        state = draw_round(order, state);
        run_all(design, combs, order, values);
        if is_quiet(design, combs, values, other) {
            return before as u32 + 1;
        }
    }
    unreachable!()
}
