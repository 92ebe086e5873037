// Runs of combinational processes by their numbers.
ghost use Rattle.std.specs.Prelude.{◌≡◌, ◌<◌, false, All, length};
ghost use Rattle.sv_design.specs.Designs.{IsDesign};
ghost use Rattle.sv_flat.specs.ByNumber.{by_number, FitSignals};
ghost use Rattle.sv_flat.specs.Schedules.{numbered_run, after_schedule, is_quiet};
ghost use Rattle.sv_flat.specs.Views.{design_of};
ghost use Rattle.sv_event.specs.Places.{ArePlaces};

use sv_design::Design;
use sv_sim::run_at;

/// Runs the combinational process with this number.
pub fn run_numbered(design: &Design, combs: &[usize], process: usize, values: &mut [u64])
    requires combs { ArePlaces (design_of design.now) false combs.now }
    requires process { process < length combs.now }
    requires fit { FitSignals (design_of design.now).signals values.old }
    ensures fit { FitSignals (design_of design.now).signals values.new }
    ensures run { by_number values.new ≡
        numbered_run (design_of design.now) process (by_number values.old) }
    ensures design { IsDesign (design_of design.now) }
{
    run_at(design, combs[process], values);
}

/// Runs the listed combinational processes, one after the other.
pub fn run_all(design: &Design, combs: &[usize], schedule: &[usize], values: &mut [u64])
    requires combs { ArePlaces (design_of design.now) false combs.now }
    requires schedule { All (λ k. k < length combs.now) schedule.now }
    requires fit { FitSignals (design_of design.now).signals values.old }
    ensures fit { FitSignals (design_of design.now).signals values.new }
    ensures runs { by_number values.new ≡
        after_schedule (design_of design.now) schedule.now (by_number values.old) }
{
    for k in 0..schedule.len() {
        run_numbered(design, combs, schedule[k], values);
    }
}

/// Whether no run of a combinational process would change a value. All of them run one after the
/// other on other values: no later one takes back what one has changed, since no signal has two.
pub fn is_quiet(design: &Design, combs: &[usize], values: &[u64], other: &mut [u64]) -> bool
    requires combs { ArePlaces (design_of design.now) false combs.now }
    requires fit { FitSignals (design_of design.now).signals values.now }
    requires room { length other.old ≡ length values.now }
    ensures quiet { result ≡ is_quiet (design_of design.now) (by_number values.now) }
{
    other.copy_from_slice(values);
    for k in 0..design.combs() {
        run_numbered(design, combs, k, other);
    }
    values == &*other
}
