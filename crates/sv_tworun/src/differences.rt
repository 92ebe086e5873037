// What one cycle shows.
ghost use Rattle.std.specs.Prelude.{◌≡◌, ◌&&◌, ◌<◌, not, length, MatchOption};
ghost use Rattle.sv_system.specs.System.{view};
ghost use Rattle.sv_flat.specs.ByNumber.{by_number, FitSignals};
ghost use Rattle.sv_flat.specs.Clocks.{is_clock};
ghost use Rattle.sv_flat.specs.FlatSystem.{flat_system};
ghost use Rattle.sv_flat.specs.Views.{design_of};
ghost use Rattle.sv_design.specs.Designs.{IsDesign};
ghost use Rattle.sv_design.specs.Numbers.{number_if_any};
ghost use Rattle.sv_tworun.specs.Comparisons.{is_given};
ghost use Rattle.sv_tworun.specs.Sights.{differs, FindsFirst, lower_of, shown_by, IsDifference};

use crate::compared::Compared;
use crate::sights::first_apart;
use sv_design::Design;
use sv_flat::SigId;
use sv_lattice::Point;

// The signal with the lower number, where both are there.
fn lower(one: Option<SigId>, other: Option<SigId>) -> Option<SigId>
    ensures { number_if_any result ≡ lower_of (number_if_any one) (number_if_any other) }
{
    match (one, other) {
        (Some(a), Some(b)) => Some(SigId(a.0.min(b.0))),
        (Some(a), None) => Some(a),
        (None, b) => b,
    }
}

// The first of the signals given in the cycle of which the level does not see the same.
fn given_apart(
    design: &Design,
    level: Point,
    cycle: u64,
    first: &[u64],
    second: &[u64],
) -> Option<SigId>
    requires level { level.0 < length design.now.lattice }
    requires first { FitSignals (design_of design.now).signals first.now }
    requires second { FitSignals (design_of design.now).signals second.now }
    ensures found { let system = flat_system (design_of design.now) in
        FindsFirst (length design.now.signals.items) (λ s. is_given system cycle s
        && differs system level (by_number first.now) (by_number second.now) s)
        (number_if_any result) }
    ensures design { IsDesign (design_of design.now) }
{
    let input = first_apart(design, level, design.inputs(), first, second);
    if cycle != 0 {
        return input;
    }
    let register = first_apart(design, level, design.registers(), first, second);
    lower(input, register)
}

// The first of all signals of which the level does not see the same.
fn seen_apart(design: &Design, level: Point, first: &[u64], second: &[u64]) -> Option<SigId>
    requires level { level.0 < length design.now.lattice }
    requires first { FitSignals (design_of design.now).signals first.now }
    requires second { FitSignals (design_of design.now).signals second.now }
    ensures { let system = flat_system (design_of design.now) in
        FindsFirst (length design.now.signals.items)
        (λ s. not (is_clock (design_of design.now) s)
        && differs system level (by_number first.now) (by_number second.now) s)
        (number_if_any result) }
{
    first_apart(design, level, design.seen(), first, second)
}

/// The difference that a cycle with these values shows, if it shows any.
pub fn difference(
    design: &Design,
    level: Point,
    cycle: u64,
    first: &[u64],
    second: &[u64],
) -> Option<Compared>
    requires level { level.0 < length design.now.lattice }
    requires first { FitSignals (design_of design.now).signals first.now }
    requires second { FitSignals (design_of design.now).signals second.now }
    ensures found { let system = flat_system (design_of design.now) in
        MatchOption result
        (view system level (by_number first.now) ≡ view system level (by_number second.now))
        (IsDifference system level cycle (by_number first.now) (by_number second.now)) }
    ensures design { IsDesign (design_of design.now) }
{
    let given = given_apart(design, level, cycle, first, second);
    shown(cycle, given, seen_apart(design, level, first, second))
}

// What a cycle shows, by the first signal that tells apart what was given, and the views.
fn shown(cycle: u64, given: Option<SigId>, seen: Option<SigId>) -> Option<Compared>
    ensures { result ≡ shown_by cycle given seen }
{
    match (given, seen) {
        (Some(signal), _) => Some(Compared::InputsDiffer(cycle, signal)),
        (None, Some(signal)) => Some(Compared::ViewsDiffer(cycle, signal)),
        (None, None) => None,
    }
}
