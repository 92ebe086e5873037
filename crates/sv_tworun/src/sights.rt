// What a level sees of one signal.
ghost use Rattle.std.specs.Prelude.{◌≡◌, ℕ, ◌<◌, length, find, All};
ghost use Rattle.sv_flat.specs.ByNumber.{by_number, FitSignals};
ghost use Rattle.sv_flat.specs.FlatSystem.{flat_system};
ghost use Rattle.sv_flat.specs.Views.{design_of};
ghost use Rattle.sv_design.specs.Numbers.{numbers, number_if_any};
ghost use Rattle.sv_tworun.specs.Sights.{sight, differs};

use sv_design::Design;
use sv_flat::SigId;
use sv_lattice::{Point, label_at};

/// The value of the signal, if the level sees it.
pub fn sight(design: &Design, level: Point, signal: SigId, values: &[u64]) -> Option<u64>
    requires level { level.0 < length design.now.lattice }
    requires signal { signal.0 < length design.now.signals.items }
    requires fit { FitSignals (design_of design.now).signals values.now }
    ensures { result ≡ sight (flat_system (design_of design.now)) level (by_number values.now)
        signal.0 }
{
    let place = signal.0 as usize;
    let label = label_at(design.maps(), &design.signals()[place].label, values);
    if design.lattice().flows(label, level) {
        return Some(values[place]);
    }
    None
}

// Whether the level does not see the same of the signal in both.
fn is_apart(design: &Design, level: Point, signal: SigId, first: &[u64], second: &[u64]) -> bool
    requires level { level.0 < length design.now.lattice }
    requires signal { signal.0 < length design.now.signals.items }
    requires first { FitSignals (design_of design.now).signals first.now }
    requires second { FitSignals (design_of design.now).signals second.now }
    ensures { result ≡ differs (flat_system (design_of design.now)) level
        (by_number first.now) (by_number second.now) signal.0 }
{
    sight(design, level, signal, first) != sight(design, level, signal, second)
}

/// The first of the listed signals of which the level does not see the same in both.
pub fn first_apart(
    design: &Design,
    level: Point,
    listed: &[SigId],
    first: &[u64],
    second: &[u64],
) -> Option<SigId>
    requires level { level.0 < length design.now.lattice }
    requires listed { All (λ (s : ℕ). s < length design.now.signals.items) (numbers listed.now) }
    requires first { FitSignals (design_of design.now).signals first.now }
    requires second { FitSignals (design_of design.now).signals second.now }
    ensures { number_if_any result ≡ find (differs (flat_system (design_of design.now)) level
        (by_number first.now) (by_number second.now)) (numbers listed.now) }
{
    listed
        .iter()
        .find(|signal| is_apart(design, level, **signal, first, second))
        .copied()
}
