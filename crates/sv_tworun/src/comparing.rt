// Two runs side by side.
ghost use Rattle.std.specs.Prelude.{◌≡◌, ◌<◌, min, length, IfOk};
ghost use Rattle.sv_flat.specs.Views.{design_of};
ghost use Rattle.sv_flat.specs.FlatSystem.{flat_system};
ghost use Rattle.sv_system.specs.System.{Noninterferent};
ghost use Rattle.sv_tworun.specs.declared.compared.Compared.TheVariants.{Equal, LengthsDiffer};
ghost use Rattle.sv_tworun.specs.Comparisons.{IsComparison, FindsNoLeak};
ghost use Rattle.sv_tworun.specs.Forms.{run_of, FitsRun, finding};

use crate::compared::Compared;
use crate::differences::difference;
use std::alloc::{AllocError, Global};
use sv_design::Design;
use sv_lattice::Point;
use sv_obl::know_design;
use sv_sim::Sim;
use sv_trace::Stim;

/// Runs the design on both stimuli, cycle by cycle, and finds the first cycle at which the level
/// sees two things, and the signal that shows it; where there is none, whether one run is longer.
/// It fails where memory runs out.
///
/// Where one stimulus has no cycle, the registers are not compared. Stimuli that `read_stim` of
/// `sv_trace` reads for this design fit it, as is asked of both.
pub fn compare(
    alloc: Global,
    design: &Design,
    level: Point,
    a: &Stim,
    b: &Stim,
) -> Result<Compared, AllocError>
    requires level { level.0 < length design.now.lattice }
    requires first { FitsRun (design_of design.now) (run_of a.now) }
    requires second { FitsRun (design_of design.now) (run_of b.now) }
    ensures comparison { IfOk result (IsComparison (design_of design.now) level (run_of a.now)
        (run_of b.now)) }
    ensures no_leak { Noninterferent (flat_system (design_of design.now)) →
        IfOk result (λ found. FindsNoLeak (finding found)) }
{
    // brings that it is admitted, so that its runs have traces
    know_design(design);
    let mut one = Sim::new(alloc, design)?;
    let mut other = Sim::new(alloc, design)?;
    one.load(&a.start);
    other.load(&b.start);
    let count = common_cycles(a, b);
    for cycle in 0..count {
        one.settle(&a.cycles[cycle]);
        other.settle(&b.cycles[cycle]);
        let found = difference(design, level, cycle as u64, one.values(), other.values());
        if let Some(difference) = found {
            return Ok(difference);
        }
        one.tick();
        other.tick();
    }
    Ok(at_the_end(a.cycles.len() as u64, b.cycles.len() as u64))
}

// How many cycles both stimuli have.
fn common_cycles(a: &Stim, b: &Stim) -> usize
    ensures { result ≡ min (length a.now.cycles.items) (length b.now.cycles.items) }
{
    a.cycles.len().min(b.cycles.len())
}

// What is found of runs of so many cycles that show no difference in those that both have.
fn at_the_end(first: u64, second: u64) -> Compared
    ensures equal { first ≡ second → result ≡ Equal first }
    ensures shorter { ¬ (first ≡ second) → result ≡ LengthsDiffer (min first second) }
{
    if first != second {
        return Compared::LengthsDiffer(first.min(second));
    }
    Compared::Equal(first)
}
