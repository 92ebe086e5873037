// Settling.
ghost use Rattle.std.specs.Prelude.{◌≡◌, ◌+◌, ◌<◌, ℕ, IsTrue, IfSome, List, length};
ghost use Rattle.std.specs.Prelude.{slice_index};
ghost use Rattle.sv_design.specs.Designs.{IsDesign};
ghost use Rattle.sv_design.specs.Numbers.{numbers};
ghost use Rattle.sv_flat.specs.ByNumber.{by_number, FitSignals};
ghost use Rattle.sv_flat.specs.Clocks.{processes_of};
ghost use Rattle.sv_flat.specs.FlatSystem.{flat_system, run_of};
ghost use Rattle.sv_flat.specs.Reads.{is_combinational};
ghost use Rattle.sv_flat.specs.Views.{design_of};
ghost use Rattle.sv_system.specs.System.{IsStill};
ghost use Rattle.sv_sim.specs.Settling.{FrontIsStable, OwnIsStable, SameOthers};
ghost use Rattle.sv_sim.specs.Simulations.{process_at};
ghost use Rattle.sv_sim.specs.Settling.{IsDriver, IsPlan};

use sv_design::Design;
use sv_flat::{SigId, run_body};

/// Runs the processes that assign the signals of a plan, one after the other: once all that is read
/// for a signal is settled, a run of its process settles it.
pub fn settle(design: &Design, plan: &[SigId], values: &mut [u64])
    requires design { IsDesign (design_of design.now) }
    requires plan { IsPlan (design_of design.now) (numbers plan.now) }
    requires fit { FitSignals (design_of design.now).signals values.old }
    ensures fit { FitSignals (design_of design.now).signals values.new }
    ensures others { SameOthers (design_of design.now) (by_number values.new)
        (by_number values.old) }
    ensures still { IsStill (flat_system (design_of design.now)) (by_number values.new) }
{
    let mut last = None;
    for k in 0..plan.len() {
        last = settle_next(design, plan[k], last, values);
    }
}

// Runs the process of a signal, and gives its place. Where it ran last, it needs no run: what it
// assigns is stable. Where it ran before another one, it may need another run: a block may assign
// a signal that a process reads whose own signal the block reads again.
fn settle_next(
    design: &Design,
    signal: SigId,
    last: Option<usize>,
    values: &mut [u64],
) -> Option<usize>
    requires signal { IsTrue (is_combinational (design_of design.now) signal.0) }
    requires last { IfSome last (OwnIsStable (design_of design.now) (by_number values.old)) }
    requires fit { FitSignals (design_of design.now).signals values.old }
    ensures fit { FitSignals (design_of design.now).signals values.new }
    ensures others { SameOthers (design_of design.now) (by_number values.new)
        (by_number values.old) }
    ensures last { IfSome result (OwnIsStable (design_of design.now) (by_number values.new)) }
    ensures front { (plan : List ℕ) → IsPlan (design_of design.now) plan
        → (i : ℕ) → i < length plan → slice_index plan i ≡ signal.0
        → FrontIsStable (design_of design.now) plan (by_number values.old) i
        → FrontIsStable (design_of design.now) plan (by_number values.new) (i + 1) }
{
    let place = driver(design, signal);
    if last == Some(place) {
        return last;
    }
    run_at(design, place, values);
    Some(place)
}

// The place of the process of a combinational signal.
fn driver(design: &Design, signal: SigId) -> usize
    requires { IsTrue (is_combinational (design_of design.now) signal.0) }
    ensures driver { IsDriver (design_of design.now) signal.0 result }
    ensures design { IsDesign (design_of design.now) }
{
    design.driver(signal).unwrap()
}

/// Runs the process at a place of the design's processes.
pub fn run_at(design: &Design, place: usize, values: &mut [u64])
    requires place { place < length (processes_of (design_of design.now)) }
    requires fit { FitSignals (design_of design.now).signals values.old }
    ensures fit { FitSignals (design_of design.now).signals values.new }
    ensures run { let flat = design_of design.now in
        by_number values.new ≡ run_of flat (process_at flat place) (by_number values.old) }
    ensures design { IsDesign (design_of design.now) }
{
    let processes = design.processes();
    let process = &processes[place];
    run_body(&process.body, design.signals(), values);
}
