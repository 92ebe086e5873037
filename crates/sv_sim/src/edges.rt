// The clock edge.
ghost use Rattle.std.specs.Prelude.{◌≡◌, ◌+◌, ◌<◌, IsTrue, length};
ghost use Rattle.sv_design.specs.Designs.{IsDesign};
ghost use Rattle.sv_flat.specs.ByNumber.{by_number, FitSignals, updated};
ghost use Rattle.sv_flat.specs.Clocks.{processes_of};
ghost use Rattle.sv_flat.specs.FlatSystem.{flat_system, after_edge};
ghost use Rattle.sv_flat.specs.Processes.{is_clocked};
ghost use Rattle.sv_flat.specs.Runs.{Updates, run};
ghost use Rattle.sv_flat.specs.Views.{design_of};
ghost use Rattle.sv_sim.specs.Settling.{clocked_before};
ghost use Rattle.sv_sim.specs.Simulations.{process_at};

use sv_design::Design;
use sv_flat::{ProcKind, update_body};

/// Makes in the next values, which are the values, what the clocked processes update. All of them
/// run on the values before the edge (IEEE 1364-2005, clauses 9.2.2 and 11).
pub fn clock_edge(design: &Design, values: &[u64], next: &mut [u64])
    requires fit { FitSignals (design_of design.now).signals values.now }
    requires same { next.old ≡ values.now }
    ensures fit { FitSignals (design_of design.now).signals next.new }
    ensures next { by_number next.new ≡
        (flat_system (design_of design.now)).next (by_number values.now) }
    ensures design { IsDesign (design_of design.now) }
{
    for place in 0..design.processes().len() {
        update_if_clocked(design, place, values, next);
    }
}

// Makes what the process at a place updates, if it is a clocked one.
fn update_if_clocked(design: &Design, place: usize, values: &[u64], next: &mut [u64])
    requires place { place < length (processes_of (design_of design.now)) }
    requires fit { FitSignals (design_of design.now).signals values.now }
    requires next_fit { FitSignals (design_of design.now).signals next.old }
    requires before { let flat = design_of design.now in
        by_number next.old ≡ after_edge flat (clocked_before flat place) (by_number values.now) }
    ensures fit { FitSignals (design_of design.now).signals next.new }
    ensures after { let flat = design_of design.now in
        by_number next.new ≡
        after_edge flat (clocked_before flat (place + 1)) (by_number values.now) }
{
    let processes = design.processes();
    let process = &processes[place];
    if let ProcKind::Clocked(_) = process.kind {
        update_at(design, place, values, next);
    }
}

/// Makes what the clocked process at a place of the design's processes updates, after the updates
/// that are made already.
pub fn update_at(design: &Design, place: usize, values: &[u64], next: &mut [u64])
    requires place { place < length (processes_of (design_of design.now)) }
    requires clocked { IsTrue (is_clocked (process_at (design_of design.now) place).kind) }
    requires fit { FitSignals (design_of design.now).signals values.now }
    requires next_fit { FitSignals (design_of design.now).signals next.old }
    ensures fit { FitSignals (design_of design.now).signals next.new }
    ensures run { let flat = design_of design.now in (updates : Updates)
        → by_number next.old ≡ updated (by_number values.now) updates
        → by_number next.new ≡ updated (by_number values.now)
        (run flat.signals (process_at flat place).body (by_number values.now, updates)).1 }
    ensures design { IsDesign (design_of design.now) }
{
    let processes = design.processes();
    let process = &processes[place];
    update_body(&process.body, design.signals(), values, next);
}
