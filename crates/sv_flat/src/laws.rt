// What follows for flat designs, as contracts of functions that do nothing.
ghost use Rattle.std.specs.Prelude.{◌≡◌, ◌<◌, ◌↔◌, ℕ, [], Contains, IsTrue, None};
ghost use Rattle.sv_flat.specs.Admission.{IsAdmitted};
ghost use Rattle.sv_flat.specs.Clocks.{clocks, links_in};
ghost use Rattle.sv_flat.specs.Design.{FlatDesign};
ghost use Rattle.sv_flat.specs.FlatSystem.{flat_system};
ghost use Rattle.sv_flat.specs.SignalLists.{top_clock};
ghost use Rattle.sv_flat.specs.Soundness.{sound};
ghost use Rattle.sv_system.specs.Schedules.{Scheduled};

/// Each combinational process of a sound and admitted design changes its own targets alone, each by
/// what inputs, registers and signals of lower depth had when its run began.
pub fn admitted_designs_are_scheduled()
    ensures { (design : FlatDesign) → IsTrue (sound design) → IsAdmitted design →
        Scheduled (flat_system design) }
{}

/// A sound and admitted design has no clock among the inputs of its top module exactly where it has
/// no clock, if each link by a whole name to an input port names a signal of a lower number, as
/// where the signals of an instance follow those of the instances around it.
pub fn clocks_lead_up_to_a_top_clock()
    ensures { (design : FlatDesign) → IsTrue (sound design) → IsAdmitted design →
        ((port name : ℕ) → Contains (links_in design) (port, name) → name < port) →
        top_clock design ≡ None ↔ (clocks design ≡ []) }
{}
