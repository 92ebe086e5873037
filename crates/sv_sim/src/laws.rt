// What follows for admitted designs, as contracts of functions that do nothing.
ghost use Rattle.sv_design.specs.Designs.{IsDesign};
ghost use Rattle.sv_flat.specs.Design.{FlatDesign};
ghost use Rattle.sv_flat.specs.FlatSystem.{flat_system};
ghost use Rattle.sv_system.specs.System.{HasOneTrace};

/// For each start and each list of inputs, all of them fitting, an admitted design has exactly one
/// trace.
pub fn admitted_designs_have_one_trace()
    ensures { (design : FlatDesign) → IsDesign design → HasOneTrace (flat_system design) }
{}
