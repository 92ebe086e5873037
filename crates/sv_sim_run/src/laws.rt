// What follows for the texts of simulations, as contracts of functions that do nothing.
ghost use Rattle.sv_design.specs.Designs.{IsDesign};
ghost use Rattle.sv_flat.specs.Design.{FlatDesign};
ghost use Rattle.sv_sim_run.specs.Simulated.{HasOneText};

/// For an admitted design, each stimulus, with or without a level and an order, has one text that
/// is written, and one ending.
pub fn each_stimulus_has_one_text()
    ensures { (design : FlatDesign) → IsDesign design → HasOneText design }
{}
