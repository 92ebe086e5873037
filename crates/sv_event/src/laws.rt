// What follows for the orders of an admitted design's processes, as contracts of functions that do
// nothing.
ghost use Rattle.std.specs.Prelude.{ℕ, IsTrue};
ghost use Rattle.sv_design.specs.Designs.{IsDesign};
ghost use Rattle.sv_flat.specs.Design.{FlatDesign};
ghost use Rattle.sv_flat.specs.FlatSystem.{flat_system};
ghost use Rattle.sv_flat.specs.Schedules.{is_order, tick_order};
ghost use Rattle.sv_system.specs.Schedules.{RestIsSettled, RoundsSettle};
ghost use Rattle.sv_event.specs.Rests.{QuietIsSettled, NumberedRoundsSettle};

/// Whatever combinational processes of an admitted design run, in whatever order, from a fitting
/// environment: once no run would change anything, the environment is the one settled one of its
/// registers and inputs.
pub fn rest_is_settled()
    ensures { (design : FlatDesign) → IsDesign design → RestIsSettled (flat_system design) }
{}

/// As many rounds of all combinational processes as there are combinational signals, or more, lead
/// to that settled environment.
pub fn rounds_settle()
    ensures { (design : FlatDesign) → IsDesign design → RoundsSettle (flat_system design) }
{}

/// The same of lists of numbers of processes, as `run_schedule` takes them: from whatever fitting
/// values, a list after which `quiet` is true has come to the one settled environment.
pub fn quiet_is_settled()
    ensures { (design : FlatDesign) → IsDesign design → QuietIsSettled design }
{}

/// So has a list that is made of as many rounds as there are combinational signals, or of more.
pub fn numbered_rounds_settle()
    ensures { (design : FlatDesign) → IsDesign design → NumberedRoundsSettle design }
{}

/// The clocked processes in ascending order, and in descending order, are an order that `tick`
/// takes.
pub fn cycle_orders_are_orders()
    ensures { (design : FlatDesign) (cycle : ℕ) →
        IsTrue (is_order design (tick_order design cycle)) }
{}
