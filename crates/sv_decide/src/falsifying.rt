// Whether a valuation falsifies an obligation, by simulation.
ghost use Rattle.std.specs.Prelude.{◌≡◌, ◌↔◌, IsTrue};
ghost use Rattle.sv_flat.specs.ByNumber.{by_number};
ghost use Rattle.sv_flat.specs.FlatSystem.{flat_system};
ghost use Rattle.sv_flat.specs.Views.{design_of};
ghost use Rattle.sv_obl.specs.DesignQueries.{IsQueryOf};
ghost use Rattle.sv_obl.specs.Validity.{Falsifies, goal_frame};
ghost use Rattle.sv_obl.specs.Valuations.{FitsDesign, valuation_of};
ghost use Rattle.sv_obl.specs.Views.{obligation_of, goal_form};
ghost use Rattle.sv_system.specs.Schedules.{IsTheSettled};
ghost use Rattle.sv_decide.specs.Simulating.{IsOfFrame};

use crate::failing::{asked_by, shows_failing};
use sv_obl::{Frame, Goal, Query, Valuation, know_design};
use sv_sim::Sim;

// The cycle in which the goal's own label, or its expression, is taken.
fn frame_of(goal: &Goal) -> Frame
    ensures { result ≡ goal_frame (goal_form goal.now) }
{
    match goal {
        Goal::Flow { frame, .. } => *frame,
        Goal::Holds { frame, .. } => *frame,
        Goal::Selector { .. } => Frame::Now,
    }
}

// Settles the cycle of a valuation.
fn settle_now(sim: &mut Sim, v: &Valuation)
    requires { FitsDesign (design_of sim.old.design) v.now }
    ensures values { let read = valuation_of (design_of sim.old.design) v.now in
        IsTheSettled (flat_system (design_of sim.old.design)) read.registers read.inputs
        (by_number sim.new.values) }
    ensures settled { IsTrue sim.new.is_settled }
    ensures design { sim.new.design ≡ sim.old.design }
{
    know_design(sim.design());
    sim.load(&v.regs);
    sim.settle(&v.inputs);
}

// Settles the cycle of a frame: that of a valuation, or the one that follows it.
fn settle_frame(sim: &mut Sim, v: &Valuation, frame: Frame)
    requires { FitsDesign (design_of sim.old.design) v.now }
    ensures values { IsOfFrame (design_of sim.old.design)
        (valuation_of (design_of sim.old.design) v.now) frame (by_number sim.new.values) }
    ensures settled { IsTrue sim.new.is_settled }
    ensures design { sim.new.design ≡ sim.old.design }
{
    settle_now(sim, v);
    match frame {
        Frame::Now => {}
        Frame::Next => {
            sim.tick();
            sim.settle(&v.next_inputs);
        }
    }
}

/// Whether a valuation falsifies an obligation of the design that is simulated: its cycle meets the
/// facts, takes the path, and fails the goal. It takes no memory, and leaves the simulation in that
/// cycle.
pub fn falsifies(sim: &mut Sim, query: &Query, v: &Valuation) -> bool
    requires query { IsQueryOf (design_of sim.old.design) (obligation_of query.now) }
    requires fits { FitsDesign (design_of sim.old.design) v.now }
    ensures falsifies { IsTrue result ↔ Falsifies (design_of sim.old.design)
        (valuation_of (design_of sim.old.design) v.now) (obligation_of query.now) }
    ensures design { sim.new.design ≡ sim.old.design }
{
    let design = sim.design();
    know_design(design);
    settle_frame(sim, v, frame_of(&query.goal));
    let asked = asked_by(design, sim.values(), query);
    settle_now(sim, v);
    shows_failing(design, sim.values(), query, asked)
}
