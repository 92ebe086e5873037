// The values of all signals at a valuation.
ghost use Rattle.std.specs.Prelude.{◌≡◌, IsTrue, IfOk};
ghost use Rattle.sv_system.specs.System.{Settled};
ghost use Rattle.sv_flat.specs.ByNumber.{by_number, FitSignals};
ghost use Rattle.sv_flat.specs.FlatSystem.{flat_system};
ghost use Rattle.sv_flat.specs.Views.{design_of};
ghost use Rattle.sv_obl.specs.Validity.{IsInFrame};
ghost use Rattle.sv_obl.specs.Valuations.{FitsDesign, valuation_of};

use std::alloc::{AllocError, Global};
use sv_design::Design;
use sv_obl::{Frame, Valuation, know_design};
use sv_sim::Sim;

/// The values of all signals, by the signals' numbers: those of a valuation's cycle, and those of
/// the cycle in which a goal takes its label.
#[derive(Drop)]
pub struct Frames {
    pub here: Vec<u64>,
    pub there: Vec<u64>,
}

/// Those of a valuation and a frame. It fails where memory runs out.
pub fn frames_of(
    alloc: Global,
    design: &Design,
    frame: Frame,
    v: &Valuation,
) -> Result<Frames, AllocError>
    requires { FitsDesign (design_of design.now) v.now }
    ensures settled { IfOk result (λ frames. let flat = design_of design.now in
        let given = valuation_of flat v.now in
        Settled (flat_system flat) given.registers given.inputs (by_number frames.here.items)) }
    ensures in_frame { IfOk result (λ frames. let flat = design_of design.now in
        IsInFrame flat (valuation_of flat v.now) (by_number frames.here.items) frame
        (by_number frames.there.items)) }
    ensures here_fit { IfOk result (λ frames.
        FitSignals (design_of design.now).signals frames.here.items) }
    ensures there_fit { IfOk result (λ frames.
        FitSignals (design_of design.now).signals frames.there.items) }
{
    // brings that it is admitted
    know_design(design);
    let mut sim = Sim::new(alloc, design)?;
    sim.load(&v.regs);
    sim.settle(&v.inputs);
    let here = sim.values().to_vec(alloc)?;
    go_to(&mut sim, frame, v);
    let there = sim.values().to_vec(alloc)?;
    Ok(Frames { here, there })
}

// Goes on to the cycle of the frame.
fn go_to(sim: &mut Sim, frame: Frame, v: &Valuation)
    requires settled { IsTrue sim.old.is_settled }
    requires fits { FitsDesign (design_of sim.old.design) v.now }
    ensures in_frame { let flat = design_of sim.old.design in
        IsInFrame flat (valuation_of flat v.now) (by_number sim.old.values) frame
        (by_number sim.new.values) }
    ensures settled { IsTrue sim.new.is_settled }
    ensures design { sim.new.design ≡ sim.old.design }
{
    match frame {
        Frame::Now => (),
        Frame::Next => {
            sim.tick();
            sim.settle(&v.next_inputs);
        }
    }
}
