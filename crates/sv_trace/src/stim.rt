// Whole stimuli.
ghost use Rattle.std.specs.Prelude.{map, All, IfOk, IfErr};
ghost use Rattle.sv_flat.specs.SignalLists.{inputs, registers};
ghost use Rattle.sv_flat.specs.Views.{design_of};
ghost use Rattle.sv_flat.specs.Given.{FitListed};
ghost use Rattle.sv_trace.specs.Forms.{form_of};
ghost use Rattle.sv_trace.specs.Reading.{IsStim, IsFaultOf};
ghost use Rattle.sv_trace.specs.Stimulus.{read_whole};

use crate::faults::StimFault;
use crate::reader::StimReader;
use std::alloc::Global;
use sv_design::Design;

/// A whole stimulus: the registers' starting values, in order, and the inputs' values, in order,
/// cycle by cycle.
#[derive(Debug, Drop)]
pub struct Stim {
    pub start: Vec<u64>,
    pub cycles: Vec<Vec<u64>>,
}

/// The stimulus that a text is, or its first wrong line.
pub fn read_stim(alloc: Global, design: &Design, bytes: &[u8]) -> Result<Stim, StimFault>
    ensures stim { IfOk result (λ stim. let form = form_of (design_of design.now) in
        IsStim form (read_whole form bytes.now) stim.start.items
        (map (λ cycle. cycle.items) stim.cycles.items)) }
    ensures start { IfOk result (λ stim. let flat = design_of design.now in
        FitListed flat.signals (registers flat) stim.start.items) }
    ensures cycles { IfOk result (λ stim. let flat = design_of design.now in
        All (FitListed flat.signals (inputs flat))
        (map (λ cycle. cycle.items) stim.cycles.items)) }
    ensures fault { IfErr result
        (IsFaultOf (read_whole (form_of (design_of design.now)) bytes.now)) }
{
    let mut reader = StimReader::new(alloc, design)?;
    reader.feed(bytes)?;
    reader.finish()?;
    let mut cycles = Vec::new(alloc);
    'cycles: while let Some(cycle) = reader.next_cycle() {
        cycles.push(cycle)?;
    }
    Ok(Stim {
        start: reader.into_start(),
        cycles,
    })
}
