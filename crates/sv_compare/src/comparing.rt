// Two stimuli, read and compared.
ghost use Rattle.std.specs.Prelude.{ℕ, ◌<◌, List, length, Contains, IfOk, IfErr, IfSome};
ghost use Rattle.sv_flat.specs.FlatSystem.{flat_system};
ghost use Rattle.sv_flat.specs.Views.{design_of};
ghost use Rattle.sv_trace.specs.Forms.{StimForm, form_of};
ghost use Rattle.sv_trace.specs.Reading.{IsFaultOf};
ghost use Rattle.sv_trace.specs.Stimulus.{read_whole};
ghost use Rattle.sv_tworun.specs.Forms.{finding};
ghost use Rattle.sv_compare.specs.ComparedTexts.{IsDesignCompared, signal_told};
ghost use Rattle.sv_compare.specs.Pairs.{IsRight, HasCompareFault};

use crate::faults::CompareFault;
use std::alloc::Global;
use sv_design::Design;
use sv_lattice::Point;
use sv_obl::know_design;
use sv_trace::{StimFault, read_stim};
use sv_tworun::{Compared, compare};

/// Reads the first stimulus whole, then the second one, and then compares the runs that they ask
/// for. A wrong line of the first is told before one of the second.
pub fn compare_stimuli(
    alloc: Global,
    design: &Design,
    level: Point,
    first: &[u8],
    second: &[u8],
) -> Result<Compared, CompareFault>
    requires level { level.0 < length design.now.lattice }
    ensures found { IfOk result (λ found. IsDesignCompared (design_of design.now) level first.now
        second.now (finding found)) }
    ensures right { IfOk result (λ _. IsRight (form_of (design_of design.now)) first.now
        × IsRight (form_of (design_of design.now)) second.now) }
    ensures fault { IfErr result
        (HasCompareFault (form_of (design_of design.now)) first.now second.now) }
    ensures signal { IfOk result (λ found. IfSome (signal_told (finding found))
        (λ s. (s < length design.now.signals.items)
        × Contains (flat_system (design_of design.now)).signals s)) }
{
    // brings that it is admitted, as what is read of it asks
    know_design(design);
    let one = match read_stim(alloc, design, first) {
        Ok(stim) => stim,
        Err(fault) => return Err(wrong_in_first(fault)),
    };
    let other = match read_stim(alloc, design, second) {
        Ok(stim) => stim,
        Err(fault) => return Err(wrong_in_second(fault)),
    };
    Ok(compare(alloc, design, level, &one, &other)?)
}

// What is told of a fault of the first stimulus.
fn wrong_in_first(fault: StimFault) -> CompareFault
    ensures { (form : StimForm) (first second : List ℕ) → IsFaultOf (read_whole form first) fault
        → HasCompareFault form first second result }
{
    match fault {
        StimFault::Line(line, kind) => CompareFault::First(line, kind),
        StimFault::OutOfMemory => CompareFault::OutOfMemory,
    }
}

// What is told of a fault of the second stimulus, where the first one is right.
fn wrong_in_second(fault: StimFault) -> CompareFault
    ensures { (form : StimForm) (first second : List ℕ) → IsRight form first
        → IsFaultOf (read_whole form second) fault → HasCompareFault form first second result }
{
    match fault {
        StimFault::Line(line, kind) => CompareFault::Second(line, kind),
        StimFault::OutOfMemory => CompareFault::OutOfMemory,
    }
}
