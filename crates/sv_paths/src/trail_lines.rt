// The line of the obligation of one path through a body with earlier reads.
ghost use Rattle.std.specs.Prelude.{◌≡◌, ◌<◌, ◌++◌, map, reverse, length, All, IfOk, OnOk};
ghost use Rattle.sv_flat.specs.ByNumber.{signal_forms};
ghost use Rattle.sv_flat.specs.Views.{process_form};
ghost use Rattle.sv_paths.specs.TrailLines.{trail_line};
ghost use Rattle.sv_paths.specs.TrailViews.{trail_form};
ghost use Rattle.sv_paths.specs.Written.{mark_word};

use crate::list_lines::{DrivenTarget, FlowLine, StepMark, push_flow, push_number};
use crate::path_queries::{frame_of, place_of};
use crate::reads::signals_of;
use crate::trails::Trail;
use std::alloc::{AllocError, Global};

// The conditions in textual order.
fn marks_on(alloc: Global, marks: &[StepMark]) -> Result<Vec<StepMark>, AllocError>
    ensures { IfOk result (λ turned.
        map mark_word turned.items ≡ map mark_word (reverse marks.now)) }
{
    let mut turned = Vec::with_capacity(alloc, marks.len())?;
    for i in 0..marks.len() {
        turned.push(marks[marks.len() - 1 - i])?;
    }
    Ok(turned)
}

/// Adds the line of the obligation of a path of the target through the process, with its number.
pub fn push_trail(
    alloc: Global,
    text: &mut Vec<u8>,
    driven: DrivenTarget,
    number: u32,
    trail: &Trail,
) -> Result<(), AllocError>
    requires known { driven.target.0 < length driven.signals.now }
    requires names { All (λ t. t < length driven.signals.now) trail.now.names.settled.keys }
    ensures { OnOk result (text.new.items ≡ text.old.items
        ++ trail_line (signal_forms driven.entry.signals.now) number
        (process_form driven.entry.process.now)
        driven.entry.target.0 (trail_form trail.now)) }
{
    let process = driven.process;
    let reads = signals_of(alloc, &trail.names.settled)?;
    let marks = marks_on(alloc, &trail.marks)?;
    let right = place_of(process, trail.place);
    let flow = FlowLine {
        target: driven.target,
        frame: frame_of(process.kind),
        marks: &marks,
        right,
        reads: &reads,
    };
    push_number(text, number)?;
    push_flow(text, driven.signals, flow)?;
    text.push(b'\n')?;
    Ok(())
}
