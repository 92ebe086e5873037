// The line of the obligation of one path, written as the path was walked: no condition is copied.
ghost use Rattle.std.specs.Prelude.{◌≡◌, ◌<◌, ◌++◌, map, reverse, length, All, IfOk, OnOk};
ghost use Rattle.sv_flat.specs.ByNumber.{signal_forms};
ghost use Rattle.sv_flat.specs.Processes.{is_clocked};
ghost use Rattle.sv_flat.specs.Views.{process_kind, process_form};
ghost use Rattle.sv_paths.specs.ListLines.{step_word, list_line as line_of};
ghost use Rattle.sv_paths.specs.RouteObligations.{names_on, route_obligation};
ghost use Rattle.sv_paths.specs.RouteViews.{step_ref_form, route_form};
ghost use Rattle.sv_paths.specs.Written.{mark_word};

use crate::list_lines::{DrivenTarget, FlowLine, StepMark, push_flow, push_number};
use crate::path_queries::{frame_of, is_clocked, place_of};
use crate::reads::reads_of;
use crate::routes::{Route, StepRef};
use std::alloc::{AllocError, Global};

// The conditions as a line shows them, in textual order.
fn marks_on(alloc: Global, refs: &[StepRef]) -> Result<Vec<StepMark>, AllocError>
    ensures { IfOk result (λ marks.
        map mark_word marks.items ≡ map step_word (reverse (map step_ref_form refs.now))) }
{
    let mut marks = Vec::with_capacity(alloc, refs.len())?;
    for i in 0..refs.len() {
        let step = refs[refs.len() - 1 - i];
        marks.push(StepMark {
            truth: step.truth,
            place: step.place,
        })?;
    }
    Ok(marks)
}

/// Adds the line of the obligation of a path of the target through the process, with its number.
pub fn push_path(
    alloc: Global,
    text: &mut Vec<u8>,
    driven: DrivenTarget,
    number: u32,
    route: &Route,
) -> Result<(), AllocError>
    requires known { driven.target.0 < length driven.signals.now }
    requires names { All (λ t. t < length driven.signals.now)
        (names_on (is_clocked (process_kind driven.process.now.kind)) driven.target.0
        (route_form route.now)) }
    ensures { OnOk result (text.new.items ≡ text.old.items
        ++ line_of (signal_forms driven.entry.signals.now) number
        (route_obligation (length driven.entry.signals.now) (process_form driven.entry.process.now)
        driven.entry.target.0 (route_form route.now))) }
{
    let process = driven.process;
    let reads = reads_of(alloc, is_clocked(process.kind), driven.target, route)?;
    let marks = marks_on(alloc, &route.steps)?;
    let right = place_of(process, route.place);
    let flow = FlowLine {
        target: driven.target,
        frame: frame_of(process.kind),
        marks: &marks,
        right,
        reads: &reads,
    };
    push_number(text, number)?;
    push_flow(text, driven.signals, flow)?;
    text.push(b'\n')?;
    Ok(())
}
