// Where the processes of one kind stand among all processes.
ghost use Rattle.std.specs.Prelude.{◌≡◌, [], ◌∷◌, ◌++◌, if◌then◌else◌, IfOk, OnOk};
ghost use Rattle.sv_flat.specs.Views.{design_of, process_form};
ghost use Rattle.sv_event.specs.Places.{is_of_kind, ArePlaces};

use std::alloc::{AllocError, Global};
use sv_design::Design;
use sv_flat::{ProcKind, Process};

/// The places of the clocked processes, or of the others, in order. It fails where memory runs out.
pub fn places_of(alloc: Global, design: &Design, clocked: bool) -> Result<Vec<usize>, AllocError>
    ensures { IfOk result (λ places.
        ArePlaces (design_of design.now) clocked places.items) }
{
    let processes = design.processes();
    let mut places = Vec::with_capacity(alloc, processes.len())?;
    for place in 0..processes.len() {
        let process = &processes[place];
        push_if(is_wanted(process, clocked), place, &mut places)?;
    }
    Ok(places)
}

// Adds a place where it has a wanted process.
fn push_if(has: bool, place: usize, places: &mut Vec<usize>) -> Result<(), AllocError>
    ensures { OnOk result (places.new.items ≡ places.old.items ++ (if has
        then place ∷ [] else [])) }
{
    if has {
        places.push(place)?;
    }
    Ok(())
}

// Whether a process is of the kind.
fn is_wanted(process: &Process, clocked: bool) -> bool
    ensures { result ≡ is_of_kind clocked (process_form process.now) }
{
    match process.kind {
        ProcKind::Clocked(_) => clocked,
        _ => !clocked,
    }
}
