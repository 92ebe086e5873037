// The processes of a design.
ghost use Rattle.std.specs.Prelude.{◌≡◌, [], ◌∷◌, ◌++◌, map, OnOk, IfOk, IsTrue};
ghost use Rattle.sv_flat.specs.Clocks.{processes_of};
ghost use Rattle.sv_flat.specs.Soundness.{sound, process_sound};
ghost use Rattle.sv_flat.specs.Views.{design_of, process_form};
ghost use Rattle.sv_rules.specs.DriverTables.{AreClocks, kept_of};

use std::alloc::{AllocError, Global};
use sv_flat::{Flat, Process};
use sv_rules::is_clock_link;

// Adds a copy of a process that is no link to a clock.
fn push_kept(
    alloc: Global,
    flat: &Flat,
    clocks: &[bool],
    process: &Process,
    kept: &mut Vec<Process>,
) -> Result<(), AllocError>
    requires sound { IsTrue (process_sound (design_of flat.now) (process_form process.now)) }
    requires clocks { AreClocks (design_of flat.now) clocks.now }
    ensures { OnOk result (map process_form kept.new.items ≡
        map process_form kept.old.items ++ kept_of (design_of flat.now)
        (process_form process.now ∷ [])) }
{
    if is_clock_link(flat, process, clocks) {
        return Ok(());
    }
    let copy = process.copy(alloc)?;
    kept.push(copy)?;
    Ok(())
}

/// Copies of the processes in order, links to clocks left out.
pub fn kept_processes(
    alloc: Global,
    flat: &Flat,
    clocks: &[bool],
) -> Result<Vec<Process>, AllocError>
    requires sound { IsTrue (sound (design_of flat.now)) }
    requires clocks { AreClocks (design_of flat.now) clocks.now }
    ensures { IfOk result (λ kept.
        map process_form kept.items ≡ processes_of (design_of flat.now)) }
{
    let mut kept = Vec::with_capacity(alloc, flat.processes.len())?;
    for process in &flat.processes {
        push_kept(alloc, flat, clocks, process, &mut kept)?;
    }
    Ok(kept)
}
