// Registers and combinational signals.
ghost use Rattle.std.specs.Prelude.{◌≡◌, ◌<◌, ◌&&◌, ◌||◌, not, length, filter, map, IsTrue, IfOk};
ghost use Rattle.sv_flat.specs.Assigned.{assigns};
ghost use Rattle.sv_flat.specs.Design.{ProcessForm};
ghost use Rattle.sv_flat.specs.Processes.{is_clocked, is_register};
ghost use Rattle.sv_flat.specs.Reads.{is_combinational};
ghost use Rattle.sv_flat.specs.Soundness.{sound};
ghost use Rattle.sv_flat.specs.Views.{design_of, process_kind, process_form, flat_statement};
ghost use Rattle.sv_rules.specs.DriverTables.{AreClocks, IsSoundOver};
ghost use Rattle.sv_graph.specs.Marks.{Marks, IsTable};

use std::alloc::{AllocError, Global};
use sv_flat::{Flat, ProcKind, Process};
use sv_rules::{is_top, mark_targets, unmarked};

// Whether the process is a clocked one.
fn is_clocked(kind: ProcKind) -> bool
    ensures { result ≡ is_clocked (process_kind kind) }
{
    matches!(kind, ProcKind::Clocked(_))
}

// Marks the signals that a process assigns, where it is a clocked one.
fn mark_registers(table: &mut [bool], process: &Process)
    requires { IsSoundOver (length table.old) (flat_statement process.now.body) }
    ensures { Marks table.old table.new (λ s.
        is_clocked (process_kind process.now.kind) && assigns (flat_statement process.now.body) s) }
{
    if is_clocked(process.kind) {
        mark_targets(table, &process.body);
    }
}

/// For each signal, whether a clocked process assigns it. It fails where memory runs out.
pub fn register_table(alloc: Global, flat: &Flat) -> Result<Vec<bool>, AllocError>
    requires { IsTrue (sound (design_of flat.now)) }
    ensures { IfOk result (λ table.
        IsTable (length flat.now.signals.items) table.items (is_register (design_of flat.now))) }
{
    let mut table = unmarked(alloc, flat)?;
    for process in &flat.processes {
        mark_registers(&mut table, process);
    }
    Ok(table)
}

// Whether a signal is neither an input of the top module, a register nor a clock.
fn is_comb(is_top: bool, is_register: bool, is_clock: bool) -> bool
    ensures { result ≡ not (is_top || is_register || is_clock) }
{
    !(is_top | is_register | is_clock)
}

/// For each signal, whether it is combinational. It fails where memory runs out.
pub fn comb_table(
    alloc: Global,
    flat: &Flat,
    clocks: &[bool],
    registers: &[bool],
) -> Result<Vec<bool>, AllocError>
    requires clocks { AreClocks (design_of flat.now) clocks.now }
    requires registers { IsTable (length flat.now.signals.items) registers.now
        (is_register (design_of flat.now)) }
    ensures { IfOk result (λ table.
        IsTable (length flat.now.signals.items) table.items
        (is_combinational (design_of flat.now))) }
{
    let mut table = Vec::with_capacity(alloc, flat.signals.len())?;
    for (s, signal) in flat.signals.iter().enumerate() {
        table.push(is_comb(is_top(signal.kind), registers[s], clocks[s]))?;
    }
    Ok(table)
}

/// How many of some processes are clocked.
pub fn clocked_count(processes: &[Process]) -> usize
    ensures { result ≡ length (filter (λ (p : ProcessForm).
        is_clocked p.kind) (map process_form processes.now)) }
{
    let mut count = 0;
    for process in processes {
        count += usize::from(is_clocked(process.kind));
    }
    count
}
