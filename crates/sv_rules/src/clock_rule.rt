// Rule 602: what a clock has to be.
ghost use Rattle.std.specs.Prelude.{◌≡◌, ◌==◌, ◌&&◌, ◌||◌, not, length, IsTrue, OnOk, IfOk};
ghost use Rattle.sv_flat.specs.Clocks.{is_least_label};
ghost use Rattle.sv_flat.specs.Drivers.{clock_faults};
ghost use Rattle.sv_flat.specs.Processes.{is_top_kind, is_input_kind};
ghost use Rattle.sv_flat.specs.Soundness.{sound};
ghost use Rattle.sv_flat.specs.Views.{design_of};
ghost use Rattle.sv_rules.specs.ClockTables.{AreClockTables, is_whole_port, is_used};
ghost use Rattle.sv_rules.specs.DriverTables.{AreClocks};
ghost use Rattle.sv_rules.specs.First.{FindsFirst};
ghost use Rattle.sv_graph.specs.Marks.{Marks, IsTable};

use crate::clocks::is_top;
use crate::found::{Found, first_of, found_if};
use crate::marks::unmarked;
use crate::tops::agreeing;
use crate::uses::{mark_invariant_uses, mark_label_uses, mark_linked, mark_process_uses};
use std::alloc::{AllocError, Global};
use sv_flat::{Flat, SigId, SigKind, Signal};
use sv_lattice::{Label, Lattice};

// Marks what is used as something else than a clock.
fn mark_used(alloc: Global, flat: &Flat, table: &mut [bool]) -> Result<(), AllocError>
    requires sound { IsTrue (sound (design_of flat.now)) }
    requires size { length table.old ≡ length flat.now.signals.items }
    ensures { OnOk result (Marks table.old table.new (is_used (design_of flat.now))) }
{
    mark_process_uses(alloc, flat, table)?;
    mark_label_uses(flat, table);
    mark_invariant_uses(alloc, flat, table)?;
    Ok(())
}

// For each signal, whether it is used as something else than a clock.
fn use_table(alloc: Global, flat: &Flat) -> Result<Vec<bool>, AllocError>
    requires { IsTrue (sound (design_of flat.now)) }
    ensures { IfOk result (λ table.
        IsTable (length flat.now.signals.items) table.items (is_used (design_of flat.now))) }
{
    let mut table = unmarked(alloc, flat)?;
    mark_used(alloc, flat, &mut table)?;
    Ok(table)
}

// For each signal, whether it is an input port that is linked by a whole name.
fn link_table(alloc: Global, flat: &Flat) -> Result<Vec<bool>, AllocError>
    requires { IsTrue (sound (design_of flat.now)) }
    ensures { IfOk result (λ table.
        IsTable (length flat.now.signals.items) table.items
        (is_whole_port (design_of flat.now))) }
{
    let mut table = unmarked(alloc, flat)?;
    mark_linked(flat, &mut table);
    Ok(table)
}

/// What rule 602 asks of each signal: whether it is linked by a whole name, is used as something
/// else than a clock, and agrees with the clocks before it.
#[derive(Drop)]
pub struct ClockTables {
    pub linked: Vec<bool>,
    pub used: Vec<bool>,
    pub agrees: Vec<bool>,
}

// What rule 602 asks of each signal.
fn clock_tables(alloc: Global, flat: &Flat, clocks: &[bool]) -> Result<ClockTables, AllocError>
    requires sound { IsTrue (sound (design_of flat.now)) }
    requires clocks { AreClocks (design_of flat.now) clocks.now }
    ensures { IfOk result (AreClockTables (design_of flat.now)) }
{
    let linked = link_table(alloc, flat)?;
    let used = use_table(alloc, flat)?;
    let agrees = agreeing(alloc, flat, clocks)?;
    Ok(ClockTables {
        linked,
        used,
        agrees,
    })
}

// Whether the label is the least point.
fn is_least_label(lattice: &Lattice, label: &Label) -> bool
    ensures { result ≡ is_least_label lattice.now label.now }
{
    match label {
        Label::Point(point) => point.0 == lattice.least().0,
        Label::Table { .. } => false,
    }
}

// Whether a signal of the kind is an input port.
fn is_input(kind: SigKind) -> bool
    ensures { result ≡ is_input_kind kind }
{
    matches!(kind, SigKind::TopInput | SigKind::Input)
}

// Whether a clock is what it has to be, where tables say whether it is linked by a whole name,
// agrees with the clocks before it, and is used as something else.
fn is_proper(lattice: &Lattice, signal: &Signal, linked: bool, agrees: bool, used: bool) -> bool
    ensures { result ≡ (is_input_kind signal.now.kind && (signal.now.width == 1)
        && (is_top_kind signal.now.kind || linked) && agrees && not used
        && is_least_label lattice.now signal.now.label) }
{
    let one_bit = is_input(signal.kind) & (signal.width == 1);
    let is_linked = is_top(signal.kind) | linked;
    one_bit & is_linked & agrees & !used & is_least_label(lattice, &signal.label)
}

// Whether a signal is a clock that is not what it has to be.
fn is_wrong(is_clock: bool, is_proper: bool) -> bool
    ensures { result ≡ (is_clock && not is_proper) }
{
    is_clock & !is_proper
}

// The first clock that breaks rule 602, by tables.
fn wrong_clock_by(flat: &Flat, clocks: &[bool], tables: &ClockTables) -> Option<Found>
    requires sound { IsTrue (sound (design_of flat.now)) }
    requires clocks { AreClocks (design_of flat.now) clocks.now }
    requires tables { AreClockTables (design_of flat.now) tables.now }
    ensures { FindsFirst 602 (clock_faults (design_of flat.now)) result }
{
    let linked = tables.linked.as_slice();
    let used = tables.used.as_slice();
    let agrees = tables.agrees.as_slice();
    let mut found = None;
    for (i, signal) in flat.signals.iter().enumerate() {
        let proper = is_proper(&flat.lattice, signal, linked[i], agrees[i], used[i]);
        let wrong = is_wrong(clocks[i], proper);
        found = first_of(found, found_if(wrong, signal.place, SigId(i as u32)));
    }
    found
}

/// The first clock that breaks rule 602. It fails where memory runs out.
pub fn first_wrong_clock(
    alloc: Global,
    flat: &Flat,
    clocks: &[bool],
) -> Result<Option<Found>, AllocError>
    requires sound { IsTrue (sound (design_of flat.now)) }
    requires clocks { AreClocks (design_of flat.now) clocks.now }
    ensures { IfOk result (FindsFirst 602 (clock_faults (design_of flat.now))) }
{
    let tables = clock_tables(alloc, flat, clocks)?;
    let found = wrong_clock_by(flat, clocks, &tables);
    Ok(found)
}
