// What is used as something else than a clock.
ghost use Rattle.std.specs.Prelude.{◌≡◌, ◌<◌, ◌==◌, length, IsTrue, OnOk};
ghost use Rattle.std.specs.List.{list_any, list_all};
ghost use Rattle.sv_flat.specs.Clocks.{uses_as_signal, selects_by, links_in};
ghost use Rattle.sv_flat.specs.Design.{SignalForm, InvariantForm};
ghost use Rattle.sv_flat.specs.Readings.{names_signal};
ghost use Rattle.sv_flat.specs.Soundness.{sound, process_sound, label_sound};
ghost use Rattle.sv_flat.specs.Views.{design_of, process_form};
ghost use Rattle.sv_rules.specs.Links.{link_of, IsBelow};
ghost use Rattle.sv_graph.specs.Marks.{Marks};
ghost use Rattle.sv_rules.specs.Selectors.{SelectsBelow, is_port};

use crate::links::{Link, link_in};
use crate::marks::{mark_names, mark_reads, mark_targets};
use std::alloc::{AllocError, Global};
use sv_flat::{Flat, Process, SigId};
use sv_graph::mark;
use sv_lattice::Label;

// Marks what a process reads or drives, where it is no link by a whole name to an input port.
fn mark_uses(
    alloc: Global,
    flat: &Flat,
    table: &mut [bool],
    process: &Process,
) -> Result<(), AllocError>
    requires process { IsTrue (process_sound (design_of flat.now) (process_form process.now)) }
    requires size { length table.old ≡ length flat.now.signals.items }
    ensures { OnOk result (Marks table.old table.new (λ s.
        uses_as_signal (design_of flat.now) s (process_form process.now))) }
{
    match link_in(process) {
        Some(_) => Ok(()),
        None => {
            mark_targets(table, &process.body);
            mark_reads(alloc, flat, table, &process.body)?;
            Ok(())
        }
    }
}

/// Marks what processes read or drive otherwise than in links by whole names to input ports. It
/// fails where memory runs out.
pub fn mark_process_uses(alloc: Global, flat: &Flat, table: &mut [bool]) -> Result<(), AllocError>
    requires sound { IsTrue (sound (design_of flat.now)) }
    requires size { length table.old ≡ length flat.now.signals.items }
    ensures { OnOk result (Marks table.old table.new (λ s.
        list_any (uses_as_signal (design_of flat.now) s) (design_of flat.now).processes)) }
{
    for process in &flat.processes {
        mark_uses(alloc, flat, table, process)?;
    }
    Ok(())
}

/// Marks the selectors of a label.
pub fn mark_selectors(table: &mut [bool], label: &Label)
    requires { SelectsBelow (length table.old) label.now }
    ensures { Marks table.old table.new (λ s. selects_by s label.now) }
{
    match label {
        Label::Point(_) => {}
        Label::Table {
            first,
            second: None,
            ..
        } => mark(table, SigId(*first)),
        Label::Table {
            first,
            second: Some(second),
            ..
        } => {
            mark(table, SigId(*first));
            mark(table, SigId(*second));
        }
    }
}

/// Marks the selectors of the signals' labels.
pub fn mark_label_uses(flat: &Flat, table: &mut [bool])
    requires sound { IsTrue (sound (design_of flat.now)) }
    requires size { length table.old ≡ length flat.now.signals.items }
    ensures { Marks table.old table.new (λ s. list_any (λ (signal : SignalForm).
        selects_by s signal.label) (design_of flat.now).signals) }
{
    for signal in &flat.signals {
        mark_selectors(table, &signal.label);
    }
}

// Marks the port of a link by a whole name to an input port.
fn mark_port(table: &mut [bool], link: Option<Link>)
    requires { IsBelow (length table.old) (link_of link) }
    ensures { Marks table.old table.new (λ s. is_port (link_of link) s) }
{
    if let Some(link) = link {
        mark(table, link.target);
    }
}

/// Marks the input ports that are linked by whole names.
pub fn mark_linked(flat: &Flat, table: &mut [bool])
    requires sound { IsTrue (sound (design_of flat.now)) }
    requires size { length table.old ≡ length flat.now.signals.items }
    ensures { Marks table.old table.new (λ s. list_any (λ pair. pair.0 == s)
        (links_in (design_of flat.now))) }
{
    for process in &flat.processes {
        mark_port(table, link_in(process));
    }
}

/// Marks what the declared invariants name. It fails where memory runs out.
pub fn mark_invariant_uses(alloc: Global, flat: &Flat, table: &mut [bool]) -> Result<(), AllocError>
    requires sound { IsTrue (sound (design_of flat.now)) }
    requires size { length table.old ≡ length flat.now.signals.items }
    ensures { OnOk result (Marks table.old table.new (λ s. list_any (λ (i : InvariantForm).
        names_signal (design_of flat.now).signals i.expression s)
        (design_of flat.now).invariants)) }
{
    for invariant in &flat.invariants {
        mark_names(alloc, flat, table, &invariant.1)?;
    }
    Ok(())
}
